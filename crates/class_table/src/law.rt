//! What a whole table tells.

ghost use Rattle.std.specs.Prelude.{◌≡◌, List};
ghost use Rattle.file_tables.specs.File.{FilePart};
ghost use Rattle.world_rows.specs.World.{ecma_sources};
ghost use Rattle.class_table.specs.declared.rows.ClassTable.{ClassTable};
ghost use Rattle.class_table.specs.Seen.{classes_seen};
ghost use Rattle.class_table.specs.Whole.{IsTable};

/// A table whose parts say what a world's files do tells the world's classes.
pub fn whole_table()
    ensures { (files : List FilePart) (t : ClassTable) → IsTable files t → classes_seen t ≡ (ecma_sources files).classes }
{}
