//! What a whole table of a set tells.

ghost use Rattle.std.specs.Prelude.{◌≡◌, List};
ghost use Rattle.assemblies.specs.Rows.{Assembly};
ghost use Rattle.assemblies.specs.Binding.{classes_of};
ghost use Rattle.world_rows.specs.World.{size_of};
ghost use Rattle.class_table.specs.declared.rows.ClassTable.{ClassTable};
ghost use Rattle.class_table.specs.Seen.{classes_seen};
ghost use Rattle.set_table.specs.Whole.{IsSetTable};

/// A table whose parts say what a set's assemblies do tells the set's classes.
pub fn whole_set_table()
    ensures { (ps : List Assembly) (t : ClassTable) → IsSetTable ps t → classes_seen t ≡ classes_of (size_of ps) ps }
{}
