//! What the classes of judged files have.

ghost use Rattle.std.specs.Prelude.{◌≡◌, List};
ghost use Rattle.file_tables.specs.File.{FilePart};
ghost use Rattle.classes.specs.Reading.{IsRead};
ghost use Rattle.class_rules.specs.Rules.{Keeps};
ghost use Rattle.world_rows.specs.World.{type_count, rows_alone, ecma_sources};
ghost use Rattle.cil_types.specs.Spelt.{AreSpelt};
ghost use Rattle.ecma_effects.specs.Told.{Tabled};
ghost use Rattle.judged_classes.specs.Judged.{IsJudged};

/// Their members belong to one class, and their kinds are told by names and superclasses.
pub fn judged_classes_are_read()
    ensures { (files : List FilePart) → IsJudged files → IsRead (type_count (rows_alone files)) (ecma_sources files).classes }
{}

/// They break no rule on classes and members.
pub fn judged_classes_keep()
    ensures { (files : List FilePart) → IsJudged files → Keeps (type_count (rows_alone files)) (ecma_sources files).classes }
{}

/// Their kinds have spellings.
pub fn judged_classes_are_spelt()
    ensures { (files : List FilePart) → IsJudged files → AreSpelt (ecma_sources files).classes }
{}

/// Their fields are found by their numbers, and no constructor is native.
pub fn judged_classes_are_tabled()
    ensures { (files : List FilePart) → IsJudged files → Tabled (ecma_sources files).classes }
{}
