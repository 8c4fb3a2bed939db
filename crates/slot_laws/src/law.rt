//! The methods that slots stand on, and the ways up that they are looked for on.

ghost use Rattle.std.specs.Prelude.{◌≡◌, List, None};
ghost use Rattle.file_tables.specs.File.{FilePart};
ghost use Rattle.world_rows.specs.Read.{TypesStand};
ghost use Rattle.world_rows.specs.World.{ecma_sources};
ghost use Rattle.class_slots.specs.Added.{GoUp};
ghost use Rattle.class_slots.specs.Slots.{MethodsStand};
ghost use Rattle.verdict_rules.specs.Verdict.{profile};

/// Where files of which the types keep rule 12 break none of the rules 20 to 30, no class has two methods of one name and
/// signature, each method has a body unless it is abstract, and each is the method of the class that lists it.
pub fn methods_stand_well()
    ensures { (files : List FilePart) → TypesStand files → profile files ≡ None → MethodsStand (ecma_sources files).classes }
{}

/// Where files of which the types keep rule 12 break none of the rules 20 to 30, no way up from a class goes in a circle, no
/// interface has a superclass, and no virtual method is static.
pub fn classes_go_up()
    ensures { (files : List FilePart) → TypesStand files → profile files ≡ None → GoUp (ecma_sources files).classes }
{}
