//! The places that are read of a method are those that the verdict knows.

ghost use Rattle.std.specs.Prelude.{◌≡◌, ℕ, true, List, map, None, Some, slice_get};
ghost use Rattle.std.specs.Option.{option_map};
ghost use Rattle.cil_code.specs.Bodies.{BodyPart};
ghost use Rattle.file_tables.specs.File.{FilePart};
ghost use Rattle.file_tables.specs.Metadata.{rows_of};
ghost use Rattle.machine.specs.Program.{Method};
ghost use Rattle.classes.specs.Queries.{type_of};
ghost use Rattle.classes.specs.Reading.{IsRead};
ghost use Rattle.assemblies.specs.Binding.{id_at};
ghost use Rattle.world_rows.specs.Tokens.{methods};
ghost use Rattle.world_rows.specs.Read.{TypesStand};
ghost use Rattle.world_rows.specs.World.{ecma_sources, rows_alone, type_count};
ghost use Rattle.class_table.specs.declared.rows.ClassTable.{ClassTable};
ghost use Rattle.class_table.specs.Whole.{IsTable};
ghost use Rattle.cil_types.specs.Spelt.{AreSpelt};
ghost use Rattle.place_types.specs.Types.{place_of, place_up};
ghost use Rattle.verify_ops.specs.Facts.{result_of};
ghost use Rattle.ecma_effects.specs.Known.{AllLoaded};
ghost use Rattle.verdict_rules.specs.Code.{body_of, is_code, method_here};
ghost use Rattle.verdict_rules.specs.Verdict.{profile};
ghost use Rattle.verdict_rules.specs.World.{world_of};
ghost use Rattle.method_facts.specs.declared.method.MethodPlaces.{MethodPlaces};
ghost use Rattle.method_facts.specs.Members.{PlacesTold};
ghost use Rattle.method_facts.specs.Places.{type_to};
ghost use Rattle.local_places.specs.Locals.{locals_meant};

/// Where files of which the types keep rule 12 break none of the rules 20 to 30, and classes have spellings, the places that the table
/// tells of a method are those that the machine gives it, whether a class has it or not. A value is loaded from each argument.
/// A method of which the table tells no places is none.
pub fn arguments_are_known()
    ensures told { (files : List FilePart) (t : ClassTable) → IsTable files t → IsRead (type_count (rows_alone files)) (ecma_sources files).classes → AreSpelt (ecma_sources files).classes → TypesStand files → profile files ≡ None → (file row : ℕ) (x : FilePart) (m : Method) (p : MethodPlaces) → slice_get files file ≡ Some x → method_here (world_of files) file x row ≡ Some m → PlacesTold t (id_at file row) (Some p) → (map place_of p.arguments.items ≡ map place_up m.arguments) × (result_of p.result ≡ option_map place_up m.returns) × AllLoaded m.arguments }
    ensures none { (files : List FilePart) (t : ClassTable) → IsTable files t → (file row : ℕ) (x : FilePart) → slice_get files file ≡ Some x → PlacesTold t (id_at file row) None → method_here (world_of files) file x row ≡ None }
{}

/// So are the types of the locals of its code, as the token of their signature tells them, and the most that its stack holds.
pub fn locals_are_known()
    ensures { (files : List FilePart) → IsRead (type_count (rows_alone files)) (ecma_sources files).classes → AreSpelt (ecma_sources files).classes → TypesStand files → profile files ≡ None → (file row : ℕ) (x : FilePart) (columns : List ℕ) (m : Method) (b : BodyPart) → slice_get files file ≡ Some x → slice_get (rows_of x.metadata methods) row ≡ Some columns → method_here (world_of files) file x row ≡ Some m → is_code m.body ≡ true → body_of x columns ≡ Some b → (map place_of (map (λ s. type_to (type_of (ecma_sources files).classes s)) (locals_meant files file x b.locals_token)) ≡ map place_up m.locals) × AllLoaded m.locals × (m.max_stack ≡ b.max_stack) }
{}
