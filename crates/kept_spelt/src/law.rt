//! What is spelt of the rows of files.

ghost use Rattle.std.specs.Prelude.{◌≡◌, ℕ, Bool, List, Some, slice_get};
ghost use Rattle.file_tables.specs.Metadata.{MetadataPart};
ghost use Rattle.file_tables.specs.File.{FilePart};
ghost use Rattle.assemblies.specs.Rows.{Assembly};
ghost use Rattle.assemblies.specs.Closed.{Each};
ghost use Rattle.kept_closure.specs.Kept.{IsClosed};
ghost use Rattle.chosen_image.specs.Spells.{Spells, TypeSpells};
ghost use Rattle.world_rows.specs.Lines.{locals_of};
ghost use Rattle.world_rows.specs.World.{size_of, rows_alone, assemblies_of};
ghost use Rattle.base_rows.specs.Facts.{base};
ghost use Rattle.rows_resolved.specs.Resolved.{IsAccepted};
ghost use Rattle.converted.specs.Bodies.{methods_of};
ghost use Rattle.converted.specs.Choosing.{choice_of};
ghost use Rattle.kept_spelt.specs.Rows.{RowsSpell, BodiesSpell};

/// The rows of each file have names in UTF-8, versions of four numbers and signatures of the form: what can't be read is seen as one that
/// names nothing.
pub fn rows_of_files_spell()
    ensures { (files : List FilePart) (f : ℕ) (p : Assembly) → slice_get (assemblies_of files) f ≡ Some p → RowsSpell p }
{}

/// The types of a body's locals are of the form.
pub fn locals_of_files_spell()
    ensures { (m : MetadataPart) (token : ℕ) → Each TypeSpells (locals_of m token) }
{}

/// Behind the base library the kept rows of an accepted file have a spelling where the bodies of the kept methods have one: kinds are those
/// of elements and enums (rule 26), fields and methods of a type lie in the tables (rule 12), no kept field is literal (rule 46), and each
/// kept specification is of an array.
pub fn kept_rows_spell()
    ensures { (xs : List FilePart) (marks : List Bool) (f : ℕ) (x : FilePart) (p : Assembly) → IsAccepted (base xs) → IsClosed (size_of (rows_alone (base xs))) (assemblies_of (base xs)) (choice_of (base xs) marks) → slice_get (base xs) f ≡ Some x → slice_get (assemblies_of (base xs)) f ≡ Some p → BodiesSpell (choice_of (base xs) marks f) (methods_of x p) → Spells (choice_of (base xs) marks f) p (methods_of x p) }
{}
