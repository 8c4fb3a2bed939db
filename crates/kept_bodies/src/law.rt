//! The literals that are made of a file's bodies are those of the parts of its kept rows.

ghost use Rattle.std.specs.Prelude.{◌≡◌, ℕ, Bool, List, Some, slice_get};
ghost use Rattle.file_tables.specs.File.{FilePart};
ghost use Rattle.assemblies.specs.Rows.{Assembly};
ghost use Rattle.world_rows.specs.World.{assemblies_of};
ghost use Rattle.kept_marks.specs.Masks.{Masks, choice_with};
ghost use Rattle.converted.specs.Bodies.{methods_of};
ghost use Rattle.converted.specs.Choosing.{choice_of};
ghost use Rattle.converted.specs.Images.{parts_of, parts_cut};
ghost use Rattle.kept_bodies.specs.Literals.{literal_rows};

/// The literals, among the parts of a file's kept rows, are made of the bodies of the file, whatever they are.
pub fn literals_are_of_the_file()
    ensures { (files : List FilePart) (f : ℕ) (x : FilePart) (p : Assembly) → slice_get files f ≡ Some x → slice_get (assemblies_of files) f ≡ Some p → (kept : Masks) (marks : List Bool) → (parts_cut (parts_of (choice_with kept (choice_of files marks f).short (choice_of files marks f).long) p (methods_of x p))).literals ≡ literal_rows kept x }
{}
