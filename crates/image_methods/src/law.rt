//! The tables of methods and of clauses that are made of a file's bodies are those of the parts of its kept rows.

ghost use Rattle.std.specs.Prelude.{◌≡◌, ℕ, Bool, List, Some, slice_get};
ghost use Rattle.file_tables.specs.File.{FilePart};
ghost use Rattle.assemblies.specs.Rows.{Assembly};
ghost use Rattle.world_rows.specs.World.{assemblies_of};
ghost use Rattle.class_table.specs.declared.rows.FileRows.{FileRows};
ghost use Rattle.class_table.specs.declared.rows.ClassTable.{ClassTable};
ghost use Rattle.class_table.specs.Whole.{IsTable};
ghost use Rattle.msspot_write.specs.Parts.{rows_of};
ghost use Rattle.kept_marks.specs.Masks.{Masks, choice_with};
ghost use Rattle.converted.specs.Bodies.{methods_of};
ghost use Rattle.converted.specs.Choosing.{choice_of};
ghost use Rattle.converted.specs.Images.{parts_of, parts_cut};
ghost use Rattle.image_methods.specs.Methods.{clause_rows, method_rows};

/// The table of clauses, among the parts of a file's kept rows, is made of the bodies of the file, whatever they are.
pub fn clauses_are_of_the_file()
    ensures { (files : List FilePart) (f : ℕ) (x : FilePart) (p : Assembly) → slice_get files f ≡ Some x → slice_get (assemblies_of files) f ≡ Some p → (kept : Masks) (marks : List Bool) → rows_of (parts_cut (parts_of (choice_with kept (choice_of files marks f).short (choice_of files marks f).long) p (methods_of x p))) 8 ≡ clause_rows kept x }
{}

/// The table of methods, among the parts of a file's kept rows, is made of the rows of the table of classes and of the signatures and
/// bodies of the file.
pub fn methods_are_of_the_world()
    ensures { (files : List FilePart) (f : ℕ) (x : FilePart) (p : Assembly) → slice_get files f ≡ Some x → slice_get (assemblies_of files) f ≡ Some p → (kept : Masks) (marks : List Bool) (t : ClassTable) (rows : FileRows) → IsTable files t → slice_get t.files.items f ≡ Some rows → rows_of (parts_cut (parts_of (choice_with kept (choice_of files marks f).short (choice_of files marks f).long) p (methods_of x p))) 7 ≡ method_rows kept x rows.methods.items }
{}
