//! The tables that are made of a file's rows are those of the parts of its kept rows.

ghost use Rattle.std.specs.Prelude.{◌≡◌, ℕ, List, Some, slice_get};
ghost use Rattle.file_tables.specs.File.{FilePart};
ghost use Rattle.assemblies.specs.Rows.{Assembly};
ghost use Rattle.image_form.specs.Whole.{Methods};
ghost use Rattle.world_rows.specs.World.{assemblies_of};
ghost use Rattle.class_table.specs.declared.rows.FileRows.{FileRows};
ghost use Rattle.class_table.specs.declared.rows.ClassTable.{ClassTable};
ghost use Rattle.class_table.specs.Whole.{IsTable};
ghost use Rattle.msspot_write.specs.Parts.{rows_of};
ghost use Rattle.kept_marks.specs.Masks.{Masks, choice_with};
ghost use Rattle.converted.specs.Images.{parts_of, parts_cut};
ghost use Rattle.image_rows.specs.Kept.{assembly_rows, reference_rows, field_reference_rows, method_reference_rows, spec_rows};
ghost use Rattle.image_rows.specs.Fields.{field_rows, data_rows};
ghost use Rattle.image_rows.specs.Types.{type_rows, interface_rows};
ghost use Rattle.image_rows.specs.Header.{version_read, name_read, entry_read, entry_kept};

/// The tables of what a file refers to, among the parts of its kept rows, are made of the rows of the file.
pub fn references_are_of_the_file()
    ensures assemblies { (files : List FilePart) (f : ℕ) (x : FilePart) (p : Assembly) → slice_get files f ≡ Some x → slice_get (assemblies_of files) f ≡ Some p → (kept : Masks) (short long : ℕ → ℕ → ℕ) (ms : Methods) → rows_of (parts_cut (parts_of (choice_with kept short long) p ms)) 0 ≡ assembly_rows kept x.metadata }
    ensures types { (files : List FilePart) (f : ℕ) (x : FilePart) (p : Assembly) → slice_get files f ≡ Some x → slice_get (assemblies_of files) f ≡ Some p → (kept : Masks) (short long : ℕ → ℕ → ℕ) (ms : Methods) → rows_of (parts_cut (parts_of (choice_with kept short long) p ms)) 1 ≡ reference_rows kept x.metadata }
    ensures fields { (files : List FilePart) (f : ℕ) (x : FilePart) (p : Assembly) → slice_get files f ≡ Some x → slice_get (assemblies_of files) f ≡ Some p → (kept : Masks) (short long : ℕ → ℕ → ℕ) (ms : Methods) → rows_of (parts_cut (parts_of (choice_with kept short long) p ms)) 2 ≡ field_reference_rows kept x.metadata }
    ensures methods { (files : List FilePart) (f : ℕ) (x : FilePart) (p : Assembly) → slice_get files f ≡ Some x → slice_get (assemblies_of files) f ≡ Some p → (kept : Masks) (short long : ℕ → ℕ → ℕ) (ms : Methods) → rows_of (parts_cut (parts_of (choice_with kept short long) p ms)) 3 ≡ method_reference_rows kept x.metadata }
    ensures specs { (files : List FilePart) (f : ℕ) (x : FilePart) (p : Assembly) → slice_get files f ≡ Some x → slice_get (assemblies_of files) f ≡ Some p → (kept : Masks) (short long : ℕ → ℕ → ℕ) (ms : Methods) → rows_of (parts_cut (parts_of (choice_with kept short long) p ms)) 9 ≡ spec_rows kept x.metadata }
{}

/// The tables of fields and of their data, among the parts of a file's kept rows, are made of the rows of the table of classes and of the
/// signatures of the file.
pub fn fields_are_of_the_world()
    ensures fields { (files : List FilePart) (f : ℕ) (x : FilePart) (p : Assembly) → slice_get files f ≡ Some x → slice_get (assemblies_of files) f ≡ Some p → (kept : Masks) (short long : ℕ → ℕ → ℕ) (ms : Methods) (t : ClassTable) (rows : FileRows) → IsTable files t → slice_get t.files.items f ≡ Some rows → rows_of (parts_cut (parts_of (choice_with kept short long) p ms)) 6 ≡ field_rows kept x.metadata rows.fields.items }
    ensures bytes { (files : List FilePart) (f : ℕ) (x : FilePart) (p : Assembly) → slice_get files f ≡ Some x → slice_get (assemblies_of files) f ≡ Some p → (kept : Masks) (short long : ℕ → ℕ → ℕ) (ms : Methods) (t : ClassTable) (rows : FileRows) → IsTable files t → slice_get t.files.items f ≡ Some rows → rows_of (parts_cut (parts_of (choice_with kept short long) p ms)) 10 ≡ data_rows kept x.metadata rows.fields.items }
{}

/// The tables of types and of the interfaces that they name, among the parts of a file's kept rows, are made of the rows of the table of
/// classes and of the tokens of the file.
pub fn types_are_of_the_world()
    ensures types { (files : List FilePart) (f : ℕ) (x : FilePart) (p : Assembly) → slice_get files f ≡ Some x → slice_get (assemblies_of files) f ≡ Some p → (kept : Masks) (short long : ℕ → ℕ → ℕ) (ms : Methods) (t : ClassTable) (rows : FileRows) → IsTable files t → slice_get t.files.items f ≡ Some rows → rows_of (parts_cut (parts_of (choice_with kept short long) p ms)) 4 ≡ type_rows kept x.metadata rows.classes.items }
    ensures interfaces { (files : List FilePart) (f : ℕ) (x : FilePart) (p : Assembly) → slice_get files f ≡ Some x → slice_get (assemblies_of files) f ≡ Some p → (kept : Masks) (short long : ℕ → ℕ → ℕ) (ms : Methods) → rows_of (parts_cut (parts_of (choice_with kept short long) p ms)) 5 ≡ interface_rows kept x.metadata }
{}

/// The header of a file's kept rows is made of the row of its assembly and of its entry token.
pub fn header_is_of_the_file()
    ensures version { (files : List FilePart) (f : ℕ) (x : FilePart) (p : Assembly) → slice_get files f ≡ Some x → slice_get (assemblies_of files) f ≡ Some p → (kept : Masks) (short long : ℕ → ℕ → ℕ) (ms : Methods) → (parts_cut (parts_of (choice_with kept short long) p ms)).version ≡ version_read x.metadata }
    ensures name { (files : List FilePart) (f : ℕ) (x : FilePart) (p : Assembly) → slice_get files f ≡ Some x → slice_get (assemblies_of files) f ≡ Some p → (kept : Masks) (short long : ℕ → ℕ → ℕ) (ms : Methods) → (parts_cut (parts_of (choice_with kept short long) p ms)).name ≡ name_read x.metadata }
    ensures entry { (files : List FilePart) (f : ℕ) (x : FilePart) (p : Assembly) → slice_get files f ≡ Some x → slice_get (assemblies_of files) f ≡ Some p → (kept : Masks) (short long : ℕ → ℕ → ℕ) (ms : Methods) → (parts_cut (parts_of (choice_with kept short long) p ms)).entry ≡ entry_kept kept (entry_read f x) }
{}
