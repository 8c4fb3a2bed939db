//! The laws of names in a world.
ghost use Rattle.std.specs.Prelude.{◌≡◌, ℕ, ◌≤◌, true, List, Option, Some, None, Ok, slice_get};
ghost use Rattle.file_tables.specs.declared.schema.TheConstants.{LOOKED_AT};
ghost use Rattle.file_tables.specs.Metadata.{row_count, is_row};
ghost use Rattle.file_tables.specs.File.{FilePart, file_of};
ghost use Rattle.classes.specs.Queries.{library_class};
ghost use Rattle.classes.specs.Reading.{IsRead};
ghost use Rattle.assemblies.specs.Rows.{TypeToken};
ghost use Rattle.assemblies.specs.Binding.{resolve, expanded, expanded_signature};
ghost use Rattle.world_rows.specs.Signatures.{faulty_type, faulty_signature};
ghost use Rattle.world_rows.specs.World.{type_count, rows_alone, assemblies_of, ecma_sources};
ghost use Rattle.world_rows.specs.Kinds.{library_type};
ghost use Rattle.world_rows.specs.Read.{TypesStand};

/// A token names the same class among the assemblies of a world as among the rows of each file alone, by which kinds, natives and the
/// bytes of data fields are told.
pub fn names_stay()
    ensures { (files : List FilePart) (scopes file : ℕ) (token : TypeToken) → resolve scopes (assemblies_of files) file token ≡ resolve scopes (rows_alone files) file token }
{}

/// A signature that has no form equals none, itself neither: a type of it names nothing.
pub fn faulty_signatures_equal_none()
    ensures of_type { (files : List FilePart) (scopes file : ℕ) (x : FilePart) → slice_get files file ≡ Some x → expanded scopes (assemblies_of files) file (faulty_type x.metadata) ≡ None }
    ensures of_method { (files : List FilePart) (scopes file : ℕ) (x : FilePart) → slice_get files file ≡ Some x → expanded_signature scopes (assemblies_of files) file (faulty_signature x.metadata) ≡ None }
{}

/// The class that a name of the base library finds in a world is the one that the rows of each file alone tell, by which kinds are told.
pub fn library_types_are_found()
    ensures { (files : List FilePart) (name : List ℕ) → library_class (ecma_sources files).classes name ≡ library_type (rows_alone files) name }
{}

/// The classes of a world have what reading gives, where its rows of types keep rule 12: members belong to one class, and kinds are told
/// by names and superclasses.
pub fn world_is_read()
    ensures { (files : List FilePart) → TypesStand files → IsRead (type_count (rows_alone files)) (ecma_sources files).classes }
{}

/// The rows of a file that opens keep rule 12, in each table that the rule looks at; so those of the types of a world's files do.
pub fn opened_rows_stand()
    ensures rows { (bytes : List ℕ) (x : FilePart) (i table row : ℕ) → file_of bytes ≡ Ok x → slice_get LOOKED_AT i ≡ Some table → row ≤ row_count x.metadata table → is_row x.metadata table row ≡ true }
    ensures types { (files : List FilePart) → ((file : ℕ) (x : FilePart) → slice_get files file ≡ Some x → (bytes : List ℕ) × (file_of bytes ≡ Ok x)) → TypesStand files }
{}
