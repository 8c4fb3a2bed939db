//! The rules of a file's tables are those of the rows that its assembly's rows name.
ghost use Rattle.std.specs.Prelude.{◌≡◌, ℕ, List, Some, slice_get};
ghost use Rattle.std.specs.List.{filter};
ghost use Rattle.file_tables.specs.Metadata.{rows_of};
ghost use Rattle.file_tables.specs.File.{FilePart};
ghost use Rattle.kept_rules.specs.Row.{TypeRefAt, FieldRefAt, MethodRefAt, FieldAt, SpecAt};
ghost use Rattle.world_rows.specs.Tokens.{type_refs, member_refs, fields, type_specs, is_field_ref, is_method_ref};
ghost use Rattle.world_rows.specs.World.{assemblies_of};
ghost use Rattle.row_rules.specs.Links.{links_from};
ghost use Rattle.row_rules.specs.Named.{named_by_ref, named_by_field_ref, named_by_method_ref, named_by_field, named_by_spec};
ghost use Rattle.row_rules.specs.Rules.{AreNames};

/// The rules of a file's references, fields and specifications are those by which they keep each row that they name.
pub fn rules_are_of_names()
    ensures refs { (files : List FilePart) (f : ℕ) (x : FilePart) → slice_get files f ≡ Some x → AreNames (assemblies_of files) (TypeRefAt f) (links_from (TypeRefAt f) (named_by_ref f x.metadata) 0 (rows_of x.metadata type_refs)) }
    ensures field_refs { (files : List FilePart) (f : ℕ) (x : FilePart) → slice_get files f ≡ Some x → AreNames (assemblies_of files) (FieldRefAt f) (links_from (FieldRefAt f) (named_by_field_ref f x.metadata) 0 (filter (is_field_ref x.metadata) (rows_of x.metadata member_refs))) }
    ensures method_refs { (files : List FilePart) (f : ℕ) (x : FilePart) → slice_get files f ≡ Some x → AreNames (assemblies_of files) (MethodRefAt f) (links_from (MethodRefAt f) (named_by_method_ref f x.metadata) 0 (filter (is_method_ref x.metadata) (rows_of x.metadata member_refs))) }
    ensures field_types { (files : List FilePart) (f : ℕ) (x : FilePart) → slice_get files f ≡ Some x → AreNames (assemblies_of files) (FieldAt f) (links_from (FieldAt f) (named_by_field f x.metadata) 0 (rows_of x.metadata fields)) }
    ensures specs { (files : List FilePart) (f : ℕ) (x : FilePart) → slice_get files f ≡ Some x → AreNames (assemblies_of files) (SpecAt f) (links_from (SpecAt f) (named_by_spec f x.metadata) 0 (rows_of x.metadata type_specs)) }
{}
