//! The rules of definitions are those by which references keep what they name.

ghost use Rattle.std.specs.Prelude.{◌≡◌, ℕ, List, Some, slice_get};
ghost use Rattle.file_tables.specs.File.{FilePart};
ghost use Rattle.machine.specs.Data.{Id};
ghost use Rattle.assemblies.specs.Rows.{Reference};
ghost use Rattle.assemblies.specs.Binding.{resolve_ref, resolve_field, resolve_method};
ghost use Rattle.kept_rules.specs.Rules.{Defined, FieldDefined, MethodDefined};
ghost use Rattle.world_rows.specs.World.{size_of, rows_alone, assemblies_of};
ghost use Rattle.row_rules.specs.Given.{HasLink, AreRules};
ghost use Rattle.definition_rules.specs.Definitions.{type_definitions, type_ref_count, field_definitions, field_ref_count, method_definitions, method_ref_count};

/// The rules of a file's references are those by which each keeps its definition.
pub fn rules_are_of_definitions()
    ensures has_types { (files : List FilePart) (f : ℕ) (x : FilePart) → slice_get files f ≡ Some x → (n : ℕ) (c : Id) (e : resolve_ref (size_of (rows_alone files)) (assemblies_of files) f n ≡ Some c) → HasLink (type_definitions files f (type_ref_count x.metadata)) (size_of (rows_alone files)) (assemblies_of files) (Defined f n c e) }
    ensures are_types { (files : List FilePart) (f count : ℕ) → AreRules (size_of (rows_alone files)) (assemblies_of files) (type_definitions files f count) }
    ensures has_fields { (files : List FilePart) (f : ℕ) (x : FilePart) → slice_get files f ≡ Some x → (n : ℕ) (c : Id) (e : resolve_field (size_of (rows_alone files)) (assemblies_of files) f (Reference n) ≡ Some c) → HasLink (field_definitions files f (field_ref_count x.metadata)) (size_of (rows_alone files)) (assemblies_of files) (FieldDefined f n c e) }
    ensures are_fields { (files : List FilePart) (f count : ℕ) → AreRules (size_of (rows_alone files)) (assemblies_of files) (field_definitions files f count) }
    ensures has_methods { (files : List FilePart) (f : ℕ) (x : FilePart) → slice_get files f ≡ Some x → (n : ℕ) (c : Id) (e : resolve_method (size_of (rows_alone files)) (assemblies_of files) f (Reference n) ≡ Some c) → HasLink (method_definitions files f (method_ref_count x.metadata)) (size_of (rows_alone files)) (assemblies_of files) (MethodDefined f n c e) }
    ensures are_methods { (files : List FilePart) (f count : ℕ) → AreRules (size_of (rows_alone files)) (assemblies_of files) (method_definitions files f count) }
{}
