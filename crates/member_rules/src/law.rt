//! The links of a file's types and members are those of the rules of rows.

ghost use Rattle.std.specs.Prelude.{◌≡◌, ◌++◌, ℕ, List, Some, map, slice_get};
ghost use Rattle.file_tables.specs.Metadata.{rows_of};
ghost use Rattle.file_tables.specs.File.{FilePart};
ghost use Rattle.world_rows.specs.Tokens.{type_defs, interface_impls};
ghost use Rattle.world_rows.specs.World.{assemblies_of, rows_alone, size_of};
ghost use Rattle.class_table.specs.declared.rows.FileRows.{FileRows};
ghost use Rattle.class_table.specs.declared.rows.ClassTable.{ClassTable};
ghost use Rattle.class_table.specs.Seen.{classes_seen};
ghost use Rattle.class_table.specs.Whole.{IsTable};
ghost use Rattle.kept_rules.specs.Row.{TypeAt};
ghost use Rattle.row_rules.specs.Links.{links_from};
ghost use Rattle.row_rules.specs.Named.{named_by_extends, interface_link};
ghost use Rattle.member_rules.specs.Members.{enclosing_links, member_links};
ghost use Rattle.member_rules.specs.Rules.{AreMemberRules, AreTypeNames};

/// The links of the members of a file of a world are those of the rules by which members and types keep one another, where the table
/// is the world's.
pub fn links_are_of_members()
    ensures { (files : List FilePart) (t : ClassTable) (f : ℕ) (x : FileRows) → IsTable files t → slice_get t.files.items f ≡ Some x → AreMemberRules (size_of (rows_alone files)) (assemblies_of files) f (member_links (classes_seen t) f x) }
{}

/// The links of enclosing types, superclasses and interfaces of a file of a world are those by which types keep each row that they
/// name, where the table is the world's. A row of InterfaceImpl whose class is no row gives a link of a row that isn't there.
pub fn links_are_of_types()
    ensures { (files : List FilePart) (t : ClassTable) (f : ℕ) (x : FileRows) (y : FilePart) → IsTable files t → slice_get t.files.items f ≡ Some x → slice_get files f ≡ Some y → AreTypeNames (assemblies_of files) f (enclosing_links f x ++ (links_from (TypeAt f) (named_by_extends f y.metadata) 0 (rows_of y.metadata type_defs) ++ map (interface_link f y.metadata) (rows_of y.metadata interface_impls))) }
{}
