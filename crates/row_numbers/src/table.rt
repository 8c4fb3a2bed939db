//! The tables of which some rows are kept.

ghost use Rattle.std.specs.Prelude.{◌≡◌};
ghost use Rattle.row_numbers.specs.Tables.{of_table};

/// A table of which some rows are kept (ECMA-335 II.22). The rows of MemberRef are two tables: references to fields, and to
/// methods.
#[derive(Clone, Copy, Debug, PartialEq, Eq)]
pub enum Table {
    AssemblyRef,
    TypeRef,
    FieldRef,
    MethodRef,
    TypeDef,
    Field,
    MethodDef,
    TypeSpec,
}

/// A number for each table, as how many rows it has.
#[derive(Clone, Copy, Debug, PartialEq, Eq)]
pub struct PerTable {
    pub assembly_refs: u32,
    pub type_refs: u32,
    pub field_refs: u32,
    pub method_refs: u32,
    pub types: u32,
    pub fields: u32,
    pub methods: u32,
    pub specs: u32,
}

impl PerTable {
    /// The number of a table.
    pub fn of(&self, table: Table) -> u32
        ensures { result ≡ of_table self.now table }
    {
        match table {
            Table::AssemblyRef => self.assembly_refs,
            Table::TypeRef => self.type_refs,
            Table::FieldRef => self.field_refs,
            Table::MethodRef => self.method_refs,
            Table::TypeDef => self.types,
            Table::Field => self.fields,
            Table::MethodDef => self.methods,
            Table::TypeSpec => self.specs,
        }
    }
}

/// Which numbers the rows of a table have.
#[derive(Clone, Copy, Debug, PartialEq, Eq)]
pub struct TableRange {
    pub first: u32,
    pub count: u32,
}
