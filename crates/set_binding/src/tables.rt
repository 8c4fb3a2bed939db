//! The tables of references of an image, and what their rows name.

ghost use Rattle.std.specs.Prelude.{◌≡◌};
ghost use Rattle.std.specs.Option.{option_map};
ghost use Rattle.member_keys.specs.Seen.{class_seen};
ghost use Rattle.scope_walk.specs.Walk.{value_at};
ghost use Rattle.set_binding.specs.Tables.{number_of};
ghost use Rattle.set_binding.specs.Columns.{column_at};

use member_keys::ClassId;

/// A table of references of an image.
#[derive(Clone, Copy, Debug, PartialEq, Eq)]
pub enum ReferenceTable {
    /// To assemblies (ECMA-335 II.22.5).
    Assemblies,
    /// To types (II.22.38).
    Types,
    /// To fields (II.22.25).
    Fields,
    /// To methods (II.22.25).
    Methods,
}

/// What each row of an image's references names, table by table; an assembly as its row 0.
#[derive(Drop)]
pub struct FileBindings {
    pub assemblies: Vec<Option<ClassId>>,
    pub types: Vec<Option<ClassId>>,
    pub fields: Vec<Option<ClassId>>,
    pub methods: Vec<Option<ClassId>>,
}

impl FileBindings {
    /// What the rows of a table name.
    pub fn column(&self, table: ReferenceTable) -> &[Option<ClassId>]
        ensures { result.now ≡ column_at self.now (number_of table) }
    {
        match table {
            ReferenceTable::Assemblies => &self.assemblies,
            ReferenceTable::Types => &self.types,
            ReferenceTable::Fields => &self.fields,
            ReferenceTable::Methods => &self.methods,
        }
    }

    /// What a row of a table names; `None` where there is no such row.
    pub fn resolved(&self, table: ReferenceTable, row: u32) -> Option<ClassId>
        ensures { option_map class_seen result ≡ value_at (column_at self.now (number_of table)) row }
    {
        match self.column(table).get(row as usize) {
            Some(class) => *class,
            None => None,
        }
    }
}
