//! The parts of one assembly, of which the bytes of its image are made.

ghost use Rattle.std.specs.Prelude.{◌≡◌};
ghost use Rattle.msspot_write.specs.Parts.{rows_of};

use plain_types::list::Items;

/// The numbers of the image's tables.
pub const TABLES: [usize; 11] = [0, 1, 2, 3, 4, 5, 6, 7, 8, 9, 10];

/// What stands in a column of a row, or in two.
#[derive(Drop)]
pub enum Column {
    /// A number of two bytes.
    Number(u16),
    /// A name in UTF-8. Its offset in the pool of strings is written.
    Name(Items<u8>),
    /// A signature. Its offset in the pool of signatures is written.
    Signature(Items<u8>),
    /// Bytes of the pool of data. Two numbers are written, where they start in it and how many they are.
    Data(Items<u8>),
    /// Where the code of the row's number starts, and as the fifth column how many bytes it has.
    Code,
}

/// A row of a table, with its columns in order.
#[derive(Drop)]
pub struct PartRow {
    pub columns: Items<Column>,
}

/// A literal that code loads (ECMA-335 III.4.16).
#[derive(Drop)]
pub struct PartLiteral {
    /// The row of the method, counted from 0.
    pub method: u32,
    /// Where the instruction stands in its code.
    pub offset: u32,
    /// The units in UTF-16, each as two bytes with the lowest first.
    pub text: Items<u8>,
}

/// The parts of one assembly.
#[derive(Drop)]
pub struct Parts {
    pub version: [u16; 4],
    pub name: Items<u8>,
    /// The row of the method that a run begins with, or 0xFFFF.
    pub entry: u16,
    /// The rows of the tables 0 to 10. A table that is missing has none, and lists behind the eleventh are left out.
    pub tables: Items<Items<PartRow>>,
    /// The literals by method and offset, which is the order of their entries.
    pub literals: Items<PartLiteral>,
}

impl Parts {
    /// The rows of a table.
    pub fn rows(&self, table: usize) -> &[PartRow]
        ensures { result.now ≡ rows_of self.now table }
    {
        match self.tables.as_slice().get(table) {
            Some(rows) => rows.as_slice(),
            None => &[],
        }
    }
}
