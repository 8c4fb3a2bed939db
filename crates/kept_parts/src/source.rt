//! What the parts of a file's kept rows are made of.

ghost use Rattle.std.specs.Prelude.{◌≡◌, ◌<◌, Some, length, slice_get};

use cil_tables::Tables;
use class_table::{ClassTable, FileRows};
use kept_marks::FileChoice;
use pe_reader::Pe;

/// A file, with its rows in the table of classes and with which of them are kept.
#[derive(Drop)]
pub struct Source<'s, 'k, 'a> {
    pub choice: &'s FileChoice<'k>,
    pub pe: &'s Pe<'a>,
    pub tables: &'s Tables<'a>,
    pub rows: &'s FileRows<'a>,
}

/// The rows of a file in the table of classes.
pub fn file_rows<'t, 'a>(table: &'t ClassTable<'a>, file: u16) -> &'t FileRows<'a>
    requires { file < length table.now.files.items }
    ensures { slice_get table.now.files.items file ≡ Some result.now }
{
    &table.files[file as usize]
}
