//! The rows of a class's methods.

ghost use Rattle.std.specs.Prelude.{◌≡◌, IfOk, slice_get};
ghost use Rattle.std.specs.Option.{option_copied};
ghost use Rattle.member_keys.specs.Seen.{class_seen};
ghost use Rattle.class_slots.specs.Own.{AreClipped, AreIn, AreOwn};

use class_table::{ClassRow, ClassTable, FileRows};
use member_keys::ClassId;
use plain_types::fault::NoMemory;

/// Rows of methods, which count from 0: from one to before another.
#[derive(Clone, Copy, Debug)]
pub struct OwnRows {
    pub start: u32,
    pub end: u32,
}

/// Rows from one on, as far as there are so many. There is no room for 2^32 of them.
fn clip(count: usize, first: u32, wanted: u32) -> Result<OwnRows, NoMemory>
    ensures { IfOk result (AreClipped count first wanted) }
{
    if count > u32::MAX as usize {
        return Err(NoMemory);
    }
    let count = count as u32;
    let left = if first < count { count - first } else { 0 };
    Ok(OwnRows {
        start: first,
        end: first + wanted.min(left),
    })
}

/// The rows of a file.
fn find_file<'t, 'a>(table: &'t ClassTable<'a>, file: u32) -> Option<&'t FileRows<'a>>
    ensures { option_copied result ≡ slice_get table.now.files.items file }
{
    table.files.get(file as usize)
}

/// The row of a class of a file.
fn find_row<'t, 'a>(file: &'t FileRows<'a>, class: u32) -> Option<&'t ClassRow<'a>>
    ensures { option_copied result ≡ slice_get file.now.classes.items class }
{
    file.classes.get(class as usize)
}

/// The rows of the methods of a class of a file; none where the file has no such class.
fn rows_in(file: &FileRows<'_>, class: u32) -> Result<OwnRows, NoMemory>
    ensures { IfOk result (AreIn file.now class) }
{
    match find_row(file, class) {
        Some(row) => clip(file.methods.len(), row.first_method, row.method_count),
        None => Ok(OwnRows { start: 0, end: 0 }),
    }
}

/// The rows of the methods of a class (ECMA-335 II.22.37); none where the table has no such class.
pub fn own_rows(table: &ClassTable<'_>, class: ClassId) -> Result<OwnRows, NoMemory>
    ensures { IfOk result (AreOwn table.now (class_seen class)) }
{
    match find_file(table, class.file) {
        Some(file) => rows_in(file, class.row),
        None => Ok(OwnRows { start: 0, end: 0 }),
    }
}
