//! The entries of files (ECMA-335 II.25.3.3).

ghost use Rattle.std.specs.Prelude.{◌≡◌, true, List, [], ◌∷◌, slice_set};
ghost use Rattle.assemblies.specs.Rows.{Assembly};
ghost use Rattle.row_numbers.specs.Tables.{AreCounts};
ghost use Rattle.world_rows.specs.Rows.{entry_named};
ghost use Rattle.row_rules.specs.Links.{row_at};
ghost use Rattle.root_marks.specs.Roots.{marked, entry_of, entry_rows};

use cil_world::World;
use file_tables::numbers::METHOD_DEF;
use row_numbers::{RowNumbers, Table};
use row_rules::RowPlace;
use type_names::split_token;

/// The number of the first file behind the base library's.
pub const FIRST_USER_FILE: u16 = 2;

/// The row of methods, from 0, that an entry token names (ECMA-335 II.25.3.3); `None` for a token of another table, and for row 0.
pub fn entry_row(token: u32) -> Option<u32>
    ensures { result ≡ entry_named token }
{
    let named = split_token(token);
    if named.table == METHOD_DEF {
        named.row.checked_sub(1)
    } else {
        None
    }
}

/// Sets the mark of a number, if there is one.
#[tactic(auto, using(crate::proofs::MarkLaws::set_behind))]
fn set(marks: &mut [bool], number: usize)
    ensures { marks.new ≡ slice_set marks.old number true }
{
    if number < marks.len() {
        marks[number] = true;
    }
}

/// Marks the row of a place, if it is there.
pub fn mark(numbers: &RowNumbers, marks: &mut [bool], place: RowPlace)
    ensures { (ps : List Assembly) → AreCounts ps numbers.now → marks.new ≡ marked ps (row_at place ∷ []) marks.old }
{
    match numbers.number(place.file, place.table, place.row) {
        Some(number) => set(marks, number as usize),
        None => {}
    }
}

/// Marks the method that the entry token of a file names.
fn mark_entry(numbers: &RowNumbers, marks: &mut [bool], file: u16, token: u32)
    ensures { (ps : List Assembly) → AreCounts ps numbers.now → marks.new ≡ marked ps (entry_of file token) marks.old }
{
    match entry_row(token) {
        Some(row) => {
            let place = RowPlace {
                file,
                table: Table::MethodDef,
                row,
            };
            mark(numbers, marks, place)
        }
        None => {}
    }
}

/// Marks the methods that the entry tokens of the files behind the base library's name.
pub fn mark_entries(world: &World<'_>, numbers: &RowNumbers, marks: &mut [bool])
    ensures { (ps : List Assembly) → AreCounts ps numbers.now → marks.new ≡ marked ps (entry_rows world.now) marks.old }
{
    for file in FIRST_USER_FILE..world.files() {
        mark_entry(numbers, marks, file, world.pe(file).entry());
    }
}
