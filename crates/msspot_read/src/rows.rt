//! Whether the rows of an image stand.

ghost use Rattle.std.specs.Prelude.{◌≡◌, ◌<◌, is_some};
ghost use Rattle.std.specs.List.{list_all};
ghost use Rattle.image_bytes.specs.Layout.{rows_of};
ghost use Rattle.image_form.specs.Whole.{table, image_rows, row_in};
ghost use Rattle.image_form.specs.Form.{none_or};
ghost use Rattle.msspot_read.specs.Rows.{row_of};
ghost use Rattle.msspot_read.specs.Held.{reads, tables_read};
ghost use Rattle.msspot_read.specs.Marked.{HasTexts};

use crate::body::body;
use crate::columns::columns;
use crate::known::{Known, NONE};
use crate::parts::{Parts, TABLES};

/// The table of methods.
const METHOD: u8 = 7;

/// The tables by their numbers.
const ORDER: [u8; TABLES] = [0, 1, 2, 3, 4, 5, 6, 7, 8, 9, 10];

/// A row of a table stands.
fn row_stands(known: &Known<'_, '_>, table: u8, n: u16) -> bool
    requires table { table < 11 }
    requires inside { n < rows_of known.now table }
    ensures { result ≡ reads known.now table (row_of known.now table n) }
{
    let row = known.parts().row(table, n);
    if !known.columns_stand(columns(table), &row) {
        return false;
    }
    if table == METHOD {
        return body(known, &row);
    }
    true
}

/// Each row of a table stands.
fn table_stands(known: &Known<'_, '_>, number: u8) -> bool
    requires { number < 11 }
    ensures { result ≡ list_all (reads known.now number) (table known.now number) }
{
    for n in 0..known.parts().rows(number) {
        if !row_stands(known, number, n) {
            return false;
        }
    }
    true
}

/// Each row of each table stands.
fn tables_stand(known: &Known<'_, '_>) -> bool
    ensures { result ≡ tables_read known.now }
{
    for number in ORDER {
        if !table_stands(known, number) {
            return false;
        }
    }
    true
}

/// The entry method is none, or a row of the table of methods.
fn has_entry(parts: &Parts<'_>) -> bool
    ensures { result ≡ is_some (none_or (row_in parts.now 7) parts.now.entry) }
{
    let entry = parts.entry();
    if entry == NONE {
        return true;
    }
    entry < parts.rows(METHOD)
}

/// Whether the rows of an image are read: each number, text and signature is in its table, pool and form, and clauses nest.
pub fn stand(parts: &Parts<'_>) -> bool
    ensures { result ≡ is_some (image_rows parts.now) }
{
    let Some(known) = Known::of(parts) else {
        return false;
    };
    if !known.is_name(parts.name()) {
        return false;
    }
    if !has_entry(parts) {
        return false;
    }
    tables_stand(&known)
}
