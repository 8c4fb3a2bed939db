//! Clauses by their methods and numbers.

ghost use Rattle.std.specs.Prelude.{◌≡◌, ◌+◌, ◌<◌, ◌≤◌, slice_get, slice_index};
ghost use Rattle.std.specs.Option.{option_map};
ghost use Rattle.image_bytes.specs.Layout.{rows_of};
ghost use Rattle.msspot_read.specs.Rows.{row_of};
ghost use Rattle.msspot_read.specs.Held.{clause_of, raw_kind};
ghost use Rattle.tiny_rows.specs.Rows.{rows_seen};
ghost use Rattle.tiny_clauses.specs.Clauses.{kind_seen, clause_seen, clauses_at, place_in};

use msspot_read::{Image, TinyRow};
use tiny_members::TypeToken;

/// The tables of methods and of clauses.
const METHOD: u8 = 7;

const CLAUSE: u8 = 8;

/// The bit of a method's flags that says that it is no CIL.
const NATIVE: u16 = 16;

/// The start of a method without code.
const NO_CODE: u16 = 0xFFFF;

/// What an exception clause is.
#[derive(Clone, Copy, Debug, PartialEq, Eq)]
pub enum ClauseKind {
    /// A catch of the class, or of those below it.
    Catch(TypeToken),
    Finally,
    /// Another one, which no method has.
    Other,
}

/// An exception clause. Places are offsets in the method's code; an end is past the last one.
#[derive(Clone, Copy, Debug, PartialEq, Eq)]
pub struct ClauseRow {
    pub kind: ClauseKind,
    pub try_start: u16,
    pub try_end: u16,
    /// Of the handler.
    pub start: u16,
    pub end: u16,
}

/// What a clause with these numbers is.
fn read_kind(kind: u16, class: u16) -> ClauseKind
    ensures { kind_seen result ≡ raw_kind kind class }
{
    if kind == 2 {
        ClauseKind::Finally
    } else if kind == 0 {
        ClauseKind::Catch(TypeToken(class))
    } else {
        ClauseKind::Other
    }
}

/// The clause of a row.
fn read_clause(image: &Image<'_>, n: u16) -> ClauseRow
    requires { n < rows_of image.now 8 }
    ensures { clause_seen result ≡ clause_of (row_of image.now 8 n) }
{
    let row = image.row(CLAUSE, n);
    ClauseRow {
        kind: read_kind(row.columns[0], row.columns[1]),
        try_start: row.columns[2],
        try_end: row.columns[3],
        start: row.columns[4],
        end: row.columns[5],
    }
}

/// The row of the k-th clause of a method; `None` past the last one, and where the method has no code.
fn place(row: &TinyRow, k: u16) -> Option<u16>
    requires { slice_index row.now.columns 7 + slice_index row.now.columns 8 ≤ 65535 }
    ensures { result ≡ place_in row.now.columns k }
{
    if row.columns[2] / NATIVE % 2 == 1 {
        return None;
    }
    if row.columns[3] == NO_CODE {
        return None;
    }
    if k < row.columns[8] {
        Some(row.columns[7] + k)
    } else {
        None
    }
}

/// The k-th clause of the method of a row that is there.
fn read_nth(image: &Image<'_>, method: u16, k: u16) -> Option<ClauseRow>
    requires { method < rows_of image.now 7 }
    ensures { option_map clause_seen result ≡ slice_get (clauses_at (rows_seen image.now) method) k }
{
    image.has_rows();
    let _most = image.rows(CLAUSE);
    let row = image.row(METHOD, method);
    match place(&row, k) {
        Some(n) => Some(read_clause(image, n)),
        None => None,
    }
}

/// The k-th exception clause of a method of an image; `None` exactly past the last one, where the method has no code, and
/// where there is no such method.
pub fn clause(image: &Image<'_>, method: u16, k: u16) -> Option<ClauseRow>
    ensures { option_map clause_seen result ≡ slice_get (clauses_at (rows_seen image.now) method) k }
{
    image.has_rows();
    if method < image.rows(METHOD) {
        read_nth(image, method, k)
    } else {
        None
    }
}
