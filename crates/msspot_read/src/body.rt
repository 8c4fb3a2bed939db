//! A method's code, locals and clauses.

ghost use Rattle.std.specs.Prelude.{◌≡◌, ◌+◌, ◌<◌, ◌≤◌, ◌&&◌, nat_eq, nat_le, not, map, length, slice_index};
ghost use Rattle.std.specs.List.{list_all};
ghost use Rattle.image_bytes.specs.Layout.{rows_of};
ghost use Rattle.classes.specs.Clauses as lie;
ghost use Rattle.image_form.specs.Form as form;
ghost use Rattle.image_form.specs.Whole.{bytes_at};
ghost use Rattle.msspot_read.specs.Rows.{row_of};
ghost use Rattle.msspot_read.specs.Held.{clause_of, clauses, body_stands, code_asked};
ghost use Rattle.msspot_read.specs.Lying.{code_clause, row_lies};

use crate::clauses::{Region, Regions, is_proper, lies_well};
use crate::known::{Known, NONE, is_range};
use crate::parts::{CODE, TinyRow};

/// The table of clauses.
const CLAUSE: u8 = 8;

/// The regions of a clause.
fn regions(known: &Known<'_, '_>, n: u16) -> Regions
    requires { n < rows_of known.now 8 }
    ensures { code_clause result ≡ form.regions_of (clause_of (row_of known.now 8 n)) }
{
    let row = known.parts().row(CLAUSE, n);
    Regions {
        attempt: Region {
            from: row.columns[2],
            to: row.columns[3],
        },
        handler: Region {
            from: row.columns[4],
            to: row.columns[5],
        },
    }
}

/// The row of a clause is of a known kind, and lies in code of so many bytes.
fn is_row_in(row: &TinyRow, size: u16) -> bool
    ensures { result ≡ row_lies size row.now.columns }
{
    let kind = row.columns[0];
    (kind == 2 || kind == 0) && row.columns[3] <= size && row.columns[5] <= size
}

/// A clause is of a known kind, and lies in code of so many bytes.
fn lies_in(known: &Known<'_, '_>, n: u16, size: u16) -> bool
    requires { n < rows_of known.now 8 }
    ensures { result ≡ form.lies_in size (clause_of (row_of known.now 8 n)) }
{
    let row = known.parts().row(CLAUSE, n);
    is_row_in(&row, size)
}

/// A clause is no catch.
fn is_no_catch(known: &Known<'_, '_>, n: u16) -> bool
    requires { n < rows_of known.now 8 }
    ensures { result ≡ not (form.is_catch (clause_of (row_of known.now 8 n))) }
{
    let row = known.parts().row(CLAUSE, n);
    row.columns[0] != 0
}

/// Each clause of a range lies in code of so many bytes.
fn all_lie_in(known: &Known<'_, '_>, first: u16, count: u16, size: u16) -> bool
    requires inside { first + count ≤ rows_of known.now 8 }
    requires small { first + count ≤ 65535 }
    ensures { result ≡ list_all (form.lies_in size) (form.part first count (clauses known.now)) }
{
    for k in 0..count {
        if !lies_in(known, first + k, size) {
            return false;
        }
    }
    true
}

/// No clause of a range is a catch.
fn no_catch(known: &Known<'_, '_>, first: u16, count: u16) -> bool
    requires inside { first + count ≤ rows_of known.now 8 }
    requires small { first + count ≤ 65535 }
    ensures { result ≡ list_all (λ c. not (form.is_catch c)) (form.part first count (clauses known.now)) }
{
    for k in 0..count {
        if !is_no_catch(known, first + k) {
            return false;
        }
    }
    true
}

/// A clause lies well against each of a range behind it.
fn well_before(known: &Known<'_, '_>, clause: Regions, first: u16, count: u16) -> bool
    requires inside { first + count ≤ rows_of known.now 8 }
    requires small { first + count ≤ 65535 }
    ensures { result ≡ list_all (lie.lies_well (code_clause clause)) (map form.regions_of (form.part first count (clauses known.now))) }
{
    for k in 0..count {
        if !lies_well(clause, regions(known, first + k)) {
            return false;
        }
    }
    true
}

/// The clauses of a range lie well.
fn all_lie_well(known: &Known<'_, '_>, first: u16, count: u16) -> bool
    requires inside { first + count ≤ rows_of known.now 8 }
    requires small { first + count ≤ 65535 }
    ensures { result ≡ lie.lie_well (map form.regions_of (form.part first count (clauses known.now))) }
{
    for k in 0..count {
        let clause = regions(known, first + k);
        if !is_proper(clause) {
            return false;
        }
        if !well_before(known, clause, first + k + 1, count - k - 1) {
            return false;
        }
    }
    true
}

/// The clauses of a range nest in code of so many bytes.
fn clauses_nest(known: &Known<'_, '_>, size: u16, first: u16, count: u16) -> bool
    requires inside { first + count ≤ rows_of known.now 8 }
    requires small { first + count ≤ 65535 }
    ensures { result ≡ form.clauses_nest size (form.part first count (clauses known.now)) }
{
    let inside = all_lie_in(known, first, count, size);
    let well = all_lie_well(known, first, count);
    inside && well
}

/// A method without code has no bytes of code and no clauses.
fn no_code(known: &Known<'_, '_>, size: u16, first: u16, count: u16) -> bool
    requires inside { first + count ≤ rows_of known.now 8 }
    requires small { first + count ≤ 65535 }
    ensures { result ≡ (nat_eq size 0 && form.clauses_nest 0 (form.part first count (clauses known.now))) }
{
    let nest = clauses_nest(known, 0, first, count);
    size == 0 && nest
}

/// A method with a catch has room on its stack for the exception.
fn has_room(known: &Known<'_, '_>, max_stack: u16, first: u16, count: u16) -> bool
    requires inside { first + count ≤ rows_of known.now 8 }
    requires small { first + count ≤ 65535 }
    ensures { result ≡ form.has_room max_stack (form.part first count (clauses known.now)) }
{
    if max_stack != 0 {
        return true;
    }
    no_catch(known, first, count)
}

/// A method's code is in its pool, its clauses nest in it, and there is room for an exception.
fn code_stands(
    known: &Known<'_, '_>,
    start: u16,
    size: u16,
    max_stack: u16,
    first: u16,
    count: u16,
) -> bool
    requires inside { first + count ≤ rows_of known.now 8 }
    requires small { first + count ≤ 65535 }
    ensures { result ≡ (nat_le (start + size) (length (bytes_at known.now 2)) && form.clauses_nest size (form.part first count (clauses known.now)) && form.has_room max_stack (form.part first count (clauses known.now))) }
{
    let pool = known.parts().pool(CODE);
    let nest = clauses_nest(known, size, first, count);
    let room = has_room(known, max_stack, first, count);
    usize::from(start) + usize::from(size) <= pool.len() && nest && room
}

/// The code of a method's row and its clauses stand.
fn code(known: &Known<'_, '_>, row: &TinyRow) -> bool
    requires inside { slice_index row.now.columns 7 + slice_index row.now.columns 8 ≤ rows_of known.now 8 }
    requires small { slice_index row.now.columns 7 + slice_index row.now.columns 8 ≤ 65535 }
    ensures { result ≡ code_asked known.now (slice_index row.now.columns 2) (slice_index row.now.columns 3) (slice_index row.now.columns 4) (slice_index row.now.columns 6) (slice_index row.now.columns 7) (slice_index row.now.columns 8) }
{
    let size = row.columns[4];
    let first = row.columns[7];
    let count = row.columns[8];
    let is_native = row.columns[2] / 16 % 2 == 1;
    if is_native {
        return no_code(known, size, first, count);
    }
    let start = row.columns[3];
    if start == NONE {
        return no_code(known, size, first, count);
    }
    code_stands(known, start, size, row.columns[6], first, count)
}

/// The code, locals and clauses of a method's row stand.
pub fn body(known: &Known<'_, '_>, row: &TinyRow) -> bool
    ensures { result ≡ body_stands known.now row.now.columns }
{
    if !known.are_locals(row.columns[5]) {
        return false;
    }
    let rows = known.parts().rows(CLAUSE);
    if !is_range(rows, row.columns[7], row.columns[8]) {
        return false;
    }
    code(known, row)
}
