//! The natives of the base library, and its internal calls (ECMA-335 II.23.1.11).

ghost use Rattle.std.specs.Prelude.{◌≡◌, ◌-◌, ◌<◌, ◌≤◌, ◌==◌, length};
ghost use Rattle.std.specs.List.{list_all, list_any, range_with_len};
ghost use Rattle.file_tables.specs.Bytes as bytes;
ghost use Rattle.file_tables.specs.Metadata.{row_count};
ghost use Rattle.class_rules.specs.Rules.{only_if};
ghost use Rattle.world_rows.specs.Tokens.{methods};
ghost use Rattle.class_table.specs.Seen.{body_seen, native_seen};
ghost use Rattle.library_tests.specs.Methods.{is_number, is_native};
ghost use Rattle.library_tests.specs.Members.{natives_there, calls_there};

use cil_rows::{MethodDefRow, read_row};
use cil_tables::Tables;
use class_table::{Body, MethodRow};
use file_tables::bytes::has_bit;
use file_tables::numbers::METHOD_DEF;

/// How many natives there are; they are numbered from 1.
const NATIVES: u16 = 17;

/// The first native of the second file; those before it are in the first.
const FIRST_OF_SECOND: u16 = 17;

/// What runs is the native of a number.
#[tactic(auto, using(crate::proofs::NativeLaws::same_number))]
fn runs(body: Body, number: u16) -> bool
    requires first { 1 ≤ number }
    requires last { number ≤ 17 }
    ensures { result ≡ is_number number (body_seen body) }
{
    match body {
        Body::Native(n) => n == number,
        Body::Code | Body::Missing => false,
    }
}

/// A method is the native of a number.
fn has_native(rows: &[MethodRow<'_>], number: u16) -> bool
    requires first { 1 ≤ number }
    requires last { number ≤ 17 }
    ensures { result ≡ list_any (λ row. is_number number (body_seen row.body)) rows.now }
{
    for row in rows {
        if runs(row.body, number) {
            return true;
        }
    }
    false
}

/// Methods are all natives from a number to one before another.
fn has_range(rows: &[MethodRow<'_>], first: u16, end: u16) -> bool
    requires first { 1 ≤ first }
    requires end { end ≤ 18 }
    requires order { first ≤ end }
    ensures { result ≡ list_all (λ number. list_any (λ row. is_number number (body_seen row.body)) rows.now) (range_with_len first (end - first)) }
{
    for number in first..end {
        if !has_native(rows, number) {
            return false;
        }
    }
    true
}

/// The methods of a file of the base library are the natives that it has there.
#[tactic(auto, using(crate::proofs::NativeLaws::all_first, crate::proofs::NativeLaws::all_second))]
pub fn has_natives(rows: &[MethodRow<'_>], file: u16) -> bool
    requires { file < 2 }
    ensures { result ≡ natives_there rows.now file }
{
    if file == 0 {
        has_range(rows, 1, FIRST_OF_SECOND)
    } else {
        has_range(rows, FIRST_OF_SECOND, NATIVES + 1)
    }
}

/// There is a native of the number.
#[tactic(auto, using(crate::proofs::NativeLaws::no_native, crate::proofs::NativeLaws::some_native))]
fn is_numbered(n: u16) -> bool
    ensures { result ≡ is_native (native_seen n) }
{
    if n == 0 {
        return false;
    }
    n <= NATIVES
}

/// What runs is a native.
fn is_native(body: Body) -> bool
    ensures { result ≡ is_native (body_seen body) }
{
    match body {
        Body::Native(n) => is_numbered(n),
        Body::Code | Body::Missing => false,
    }
}

/// If the method is an internal call, it is a native.
fn calls_native(row: &MethodDefRow, body: Body) -> bool
    ensures { result ≡ only_if (bytes.has_bit row.now.impl_flags 12) (is_native (body_seen body)) }
{
    !has_bit(u64::from(row.impl_flags), 12) || is_native(body)
}

/// Each internal call among the methods of a file is a native.
pub fn has_calls(tables: &Tables<'_>, rows: &[MethodRow<'_>]) -> bool
    requires { length rows.now ≡ row_count tables.now methods }
    ensures { result ≡ calls_there tables.now rows.now }
{
    for n in 0..tables.rows(METHOD_DEF) {
        let row: MethodDefRow = read_row(tables, n + 1);
        if !calls_native(&row, rows[n as usize].body) {
            return false;
        }
    }
    true
}
