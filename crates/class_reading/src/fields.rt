//! The number of an enum: its one instance field (ECMA-335 II.14.3).

ghost use Rattle.std.specs.Prelude.{◌≡◌, not};
ghost use Rattle.file_tables.specs.Bytes.{has_bit};
ghost use Rattle.world_rows.specs.Kinds.{integer_of};
ghost use Rattle.world_rows.specs.Signatures.{field_signature};
ghost use Rattle.world_rows.specs.Tokens.{bytes_at};
ghost use Rattle.classes.specs.Queries.{is_integer};
ghost use Rattle.class_reading.specs.Fields.{number_at};

use cil_rows::{FieldRow, read_row};
use cil_sig::field_sig;
use cil_tables::Tables;
use file_tables::bytes::has_bit;
use file_tables::numbers::FIELD;
use plain_types::elem::Elem;

/// The bit of a field that is one of the type itself (II.23.1.5).
const STATIC: u32 = 4;

/// The element is an integer's.
fn is_integer(elem: Elem) -> bool
    ensures { result ≡ is_integer elem }
{
    matches!(
        elem,
        Elem::I1 | Elem::U1 | Elem::I2 | Elem::U2 | Elem::I4 | Elem::U4 | Elem::I8 | Elem::U8
    )
}

/// The bytes at an offset of `#Blob`, or none.
fn bytes<'a>(tables: &Tables<'a>, at: u32) -> &'a [u8]
    ensures { result.now ≡ bytes_at tables.now at }
{
    tables.blob(at).unwrap_or(&[])
}

/// The field is one of the instances (II.23.1.5).
fn is_instance(row: FieldRow) -> bool
    ensures { result ≡ not (has_bit row.flags 4) }
{
    !has_bit(u64::from(row.flags), STATIC)
}

/// The integer that a field's signature spells, at an offset of `#Blob`.
fn read_integer(tables: &Tables<'_>, at: u32) -> Option<Elem>
    ensures { result ≡ integer_of (field_signature tables.now (bytes_at tables.now at)) }
{
    let Ok(of) = field_sig(bytes(tables, at)) else {
        return None;
    };
    if of.ranks == 0 && is_integer(of.elem) {
        Some(of.elem)
    } else {
        None
    }
}

/// The element of the one instance field among some rows, if it is an integer.
pub fn read_number(tables: &Tables<'_>, first: u32, count: u32) -> Option<Elem>
    ensures { result ≡ number_at tables.now first count }
{
    let mut signature = None;
    let count = u64::from(first) + u64::from(count);
    let end = count.min(u64::from(tables.rows(FIELD))) as u32;
    for n in first..end {
        let row: FieldRow = read_row(tables, n + 1);
        if is_instance(row) {
            if signature.is_some() {
                return None;
            }
            signature = Some(row.signature);
        }
    }
    match signature {
        Some(at) => read_integer(tables, at),
        None => None,
    }
}
