//! Which classes are below which, and the bytes of fields.

ghost use Rattle.std.specs.Prelude.{◌≡◌, [], slice_get, unwrap_or};
ghost use Rattle.classes.specs.Queries.{data_of};
ghost use Rattle.class_table.specs.Seen.{field_kind_seen};
ghost use Rattle.tiny_rows.specs.Rows.{rows_seen};
ghost use Rattle.set_names.specs.Names.{seen_all};
ghost use Rattle.bound_answers.specs.Told.{sub, bytes, data_in};

use crate::set::BoundSet;
use board_ids::is_no_row;
use board_types::board::TypeAt;
use class_table::FieldKind;
use msspot_read::Image;
use tiny_members::{field, field_count};
use tiny_types::sub;

/// Whether a class is the other one or below it (ECMA-335 I.8.9.9). The row that stands for no type is none of both.
pub fn is_sub(set: &BoundSet<'_, '_, '_, '_>, a: TypeAt, b: TypeAt) -> bool
    ensures { result ≡ sub (seen_all set.now) a b }
{
    if is_no_row(b) {
        return false;
    }
    sub(set.types(), a, b)
}

/// The bytes that a field is kept in; empty where it has none of its own.
fn kept_bytes<'a>(kind: FieldKind<'a>) -> &'a [u8]
    ensures { result.now ≡ unwrap_or (data_of (field_kind_seen kind.entry)) [] }
{
    match kind {
        FieldKind::Data(Some(bytes)) => bytes,
        _ => &[],
    }
}

/// The bytes of the field of a row (II.22.18); empty where there is no such row.
fn field_bytes<'a>(image: &Image<'a>, row: u16) -> &'a [u8]
    ensures { result.now ≡ data_in (rows_seen image.now) row }
{
    if row >= field_count(image) {
        return &[];
    }
    match field(image, u32::from(row)) {
        Some(field) => kept_bytes(field.kind),
        None => &[],
    }
}

/// A byte by its number.
fn nth(bytes: &[u8], k: u32) -> Option<u8>
    ensures { result ≡ slice_get bytes.now k }
{
    bytes.get(k as usize).copied()
}

/// The k-th byte of a field; `None` exactly past the last one.
pub fn data_byte(set: &BoundSet<'_, '_, '_, '_>, field: TypeAt, k: u32) -> Option<u8>
    ensures { result ≡ slice_get (bytes (seen_all set.now) field) k }
{
    let image = set.image(field.assembly)?;
    nth(field_bytes(image, field.row), k)
}
