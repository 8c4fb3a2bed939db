//! Fields (ECMA-335 II.22.15).

ghost use Rattle.std.specs.Prelude.{◌≡◌, ◌<◌, IsSome, Some, length, slice_get};
ghost use Rattle.machine.specs.Throw.{on_some};
ghost use Rattle.image_bytes.specs.Layout.{rows_of};
ghost use Rattle.class_table.specs.Seen.{field_kind_seen};
ghost use Rattle.tiny_rows.specs.Rows.{rows_seen};
ghost use Rattle.tiny_members.specs.Rows.{field_kind_in, field_seen};

use crate::flags::{STATIC, has_bit};
use crate::text::text;
use class_table::FieldKind;
use msspot_read::Image;

/// The table of fields.
const FIELD: u8 = 6;

/// The number that stands for no row.
const NO_ROW: u16 = 0xFFFF;

/// A field: its name, its signature (II.23.2.4) and where it is kept, with its bytes if it is one with data.
#[derive(Clone, Copy, Debug)]
pub struct FieldDef<'a> {
    pub name: &'a str,
    pub signature: &'a [u8],
    pub kind: FieldKind<'a>,
}

/// Where a field with these flags and this row of data is kept.
fn read_kind<'a>(image: &Image<'a>, flags: u16, place: u16) -> FieldKind<'a>
    requires { IsSome (field_kind_in image.now flags place) }
    ensures { Some (field_kind_seen result) ≡ field_kind_in image.now flags place }
{
    if place != NO_ROW {
        FieldKind::Data(Some(image.bytes_of(place)))
    } else if has_bit(flags, STATIC) {
        FieldKind::Static
    } else {
        FieldKind::Instance
    }
}

/// How many fields an image has.
pub fn field_count(image: &Image<'_>) -> u16
    ensures { result ≡ length (rows_seen image.now).fields }
{
    image.has_rows();
    image.rows(FIELD)
}

/// The field of a row.
fn read_field<'a>(image: &Image<'a>, n: u16) -> FieldDef<'a>
    requires { n < rows_of image.now 6 }
    ensures { field_seen image.now result ≡ slice_get (rows_seen image.now).fields n }
{
    image.has_rows();
    let row = image.row(FIELD, n);
    FieldDef {
        name: text(image, row.columns[0]),
        signature: image.sig(row.columns[1]),
        kind: read_kind(image, row.columns[2], row.columns[3]),
    }
}

/// The field of a row, from 0; `None` where there is no such row.
#[tactic(auto, using(crate::proofs::RowLaws::field_past))]
pub fn field<'a>(image: &Image<'a>, n: u32) -> Option<FieldDef<'a>>
    ensures { on_some result (field_seen image.now) ≡ slice_get (rows_seen image.now).fields n }
{
    image.has_rows();
    if n >= u32::from(image.rows(FIELD)) {
        return None;
    }
    Some(read_field(image, n as u16))
}
