//! References to fields and methods (ECMA-335 II.22.25).

ghost use Rattle.std.specs.Prelude.{◌≡◌, ◌<◌, length, slice_get};
ghost use Rattle.machine.specs.Throw.{on_some};
ghost use Rattle.image_bytes.specs.Layout.{rows_of};
ghost use Rattle.tiny_rows.specs.Rows.{rows_seen};
ghost use Rattle.tiny_members.specs.Rows.{field_ref_seen, method_ref_seen};

use crate::text::text;
use crate::types::TypeToken;
use msspot_read::Image;

/// The tables of references to fields and to methods.
const FIELD_REF: u8 = 2;

const METHOD_REF: u8 = 3;

/// A reference to a member: the type in which it is looked up, its name and its signature (II.23.2.4, II.23.2.1).
#[derive(Clone, Copy, Debug)]
pub struct MemberRef<'a> {
    pub parent: TypeToken,
    pub name: &'a str,
    pub signature: &'a [u8],
}

/// How many references to fields an image has.
pub fn field_ref_count(image: &Image<'_>) -> u16
    ensures { result ≡ length (rows_seen image.now).field_refs }
{
    image.has_rows();
    image.rows(FIELD_REF)
}

/// The reference to a field of a row.
fn read_field_ref<'a>(image: &Image<'a>, n: u16) -> MemberRef<'a>
    requires { n < rows_of image.now 2 }
    ensures { field_ref_seen image.now result ≡ slice_get (rows_seen image.now).field_refs n }
{
    image.has_rows();
    let row = image.row(FIELD_REF, n);
    MemberRef {
        parent: TypeToken(row.columns[0]),
        name: text(image, row.columns[1]),
        signature: image.sig(row.columns[2]),
    }
}

/// The reference to a field of a row, from 0; `None` where there is no such row.
#[tactic(auto, using(crate::proofs::RowLaws::field_ref_past))]
pub fn field_ref<'a>(image: &Image<'a>, n: u32) -> Option<MemberRef<'a>>
    ensures { on_some result (field_ref_seen image.now) ≡ slice_get (rows_seen image.now).field_refs n }
{
    image.has_rows();
    if n >= u32::from(image.rows(FIELD_REF)) {
        return None;
    }
    Some(read_field_ref(image, n as u16))
}

/// How many references to methods an image has.
pub fn method_ref_count(image: &Image<'_>) -> u16
    ensures { result ≡ length (rows_seen image.now).method_refs }
{
    image.has_rows();
    image.rows(METHOD_REF)
}

/// The reference to a method of a row.
fn read_method_ref<'a>(image: &Image<'a>, n: u16) -> MemberRef<'a>
    requires { n < rows_of image.now 3 }
    ensures { method_ref_seen image.now result ≡ slice_get (rows_seen image.now).method_refs n }
{
    image.has_rows();
    let row = image.row(METHOD_REF, n);
    MemberRef {
        parent: TypeToken(row.columns[0]),
        name: text(image, row.columns[1]),
        signature: image.sig(row.columns[2]),
    }
}

/// The reference to a method of a row, from 0; `None` where there is no such row.
#[tactic(auto, using(crate::proofs::RowLaws::method_ref_past))]
pub fn method_ref<'a>(image: &Image<'a>, n: u32) -> Option<MemberRef<'a>>
    ensures { on_some result (method_ref_seen image.now) ≡ slice_get (rows_seen image.now).method_refs n }
{
    image.has_rows();
    if n >= u32::from(image.rows(METHOD_REF)) {
        return None;
    }
    Some(read_method_ref(image, n as u16))
}
