//! Methods (ECMA-335 II.22.26).

ghost use Rattle.std.specs.Prelude.{◌≡◌, ◌<◌, length, slice_get};
ghost use Rattle.std.specs.Option.{option_map};
ghost use Rattle.machine.specs.Throw.{on_some};
ghost use Rattle.image_bytes.specs.Layout.{rows_of};
ghost use Rattle.tiny_rows.specs.Rows.{rows_seen};
ghost use Rattle.tiny_members.specs.Rows.{method_seen, without_code};

use crate::flags::{ABSTRACT_METHOD, NEWSLOT, STATIC, VIRTUAL, has_bit, read_body};
use crate::text::text;
use class_table::Body;
use msspot_read::Image;

/// The table of methods.
const METHOD: u8 = 7;

/// A method: its name, its signature (II.23.2.1), its flags and what runs where it is called.
#[derive(Clone, Copy, Debug)]
pub struct MethodDef<'a> {
    pub name: &'a str,
    pub signature: &'a [u8],
    pub is_static: bool,
    pub is_virtual: bool,
    pub is_newslot: bool,
    pub is_abstract: bool,
    pub body: Body,
}

/// How many methods an image has.
pub fn method_count(image: &Image<'_>) -> u16
    ensures { result ≡ length (rows_seen image.now).methods }
{
    image.has_rows();
    image.rows(METHOD)
}

/// The method of a row.
fn read_method<'a>(image: &Image<'a>, n: u16) -> MethodDef<'a>
    requires { n < rows_of image.now 7 }
    ensures { method_seen image.now result ≡ option_map without_code (slice_get (rows_seen image.now).methods n) }
{
    image.has_rows();
    let row = image.row(METHOD, n);
    let flags = row.columns[2];
    MethodDef {
        name: text(image, row.columns[0]),
        signature: image.sig(row.columns[1]),
        is_static: has_bit(flags, STATIC),
        is_virtual: has_bit(flags, VIRTUAL),
        is_newslot: has_bit(flags, NEWSLOT),
        is_abstract: has_bit(flags, ABSTRACT_METHOD),
        body: read_body(flags, row.columns[3]),
    }
}

/// The method of a row, from 0, but for its code; `None` where there is no such row.
#[tactic(auto, using(crate::proofs::RowLaws::method_past))]
pub fn method<'a>(image: &Image<'a>, n: u32) -> Option<MethodDef<'a>>
    ensures { on_some result (method_seen image.now) ≡ option_map without_code (slice_get (rows_seen image.now).methods n) }
{
    image.has_rows();
    if n >= u32::from(image.rows(METHOD)) {
        return None;
    }
    Some(read_method(image, n as u16))
}
