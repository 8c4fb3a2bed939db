//! The names of types (ECMA-335 II.22.37, II.22.32).

ghost use Rattle.std.specs.Prelude.{◌≡◌, ◌<◌, length, slice_get, Some};
ghost use Rattle.std.specs.Option.{option_map};
ghost use Rattle.image_bytes.specs.Layout.{rows_of};
ghost use Rattle.tiny_rows.specs.Rows.{rows_seen, row_word, type_name_seen, name_of};

use crate::text::name;
use msspot_read::Image;

/// The table of types.
const TYPE_DEF: u8 = 4;

/// The number that stands for no row.
const NO_ROW: u16 = 0xFFFF;

/// A type's name: the row of the type that it is nested in, its namespace and its name, both in UTF-8.
#[derive(Clone, Copy, PartialEq, Eq, PartialOrd, Ord)]
pub struct TypeName<'a> {
    pub enclosing: Option<u32>,
    pub namespace: &'a [u8],
    pub name: &'a [u8],
}

/// A row, or none.
fn row_or_none(word: u16) -> Option<u32>
    ensures { result ≡ row_word word }
{
    if word == NO_ROW {
        None
    } else {
        Some(u32::from(word))
    }
}

/// How many types an image has.
pub fn type_count(image: &Image<'_>) -> u16
    ensures { result ≡ length (rows_seen image.now).types }
{
    image.has_rows();
    image.rows(TYPE_DEF)
}

/// The name of the type of a row.
fn read_type_name<'a>(image: &Image<'a>, n: u16) -> TypeName<'a>
    requires { n < rows_of image.now 4 }
    ensures { Some (type_name_seen result) ≡ option_map name_of (slice_get (rows_seen image.now).types n) }
{
    image.has_rows();
    let row = image.row(TYPE_DEF, n);
    TypeName {
        enclosing: row_or_none(row.columns[2]),
        namespace: name(image, row.columns[0]),
        name: name(image, row.columns[1]),
    }
}

/// The name of the type of a row, from 0; `None` where there is no such row.
#[tactic(auto, using(crate::proofs::RowLaws::type_past))]
pub fn type_name<'a>(image: &Image<'a>, n: u32) -> Option<TypeName<'a>>
    ensures { option_map type_name_seen result ≡ option_map name_of (slice_get (rows_seen image.now).types n) }
{
    image.has_rows();
    if n >= u32::from(image.rows(TYPE_DEF)) {
        return None;
    }
    Some(read_type_name(image, n as u16))
}
