//! Types (ECMA-335 II.22.37, II.22.32, II.22.23).

ghost use Rattle.std.specs.Prelude.{◌≡◌, ◌<◌, slice_get, Some};
ghost use Rattle.std.specs.Option.{option_map};
ghost use Rattle.image_bytes.specs.Layout.{rows_of};
ghost use Rattle.tiny_rows.specs.Rows.{rows_seen, row_word};
ghost use Rattle.tiny_members.specs.Rows.{token_seen, token_word, interfaces_seen, type_seen};

use crate::flags::{ABSTRACT, INTERFACE, LAZY, has_bit, read_kind};
use crate::text::text;
use class_table::TypeKind;
use msspot_read::Image;

/// The tables of types and of interfaces.
const TYPE_DEF: u8 = 4;

const INTERFACE_IMPL: u8 = 5;

/// The number that stands for no row and no token.
const NONE: u16 = 0xFFFF;

/// A type as two bytes name it: a row of the types, from 0x4000 one of the references to types, from 0x8000 one of the
/// type specifications. Rows count from 0.
#[derive(Clone, Copy, Debug, PartialEq, Eq)]
pub struct TypeToken(pub u16);

/// Rows of a table: the first, from 0, and how many.
#[derive(Clone, Copy, Debug, PartialEq, Eq)]
pub struct RowRange {
    pub first: u16,
    pub count: u16,
}

/// A type.
#[derive(Clone, Copy, Debug)]
pub struct TypeDef<'a> {
    pub namespace: &'a str,
    pub name: &'a str,
    /// The type of the same image that it is nested in.
    pub enclosing: Option<u32>,
    pub extends: Option<TypeToken>,
    pub kind: TypeKind,
    pub is_interface: bool,
    pub is_abstract: bool,
    /// beforefieldinit
    pub is_lazy: bool,
    /// Those that it names, in the rows that [`interface`] reads.
    pub interfaces: RowRange,
    pub fields: RowRange,
    pub methods: RowRange,
}

/// A row, or none.
fn row_or_none(word: u16) -> Option<u32>
    ensures { result ≡ row_word word }
{
    if word == NONE {
        None
    } else {
        Some(u32::from(word))
    }
}

/// A token, or none.
fn token_or_none(word: u16) -> Option<TypeToken>
    ensures { option_map token_seen result ≡ token_word word }
{
    if word == NONE {
        None
    } else {
        Some(TypeToken(word))
    }
}

/// The type of a row.
fn read_type<'a>(image: &Image<'a>, n: u16) -> TypeDef<'a>
    requires { n < rows_of image.now 4 }
    ensures { Some (type_seen image.now result) ≡ slice_get (rows_seen image.now).types n }
{
    image.has_rows();
    let row = image.row(TYPE_DEF, n);
    let flags = row.columns[4];
    TypeDef {
        namespace: text(image, row.columns[0]),
        name: text(image, row.columns[1]),
        enclosing: row_or_none(row.columns[2]),
        extends: token_or_none(row.columns[3]),
        kind: read_kind(flags),
        is_interface: has_bit(flags, INTERFACE),
        is_abstract: has_bit(flags, ABSTRACT),
        is_lazy: has_bit(flags, LAZY),
        interfaces: RowRange {
            first: row.columns[5],
            count: row.columns[6],
        },
        fields: RowRange {
            first: row.columns[7],
            count: row.columns[8],
        },
        methods: RowRange {
            first: row.columns[9],
            count: row.columns[10],
        },
    }
}

/// The type of a row, from 0; `None` where there is no such row.
#[tactic(auto, using(crate::proofs::RowLaws::type_past))]
pub fn type_def<'a>(image: &Image<'a>, n: u32) -> Option<TypeDef<'a>>
    ensures { option_map (type_seen image.now) result ≡ slice_get (rows_seen image.now).types n }
{
    image.has_rows();
    if n >= u32::from(image.rows(TYPE_DEF)) {
        return None;
    }
    Some(read_type(image, n as u16))
}

/// The interface that a row names.
fn read_interface(image: &Image<'_>, n: u16) -> TypeToken
    requires { n < rows_of image.now 5 }
    ensures { Some (token_seen result) ≡ slice_get (interfaces_seen image.now) n }
{
    let row = image.row(INTERFACE_IMPL, n);
    TypeToken(row.columns[0])
}

/// The interface that a row names, from 0; `None` where there is no such row.
#[tactic(auto, using(crate::proofs::RowLaws::interface_past))]
pub fn interface(image: &Image<'_>, n: u32) -> Option<TypeToken>
    ensures { option_map token_seen result ≡ slice_get (interfaces_seen image.now) n }
{
    if n >= u32::from(image.rows(INTERFACE_IMPL)) {
        return None;
    }
    Some(read_interface(image, n as u16))
}
