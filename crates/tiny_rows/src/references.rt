//! References to types (ECMA-335 II.22.38).

ghost use Rattle.std.specs.Prelude.{◌≡◌, ◌<◌, length, slice_get, IsSome, Some};
ghost use Rattle.std.specs.Option.{option_map};
ghost use Rattle.image_form.specs.Whole.{scope_in};
ghost use Rattle.image_bytes.specs.Layout.{rows_of};
ghost use Rattle.tiny_rows.specs.Rows.{rows_seen, scope_seen, type_ref_seen};

use crate::text::name;
use msspot_read::Image;

/// The table of references to types.
const TYPE_REF: u8 = 1;

/// From this number on a scope is the reference of the enclosing type.
const NESTED: u16 = 0x4000;

/// Where a type stands, by rows from 0.
#[derive(Clone, Copy)]
pub enum Scope {
    /// In the assembly of a reference.
    Assembly(u16),
    /// Inside the type of a reference.
    Outer(u16),
}

/// A reference to a type; its names are in UTF-8.
#[derive(Clone, Copy)]
pub struct TypeRef<'a> {
    pub scope: Scope,
    pub namespace: &'a [u8],
    pub name: &'a [u8],
}

/// The scope that a number says.
#[tactic(auto, using(crate::proofs::NameLaws::scope_below, crate::proofs::NameLaws::scope_above))]
fn read_scope(image: &Image<'_>, word: u16) -> Scope
    requires { IsSome (scope_in image.now word) }
    ensures { Some (scope_seen result) ≡ scope_in image.now word }
{
    if word < NESTED {
        Scope::Assembly(word)
    } else {
        Scope::Outer(word - NESTED)
    }
}

/// How many references to types an image has.
pub fn type_ref_count(image: &Image<'_>) -> u16
    ensures { result ≡ length (rows_seen image.now).refs }
{
    image.has_rows();
    image.rows(TYPE_REF)
}

/// The reference of a row.
fn read_type_ref<'a>(image: &Image<'a>, n: u16) -> TypeRef<'a>
    requires { n < rows_of image.now 1 }
    ensures { Some (type_ref_seen result) ≡ slice_get (rows_seen image.now).refs n }
{
    image.has_rows();
    let row = image.row(TYPE_REF, n);
    TypeRef {
        scope: read_scope(image, row.columns[0]),
        namespace: name(image, row.columns[1]),
        name: name(image, row.columns[2]),
    }
}

/// The reference of a row, from 0; `None` where there is no such row.
#[tactic(auto, using(crate::proofs::RowLaws::ref_past))]
pub fn type_ref<'a>(image: &Image<'a>, n: u32) -> Option<TypeRef<'a>>
    ensures { option_map type_ref_seen result ≡ slice_get (rows_seen image.now).refs n }
{
    image.has_rows();
    if n >= u32::from(image.rows(TYPE_REF)) {
        return None;
    }
    Some(read_type_ref(image, n as u16))
}
