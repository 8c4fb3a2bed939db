//! Types of the world as those of the table, whose rows count from 0.

ghost use Rattle.std.specs.Prelude.{◌≡◌};
ghost use Rattle.std.specs.Option.{option_map};
ghost use Rattle.machine.specs.Data.{cell_of, type_eq};
ghost use Rattle.machine_typed.specs.Typing.{agrees, is_refers};
ghost use Rattle.member_keys.specs.Seen.{class_seen};
ghost use Rattle.place_types.specs.Held.{cell_by};
ghost use Rattle.place_types.specs.Types.{id_down, id_of, number_type, type_down};
ghost use Rattle.class_order.specs.Types.{base_seen};
ghost use Rattle.cil_types.specs.Rows.{base_in, type_in};

use class_order::{BaseType, is_same};
use ecma_types::id::TypeId;
use ecma_types::stack::PlaceType;
use member_keys::ClassId;
use place_types::held::Held;
use place_types::spelling::same_width;
use place_types::types::held;
use plain_types::elem::Elem;

/// How many files a [`TypeId`] can number.
const FILES: u32 = 65536;

/// The class of a row that counts from 1; of row 0 none that a world has.
#[tactic(auto, using(crate::proofs::RowLaws::row_there, crate::proofs::RowLaws::row_missing))]
pub fn class_of_row(of: TypeId) -> ClassId
    ensures { class_seen result ≡ id_down (id_of of) }
{
    if of.row == 0 {
        ClassId {
            file: u32::from(of.file) + FILES,
            row: 0,
        }
    } else {
        ClassId {
            file: u32::from(of.file),
            row: of.row - 1,
        }
    }
}

/// A number's type, an enum's where it has a row.
fn number_of(elem: Elem, of: TypeId) -> BaseType
    ensures { base_seen result ≡ type_down (number_type elem of) }
{
    if of.row == 0 {
        BaseType::Basic(elem)
    } else {
        BaseType::EnumOf(elem, class_of_row(of))
    }
}

/// The type inside the brackets.
pub fn base_of(of: &PlaceType) -> BaseType
    ensures { base_seen result ≡ base_in of.now }
{
    match of.elem {
        Elem::Void | Elem::String | Elem::Object => BaseType::Basic(of.elem),
        Elem::Class => BaseType::ClassOf(class_of_row(of.of)),
        Elem::Value => BaseType::ValueOf(class_of_row(of.of)),
        elem => number_of(elem, of.of),
    }
}

/// What lies in a place of the type.
#[tactic(auto, using(crate::proofs::RowLaws::cell_down))]
pub fn held_in(of: &PlaceType) -> Option<Held>
    ensures { option_map cell_by result ≡ cell_of (type_in of.now) }
{
    held(of)
}

/// The type inside the brackets, as a place of its own.
pub fn inside(of: &PlaceType) -> PlaceType
    ensures { type_in result ≡ base_in of.now }
{
    PlaceType { ranks: 0, ..*of }
}

/// Whether places of the type hold references.
fn holds_references(of: &PlaceType) -> bool
    ensures { result ≡ is_refers (cell_of (type_in of.now)) }
{
    matches!(held_in(of), Some(Held::Reference))
}

/// Whether places of the types inside the brackets hold references.
pub fn refers_inside(a: &PlaceType) -> bool
    ensures { result ≡ is_refers (cell_of (base_in a.now)) }
{
    holds_references(&inside(a))
}

/// Whether they are one type, pointers aside.
pub fn is_one(a: &PlaceType, b: &PlaceType) -> bool
    ensures { result ≡ type_eq (type_in a.now) (type_in b.now) }
{
    let a_base = base_of(a);
    let b_base = base_of(b);
    if a.ranks == b.ranks {
        is_same(a_base, b_base)
    } else {
        false
    }
}

/// Whether places of the two hold the same: numbers of one width, or values of one type (ECMA-335 I.8.7).
pub fn is_agreeing(a: &PlaceType, b: &PlaceType) -> bool
    ensures { result ≡ agrees (type_in a.now) (type_in b.now) }
{
    match (held_in(a), held_in(b)) {
        (Some(Held::Number(a)), Some(Held::Number(b))) => {
            same_width(Held::Number(a), Held::Number(b))
        }
        (Some(Held::Reference), Some(Held::Reference)) | (None, None) => is_one(a, b),
        _ => false,
    }
}
