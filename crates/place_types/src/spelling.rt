//! One spelling for each type, and types that agree (ECMA-335 I.8.7).

ghost use Rattle.std.specs.Prelude.{◌≡◌, ◌↔◌, IsTrue};
ghost use Rattle.machine.specs.Data.{type_eq, bytes_of};
ghost use Rattle.machine.specs.Numbers.{same_width as has_same_width};
ghost use Rattle.machine_typed.specs.Typing.{agrees};
ghost use Rattle.place_types.specs.Types.{type_of, spelt as spelt_so, row_of_elem};
ghost use Rattle.place_types.specs.Held.{cell_by};

use crate::held::Held;
use crate::types::held;
use cil_opcodes::shape::IntegerType;
use ecma_types::id::TypeId;
use ecma_types::stack::PlaceType;
use plain_types::elem::Elem;

/// The row of no type.
const NO_TYPE: TypeId = TypeId { file: 0, row: 0 };

/// The row beside an element, where it tells something.
fn told_row(elem: Elem, of: TypeId) -> TypeId
    ensures { result ≡ row_of_elem elem of }
{
    match elem {
        Elem::Void | Elem::String | Elem::Object => NO_TYPE,
        Elem::Class | Elem::Value => of,
        _ if of.row == 0 => NO_TYPE,
        _ => of,
    }
}

/// The type without its pointer, and with a row only where that tells something.
pub fn spelt(of: &PlaceType) -> PlaceType
    ensures { result ≡ spelt_so of.now }
{
    PlaceType {
        pointer: false,
        of: told_row(of.elem, of.of),
        ..*of
    }
}

/// Whether the two are spelt alike.
fn is_equal(a: PlaceType, b: PlaceType) -> bool
    ensures { IsTrue result ↔ (a ≡ b) }
{
    a == b
}

/// Whether they are one type, pointers aside.
#[tactic(auto, using(crate::proofs::Spellings::same_spelling))]
pub fn is_same(a: &PlaceType, b: &PlaceType) -> bool
    ensures { result ≡ type_eq (type_of a.now) (type_of b.now) }
{
    is_equal(spelt(a), spelt(b))
}

/// The bytes of an integer.
fn width(integer: IntegerType) -> u8
    ensures { result ≡ bytes_of integer }
{
    match integer {
        IntegerType::I1 | IntegerType::U1 => 1,
        IntegerType::I2 | IntegerType::U2 => 2,
        IntegerType::I4 | IntegerType::U4 => 4,
        IntegerType::I8 | IntegerType::U8 => 8,
    }
}

/// Whether they are as wide.
pub fn same_width(a: Held, b: Held) -> bool
    ensures { result ≡ has_same_width (cell_by a) (cell_by b) }
{
    match (a, b) {
        (Held::Number(a), Held::Number(b)) => width(a) == width(b),
        (Held::Reference, Held::Reference) => true,
        _ => false,
    }
}

/// Whether places of the two hold the same: numbers of one width, or values of one type.
pub fn is_agreeing(a: &PlaceType, b: &PlaceType) -> bool
    ensures { result ≡ agrees (type_of a.now) (type_of b.now) }
{
    match (held(a), held(b)) {
        (Some(Held::Number(a)), Some(Held::Number(b))) => width(a) == width(b),
        (Some(Held::Reference), Some(Held::Reference)) | (None, None) => is_same(a, b),
        _ => false,
    }
}
