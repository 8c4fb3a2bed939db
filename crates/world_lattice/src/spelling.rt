//! Types of the code as the order takes them and gives them back.

ghost use Rattle.std.specs.Prelude.{◌≡◌, Some};
ghost use Rattle.place_types.specs.Types.{stack_of};
ghost use Rattle.pass_steps.specs.Seen.{row_beside, rowed, rowed_place};
ghost use Rattle.world_lattice.specs.Order.{stack_spelt};

use ecma_types::id::TypeId;
use ecma_types::stack::{PlaceType, StackType};
use place_types::spelling::spelt;
use plain_types::elem::Elem;

/// The row of a file's first type.
const FIRST_ROW: u32 = 1;

/// The row beside an element; of a class that has none the first.
fn row_beside(elem: Elem, of: TypeId) -> TypeId
    ensures { result ≡ row_beside elem of }
{
    match elem {
        Elem::Class | Elem::Value if of.row == 0 => TypeId {
            file: of.file,
            row: FIRST_ROW,
        },
        _ => of,
    }
}

/// The type of a place with the row that its class is read as.
fn rowed_place(of: PlaceType) -> PlaceType
    ensures { result ≡ rowed_place of }
{
    PlaceType {
        of: row_beside(of.elem, of.of),
        ..of
    }
}

/// The type with the row that its class is read as: of row 0, which no class has, the first.
pub fn rowed(of: StackType) -> StackType
    ensures { result ≡ rowed of }
{
    match of {
        StackType::O(place) => StackType::O(rowed_place(place)),
        StackType::Pointer(place) => StackType::Pointer(rowed_place(place)),
        StackType::I | StackType::L | StackType::Null | StackType::H => of,
    }
}

/// The type as it is spelt.
#[tactic(auto, using(place_types::proofs::Spellings::back))]
pub fn spelling(of: StackType) -> StackType
    ensures { stack_spelt (stack_of of) ≡ Some result }
{
    match of {
        StackType::O(place) => StackType::O(spelt(&place)),
        StackType::Pointer(place) => StackType::Pointer(spelt(&place)),
        StackType::I | StackType::L | StackType::Null | StackType::H => of,
    }
}
