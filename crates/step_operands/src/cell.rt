//! Values as loads and stores by a kind of cell see them.

ghost use Rattle.std.specs.Prelude.{◌≡◌, ℕ, List, []};
ghost use Rattle.machine.specs.Data.{Value as StackValue};
ghost use Rattle.machine.specs.Numbers.{kept_in};
ghost use Rattle.ram_words.specs.Elements.{elem_held, type_held, cell_in};
ghost use Rattle.tiny_ram.specs.Memory.{RamFrame};
ghost use Rattle.memory_states.specs.Values.{IsValue};
ghost use Rattle.kept_values.specs.Keeping.{KeptAlike};

use board_types::board::BoardType;
use board_types::value::Value;
use kept_values::{PlaceKind, keep};
use plain_types::elem::Elem;
use ram_words::elements::ElementKind;

/// A value as a cell of the kind keeps it, or as a load by it sees it; none where it isn't of its kind. It is no pointer.
pub fn keep_in(kind: ElementKind, value: Value) -> Option<Value>
    ensures { (room : ℕ) (fs : List RamFrame) (v : StackValue) → IsValue room fs value v → KeptAlike room [] result (kept_in (cell_in kind) v) }
{
    keep(PlaceKind::Holds(kind), value)
}

/// The element by which places of the type are seen: an array's is that of Object.
pub fn elem_of(of: BoardType) -> Elem
    ensures { elem_held result ≡ type_held of }
{
    if of.ranks == 0 { of.elem } else { Elem::Object }
}
