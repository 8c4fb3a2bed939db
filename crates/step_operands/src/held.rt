//! Values as places hold them.

ghost use Rattle.std.specs.Prelude.{◌≡◌, ℕ, List, []};
ghost use Rattle.machine.specs.Data.{CliType, Plain, Value as StackValue};
ghost use Rattle.machine.specs.Numbers.{kept};
ghost use Rattle.tiny_ram.specs.Memory.{RamFrame};
ghost use Rattle.memory_states.specs.Values.{IsValue};
ghost use Rattle.kept_values.specs.Keeping.{kind_seen, KeptAlike};
ghost use Rattle.step_operands.specs.Held.{kind_held, IsElem};

use board_types::value::Value;
use kept_values::{PlaceKind, keep};
use plain_types::elem::Elem;
use ram_words::elements::kind_of_elem;

/// What places of an element type hold.
fn place_kind(elem: Elem) -> PlaceKind
    ensures { kind_seen result ≡ kind_held elem }
{
    match (elem, kind_of_elem(elem)) {
        (Elem::Value, _) => PlaceKind::HoldsHandle,
        (_, Some(kind)) => PlaceKind::Holds(kind),
        (_, None) => PlaceKind::Nothing,
    }
}

/// A value as a place of the element type keeps it; none where it isn't of its kind. It is no pointer.
pub fn keep_elem(elem: Elem, value: Value) -> Option<Value>
    ensures { (room : ℕ) (fs : List RamFrame) (type : CliType) (v : StackValue) → IsElem elem type → IsValue room fs value v → KeptAlike room [] result (kept (Plain type) v) }
{
    keep(place_kind(elem), value)
}
