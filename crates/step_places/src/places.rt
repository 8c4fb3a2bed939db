//! Places of the innermost frame, by their kind and by where they are.

ghost use Rattle.std.specs.Prelude.{◌≡◌, ◌+◌, ◌<◌, ◌∷◌, ℕ, List, Some, slice_index, slice_set};
ghost use Rattle.machine.specs.Data.{PlaceType};
ghost use Rattle.machine.specs.Numbers.{kind_of, zero_place};
ghost use Rattle.ram_words.specs.Elements.{elem_held, cell_in, zero_by};
ghost use Rattle.tiny_ram.specs.Memory.{Memory, RamFrame, variables, shown, with_frames};
ghost use Rattle.tiny_ram.specs.Region.{Keeps};
ghost use Rattle.memory_states.specs.Values.{IsValue};
ghost use Rattle.memory_states.specs.States.{place_held};
ghost use Rattle.kept_values.specs.Keeping.{kind_seen};
ghost use Rattle.step_places.specs.Places.{cell_seen, IsCellElem};

use board_types::value::{RamPlace, Value};
use cil_opcodes::shape::IntegerType;
use kept_values::PlaceKind;
use plain_types::elem::Elem;
use ram_words::elements::{ElementKind, zero_of};
use tiny_ram::Ram;

/// The first place of a frame that has no number of 16 bits.
const FAR: u32 = 0x1_0000;

/// A type whose places are of the kind.
fn elem_of(kind: ElementKind) -> Elem
    ensures { elem_held result ≡ Some (cell_in kind) }
{
    match kind {
        ElementKind::Number(IntegerType::I1) => Elem::I1,
        ElementKind::Number(IntegerType::U1) => Elem::U1,
        ElementKind::Number(IntegerType::I2) => Elem::I2,
        ElementKind::Number(IntegerType::U2) => Elem::U2,
        ElementKind::Number(IntegerType::I4) => Elem::I4,
        ElementKind::Number(IntegerType::U4) => Elem::U4,
        ElementKind::Number(IntegerType::I8) => Elem::I8,
        ElementKind::Number(IntegerType::U8) => Elem::U8,
        ElementKind::Reference => Elem::Object,
    }
}

/// A type with the zero that places of the kind have before anything is put into them.
pub(crate) fn unput_elem(kind: PlaceKind) -> Elem
    ensures { (type : PlaceType) (room : ℕ) (fs : List RamFrame) → kind_of type ≡ kind_seen kind → IsValue room fs (zero_by (elem_held result)) (zero_place type) }
{
    match kind {
        PlaceKind::Holds(kind) => elem_of(kind),
        PlaceKind::HoldsPointer(_) => Elem::Object,
        PlaceKind::HoldsHandle => Elem::Object,
        PlaceKind::Nothing => Elem::Object,
    }
}

/// The type to which a pointer to the place leads; none where no pointer leads to such a place, and where there is none.
pub(crate) fn pointed_elem(place: Option<PlaceKind>) -> Option<Elem>
    ensures { IsCellElem (cell_seen place) result }
{
    match place {
        Some(PlaceKind::Holds(kind)) => Some(elem_of(kind)),
        Some(PlaceKind::HoldsPointer(_)) => None,
        Some(PlaceKind::HoldsHandle) => None,
        Some(PlaceKind::Nothing) => None,
        None => None,
    }
}

/// Where the innermost frame's n-th local lies, behind its arguments.
pub(crate) fn local_index(ram: &Ram, n: u16) -> u32
    ensures { (m : Memory) (f : RamFrame) (fs : List RamFrame) → Keeps ram.now m → m.frames ≡ f ∷ fs → result ≡ slice_index f.sizes 0 + n }
{
    let [arguments, _, _, _] = ram.sizes(ram.top());
    arguments.wrapping_add(n as u32)
}

/// What an argument or a local holds, by where it lies in the innermost frame; the zero of the type where nothing was put.
pub(crate) fn value_at(ram: &Ram, index: u32, unput: Elem) -> Value
    ensures { (m : Memory) (f : RamFrame) (fs : List RamFrame) → Keeps ram.now m → m.frames ≡ f ∷ fs → index < variables f → result ≡ shown unput (place_held f index) }
{
    if index >= FAR {
        return far_value(ram, index, unput);
    }
    match ram.variable(index as u16) {
        Some(value) => value,
        None => zero_of(unput),
    }
}

/// The same by the frame's number.
fn far_value(ram: &Ram, index: u32, unput: Elem) -> Value
    ensures { (m : Memory) (f : RamFrame) (fs : List RamFrame) → Keeps ram.now m → m.frames ≡ f ∷ fs → index < variables f → result ≡ shown unput (place_held f index) }
{
    let thing = ram.top();
    ram.get(RamPlace {
        thing,
        index,
        elem: unput,
    })
}

/// Puts a value into an argument or a local as it is, by where it lies in the innermost frame.
pub(crate) fn put_at(ram: &mut Ram, index: u32, value: Value)
    ensures { (m : Memory) (f : RamFrame) (fs : List RamFrame) → Keeps ram.old m → m.frames ≡ f ∷ fs → index < variables f → Keeps ram.new (with_frames m (record f { places = slice_set f.places index (Some value) } ∷ fs)) }
{
    if index >= FAR {
        put_far(ram, index, value);
        return;
    }
    ram.put_variable(index as u16, value);
}

/// The same by the frame's number.
fn put_far(ram: &mut Ram, index: u32, value: Value)
    ensures { (m : Memory) (f : RamFrame) (fs : List RamFrame) → Keeps ram.old m → m.frames ≡ f ∷ fs → index < variables f → Keeps ram.new (with_frames m (record f { places = slice_set f.places index (Some value) } ∷ fs)) }
{
    let thing = ram.top();
    ram.put(
        RamPlace {
            thing,
            index,
            elem: Elem::Class,
        },
        value,
    );
}
