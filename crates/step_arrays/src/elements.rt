//! The elements of arrays.

ghost use Rattle.std.specs.Prelude.{◌≡◌, ℕ, ◌+◌, List};
ghost use Rattle.std.specs.Option.{option_map};
ghost use Rattle.std.specs.Int.{w32, cast_unsigned};
ghost use Rattle.machine.specs.Data.{Thing, Value as StackValue};
ghost use Rattle.machine.specs.Numbers.{as_int};
ghost use Rattle.machine.specs.Program.{Program, Access, access_cell, LoadElement};
ghost use Rattle.ram_words.specs.Elements.{type_held, cell_in};
ghost use Rattle.tiny_ram.specs.Things.{Entry};
ghost use Rattle.tiny_ram.specs.Memory.{RamFrame, Memory, IsEntry};
ghost use Rattle.tiny_ram.specs.Region.{Keeps};
ghost use Rattle.memory_states.specs.Values.{IsThing, IsValue};
ghost use Rattle.kept_values.specs.Keeping.{is_as_wide};
ghost use Rattle.step_operands.specs.Named.{OfActAt};
ghost use Rattle.step_arrays.specs.Elements.{IsRead};

use crate::found::array_of;
use board_types::board::{BoardType, Known};
use board_types::value::{RamPlace, Value};
use ram_words::elements::{ElementKind, kind_of, width};
use step_ends::Acted;
use step_operands::{Referred, elem_of, go_with, keep_in, named, raise_two, take_two};
use tiny_ram::Ram;

/// What is read of an array's element.
#[derive(Clone, Copy)]
pub enum Read {
    /// The element as the load sees it.
    Element(Value),
    /// There is no such element.
    Past,
    /// The thing is no array, or its elements are of another width.
    Nothing,
}

/// Whether elements of the type are as wide as a cell of the kind.
fn is_as_wide(of: BoardType, wide: ElementKind) -> bool
    ensures { result ≡ is_as_wide (cell_in wide) (type_held of) }
{
    match (kind_of(of), wide) {
        (Some(own @ ElementKind::Number(_)), ElementKind::Number(_)) => width(own) == width(wide),
        (Some(ElementKind::Reference), ElementKind::Reference) => true,
        _ => false,
    }
}

/// An int32 of the stack as an index, without sign; none of another value.
fn index_of(value: Value) -> Option<u32>
    ensures { (room : ℕ) (fs : List RamFrame) (v : StackValue) → IsValue room fs value v → option_map (cast_unsigned w32) (as_int v) ≡ result }
{
    match value {
        Value::Int(n) => Some(n.cast_unsigned()),
        Value::Long(_) | Value::Ref(_) | Value::Pointer(_) | Value::Handle(_) => None,
    }
}

/// The element of a thing that is an array, as a load by the kind sees it.
fn element(ram: &Ram, thing: u32, index: u32, wide: ElementKind) -> Read
    ensures { (p : Program) (m : Memory) (e : Entry) (x : Thing) → Keeps ram.now m → IsEntry m thing e → IsThing p m.room e x → IsRead p m.room x index (cell_in wide) result }
{
    let Some(array) = array_of(ram, thing) else {
        return Read::Nothing;
    };
    if !is_as_wide(array.of, wide) {
        return Read::Nothing;
    }
    if index >= array.count {
        return Read::Past;
    }
    let at = RamPlace {
        thing,
        index,
        elem: elem_of(array.of),
    };
    match keep_in(wide, ram.get(at)) {
        Some(value) => Read::Element(value),
        None => Read::Nothing,
    }
}

/// Pushes an element of the array that lies below its index, as it is seen by a cell of the kind (III.4.7, III.4.8).
pub fn load_element(ram: &mut Ram, wide: Option<ElementKind>, next: u32) -> Acted
    ensures { (access : Access) → access_cell access ≡ option_map cell_in wide → OfActAt (λ p. Unit {0}) ram.old ram.new next (LoadElement access) result }
{
    let Some(wide) = wide else {
        return Acted::Stuck;
    };
    let Some(taken) = take_two(ram) else {
        return Acted::Stuck;
    };
    let Some(index) = index_of(taken.second) else {
        return Acted::Stuck;
    };
    match named(taken.first) {
        Referred::Null => raise_two(ram, taken, Known::NullReference),
        Referred::Thing(thing) => match element(ram, thing, index, wide) {
            Read::Element(value) => go_with(ram, value, next),
            Read::Past => raise_two(ram, taken, Known::IndexOutOfRange),
            Read::Nothing => Acted::Stuck,
        },
        Referred::Nothing => Acted::Stuck,
    }
}
