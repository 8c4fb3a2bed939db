//! The arguments of the innermost frame. The kind of the n-th one is told by the caller: none where the method has no such place.

ghost use Rattle.machine.specs.Program.{LoadArgument, StoreArgument, LoadArgumentAddress};
ghost use Rattle.step_places.specs.Places.{arguments_of, OfPlaceAct};

use crate::places::{pointed_elem, put_at, unput_elem, value_at};
use board_types::value::{RamPlace, Value};
use kept_values::{PlaceKind, keep};
use step_ends::Acted;
use step_stack::push_on;
use tiny_ram::Ram;

/// `ldarg` (III.3.38).
pub fn load_argument(ram: &mut Ram, n: u16, place: Option<PlaceKind>, next: u32) -> Acted
    ensures { OfPlaceAct ram.old ram.new next (LoadArgument n) arguments_of n place result }
{
    let Some(kind) = place else {
        return Acted::Stuck;
    };
    let value = value_at(ram, n as u32, unput_elem(kind));
    push_on(ram, value, next)
}

/// `starg` (III.3.61).
pub fn store_argument(ram: &mut Ram, n: u16, place: Option<PlaceKind>, next: u32) -> Acted
    ensures { OfPlaceAct ram.old ram.new next (StoreArgument n) arguments_of n place result }
{
    let Some(kind) = place else {
        return Acted::Stuck;
    };
    let Some(value) = ram.pop() else {
        return Acted::Stuck;
    };
    let Some(held) = keep(kind, value) else {
        return Acted::Stuck;
    };
    put_at(ram, n as u32, held);
    ram.go_to(next.cast_signed());
    Acted::Done
}

/// `ldarga` (III.3.39).
pub fn load_argument_address(ram: &mut Ram, n: u16, place: Option<PlaceKind>, next: u32) -> Acted
    ensures { OfPlaceAct ram.old ram.new next (LoadArgumentAddress n) arguments_of n place result }
{
    let Some(elem) = pointed_elem(place) else {
        return Acted::Stuck;
    };
    let at = RamPlace {
        thing: ram.top(),
        index: n as u32,
        elem,
    };
    push_on(ram, Value::Pointer(at), next)
}
