//! The locals of the innermost frame. The kind of the n-th one is told by the caller: none where the method has no such place.

ghost use Rattle.machine.specs.Program.{LoadLocal, StoreLocal, LoadLocalAddress};
ghost use Rattle.step_places.specs.Places.{locals_of, OfPlaceAct};

use crate::places::{local_index, pointed_elem, put_at, unput_elem, value_at};
use board_types::value::{RamPlace, Value};
use kept_values::{PlaceKind, keep};
use step_ends::Acted;
use step_stack::push_on;
use tiny_ram::Ram;

/// `ldloc` (III.3.43).
pub fn load_local(ram: &mut Ram, n: u16, place: Option<PlaceKind>, next: u32) -> Acted
    ensures { OfPlaceAct ram.old ram.new next (LoadLocal n) locals_of n place result }
{
    let Some(kind) = place else {
        return Acted::Stuck;
    };
    let value = value_at(ram, local_index(ram, n), unput_elem(kind));
    push_on(ram, value, next)
}

/// `stloc` (III.3.63).
pub fn store_local(ram: &mut Ram, n: u16, place: Option<PlaceKind>, next: u32) -> Acted
    ensures { OfPlaceAct ram.old ram.new next (StoreLocal n) locals_of n place result }
{
    let Some(kind) = place else {
        return Acted::Stuck;
    };
    let Some(value) = ram.pop() else {
        return Acted::Stuck;
    };
    let Some(held) = keep(kind, value) else {
        return Acted::Stuck;
    };
    put_at(ram, local_index(ram, n), held);
    ram.go_to(next.cast_signed());
    Acted::Done
}

/// `ldloca` (III.3.44).
pub fn load_local_address(ram: &mut Ram, n: u16, place: Option<PlaceKind>, next: u32) -> Acted
    ensures { OfPlaceAct ram.old ram.new next (LoadLocalAddress n) locals_of n place result }
{
    let Some(elem) = pointed_elem(place) else {
        return Acted::Stuck;
    };
    let at = RamPlace {
        thing: ram.top(),
        index: local_index(ram, n),
        elem,
    };
    push_on(ram, Value::Pointer(at), next)
}
