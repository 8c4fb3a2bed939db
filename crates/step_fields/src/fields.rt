//! The acts over the memory.

ghost use Rattle.std.specs.Prelude.{◌≡◌, ℕ, ◌+◌, ◌∷◌, [], Bool, List, Some, slice_get, slice_set};
ghost use Rattle.machine.specs.Data.{Id, thing_at, Value as StackValue, Pointer, InObject, Cell, Thing, Instance, Frame, State};
ghost use Rattle.machine.specs.Program.{Program, LoadField, StoreField, LoadFieldAddress};
ghost use Rattle.machine.specs.Throw.{on_some, goes};
ghost use Rattle.machine.specs.Rows.{on_instance};
ghost use Rattle.ram_words.specs.Elements.{elem_held};
ghost use Rattle.tiny_ram.specs.Things.{Entry};
ghost use Rattle.tiny_ram.specs.Memory.{RamFrame, Memory, IsEntry};
ghost use Rattle.tiny_ram.specs.Region.{Keeps};
ghost use Rattle.memory_states.specs.Values.{id_of, IsValue};
ghost use Rattle.step_operands.specs.Below.{Below, Moves, stacked};
ghost use Rattle.step_operands.specs.Changed.{put_heap};
ghost use Rattle.step_operands.specs.Named.{OfActAt};
ghost use Rattle.step_fields.specs.Fields.{IsField, is_of};

use board_types::board::{Known, TypeAt};
use board_types::subclass::Subclass;
use board_types::value::{RamPlace, Value};
use plain_types::elem::Elem;
use ram_words::elements::kind_of_elem;
use step_ends::Acted;
use step_operands::{
    Referred, go_on, go_with, keep_elem, named, raise_one, raise_two, take, take_two,
};
use tiny_ram::Ram;

/// A field of the objects of a class: the class that declares it or stands below, its number among the class's fields, inherited
/// ones first, and the element of its type, which for an array is `Object`.
#[derive(Clone, Copy, Debug, PartialEq, Eq)]
pub struct Field {
    pub owner: TypeAt,
    pub number: u32,
    pub elem: Elem,
}

/// Whether a thing is an object of the class or of one below it.
fn is_object<S: Subclass>(ram: &Ram, types: &S, thing: u32, owner: TypeAt) -> bool
    ensures { (m : Memory) (e : Entry) → Keeps ram.now m → IsEntry m thing e → result ≡ is_of (S.sub types.now) owner e.shape }
{
    let shape = ram.shape(thing);
    shape.what == 0 && types.is_sub(shape.of.of, owner)
}

/// Goes on with what a thing's field holds.
fn load_from<S: Subclass>(ram: &mut Ram, types: &S, thing: u32, field: Field, next: u32) -> Acted
    ensures { (p : Program) (outer : Id → ℕ → ℕ → Bool) (m : Memory) (s : State) (fs : List RamFrame) (gs : List Frame) (h : RamFrame) (g : Frame) (rest : List StackValue) (n : ℕ) (x : Thing) → IsField (S.sub types.now) field p → Below p outer ram.old m s fs gs h (stacked g rest) → thing ≡ 1 + n → thing_at s.heap n ≡ Some x → Moves p outer s ram.new m.room (on_instance p (id_of field.owner) x (λ class fields. on_some (slice_get fields field.number) (λ v. goes p s g gs next (v ∷ rest)))) result }
{
    if !is_object(ram, types, thing, field.owner) {
        return Acted::Stuck;
    }
    let at = RamPlace {
        thing,
        index: field.number,
        elem: field.elem,
    };
    let value = ram.get(at);
    go_with(ram, value, next)
}

/// Pushes a field of the object on top of the stack (III.4.10).
pub fn load_field<S: Subclass>(ram: &mut Ram, types: &S, field: Field, next: u32) -> Acted
    ensures { OfActAt (IsField (S.sub types.now) field) ram.old ram.new next (LoadField (id_of field.owner) field.number) result }
{
    let Some(this) = take(ram) else {
        return Acted::Stuck;
    };
    match named(this) {
        Referred::Null => raise_one(ram, this, Known::NullReference),
        Referred::Thing(thing) => load_from(ram, types, thing, field, next),
        Referred::Nothing => Acted::Stuck,
    }
}

/// Puts a value that its place keeps into a thing's field, and goes on.
fn store_into<S: Subclass>(
    ram: &mut Ram,
    types: &S,
    thing: u32,
    field: Field,
    value: Value,
    next: u32,
) -> Acted
    ensures { (p : Program) (outer : Id → ℕ → ℕ → Bool) (m : Memory) (s : State) (fs : List RamFrame) (gs : List Frame) (h : RamFrame) (g : Frame) (rest : List StackValue) (n : ℕ) (x : Thing) (w : StackValue) → IsField (S.sub types.now) field p → Below p outer ram.old m s fs gs h (stacked g rest) → thing ≡ 1 + n → thing_at s.heap n ≡ Some x → IsValue m.room [] value w → Moves p outer s ram.new m.room (on_instance p (id_of field.owner) x (λ class fields. goes p (put_heap s n (Instance class (slice_set fields field.number w))) g gs next rest)) result }
{
    if !is_object(ram, types, thing, field.owner) {
        return Acted::Stuck;
    }
    let at = RamPlace {
        thing,
        index: field.number,
        elem: Elem::Object,
    };
    ram.put(at, value);
    go_on(ram, next)
}

/// Puts the topmost value into a field of the object below it (III.4.28).
pub fn store_field<S: Subclass>(ram: &mut Ram, types: &S, field: Field, next: u32) -> Acted
    ensures { OfActAt (IsField (S.sub types.now) field) ram.old ram.new next (StoreField (id_of field.owner) field.number) result }
{
    let Some(taken) = take_two(ram) else {
        return Acted::Stuck;
    };
    let Some(value) = keep_elem(field.elem, taken.second) else {
        return Acted::Stuck;
    };
    match named(taken.first) {
        Referred::Null => raise_two(ram, taken, Known::NullReference),
        Referred::Thing(thing) => store_into(ram, types, thing, field, value, next),
        Referred::Nothing => Acted::Stuck,
    }
}

/// Goes on with a pointer to a thing's field.
fn point_into<S: Subclass>(ram: &mut Ram, types: &S, thing: u32, field: Field, next: u32) -> Acted
    ensures { (p : Program) (outer : Id → ℕ → ℕ → Bool) (m : Memory) (s : State) (fs : List RamFrame) (gs : List Frame) (h : RamFrame) (g : Frame) (rest : List StackValue) (n : ℕ) (x : Thing) (cell : Cell) → IsField (S.sub types.now) field p → elem_held field.elem ≡ Some cell → Below p outer ram.old m s fs gs h (stacked g rest) → thing ≡ 1 + n → thing_at s.heap n ≡ Some x → Moves p outer s ram.new m.room (on_instance p (id_of field.owner) x (λ class fields. goes p s g gs next (Pointer cell (InObject n field.number) ∷ rest))) result }
{
    if !is_object(ram, types, thing, field.owner) {
        return Acted::Stuck;
    }
    let at = RamPlace {
        thing,
        index: field.number,
        elem: field.elem,
    };
    go_with(ram, Value::Pointer(at), next)
}

/// Pushes a pointer to a field of the object on top of the stack (III.4.11).
pub fn load_field_address<S: Subclass>(ram: &mut Ram, types: &S, field: Field, next: u32) -> Acted
    ensures { OfActAt (IsField (S.sub types.now) field) ram.old ram.new next (LoadFieldAddress (id_of field.owner) field.number) result }
{
    let Some(this) = take(ram) else {
        return Acted::Stuck;
    };
    let Some(_) = kind_of_elem(field.elem) else {
        return Acted::Stuck;
    };
    match named(this) {
        Referred::Null => raise_one(ram, this, Known::NullReference),
        Referred::Thing(thing) => point_into(ram, types, thing, field, next),
        Referred::Nothing => Acted::Stuck,
    }
}
