//! The acts over the memory.

ghost use Rattle.std.specs.Prelude.{◌≡◌, ℕ, ◌+◌, ◌∷◌, Bool, List, Some, length};
ghost use Rattle.machine.specs.Data.{Id, thing_at, Value as StackValue, Thing, Frame, State};
ghost use Rattle.machine.specs.Program.{Program, NewArray, LoadLength};
ghost use Rattle.machine.specs.Throw.{goes};
ghost use Rattle.machine.specs.Rows.{on_elements, length_value};
ghost use Rattle.tiny_ram.specs.Memory.{RamFrame, Memory};
ghost use Rattle.memory_states.specs.Values.{cli_type};
ghost use Rattle.step_ends.specs.Ends.{OfAct};
ghost use Rattle.step_operands.specs.Below.{Below, Moves, stacked};
ghost use Rattle.step_operands.specs.Named.{OfActAt};

use crate::found::array_of;
use board_types::board::{BoardType, Known};
use board_types::value::Value;
use ram_words::elements::kind_of;
use step_ends::Acted;
use step_operands::{Referred, go_with, go_with_new, int_of, named, raise_one, take};
use tiny_ram::Ram;

/// Makes an array of as many elements as the topmost value says (III.4.20).
pub fn new_array(ram: &mut Ram, of: BoardType, next: u32) -> Acted
    ensures { OfAct ram.old ram.new next (NewArray (cli_type of)) result }
{
    let Some(_) = kind_of(of) else {
        return Acted::Stuck;
    };
    let Some(count) = take(ram) else {
        return Acted::Stuck;
    };
    let Some(n) = int_of(count) else {
        return Acted::Stuck;
    };
    if n < 0 {
        return raise_one(ram, count, Known::Overflow);
    }
    let made = ram.array(of, n.unsigned_abs());
    go_with_new(ram, made, next)
}

/// Goes on with a length on top of the stack.
fn go_with_length(ram: &mut Ram, count: u32, next: u32) -> Acted
    ensures { (p : Program) (outer : Id → ℕ → ℕ → Bool) (m : Memory) (s : State) (fs : List RamFrame) (gs : List Frame) (h : RamFrame) (g : Frame) (rest : List StackValue) → Below p outer ram.old m s fs gs h (stacked g rest) → Moves p outer s ram.new m.room (goes p s g gs next (length_value count ∷ rest)) result }
{
    go_with(ram, Value::Int(count.cast_signed()), next)
}

/// Goes on with the length of a thing that is an array.
fn length_of(ram: &mut Ram, thing: u32, next: u32) -> Acted
    ensures { (p : Program) (outer : Id → ℕ → ℕ → Bool) (m : Memory) (s : State) (fs : List RamFrame) (gs : List Frame) (h : RamFrame) (g : Frame) (rest : List StackValue) (n : ℕ) (x : Thing) → Below p outer ram.old m s fs gs h (stacked g rest) → thing ≡ 1 + n → thing_at s.heap n ≡ Some x → Moves p outer s ram.new m.room (on_elements x (λ element values. goes p s g gs next (length_value (length values) ∷ rest))) result }
{
    let Some(array) = array_of(ram, thing) else {
        return Acted::Stuck;
    };
    go_with_length(ram, array.count, next)
}

/// Pushes the length of the array on top of the stack (III.4.12).
pub fn load_length(ram: &mut Ram, next: u32) -> Acted
    ensures { OfActAt (λ p. Unit {0}) ram.old ram.new next LoadLength result }
{
    let Some(this) = take(ram) else {
        return Acted::Stuck;
    };
    match named(this) {
        Referred::Null => raise_one(ram, this, Known::NullReference),
        Referred::Thing(thing) => length_of(ram, thing, next),
        Referred::Nothing => Acted::Stuck,
    }
}
