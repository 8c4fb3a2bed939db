//! The acts over the memory.

ghost use Rattle.std.specs.Prelude.{◌≡◌, ◌∷◌, ℕ, Bool, List};
ghost use Rattle.machine.specs.Data.{Id, Value as StackValue, Frame, State};
ghost use Rattle.machine.specs.Program.{Program, Nop, Push, Dup, Pop, Branch};
ghost use Rattle.machine.specs.Step.{act};
ghost use Rattle.tiny_ram.specs.Memory.{RamFrame, Memory};
ghost use Rattle.memory_states.specs.Values.{IsValue};
ghost use Rattle.step_ends.specs.Ends.{Before, Ends, OfAct};

use board_types::value::Value;
use step_ends::Acted;
use tiny_ram::Ram;

/// Goes on at a place of the code: `nop` behind it, and `br` at its target.
pub fn go_on(ram: &mut Ram, next: u32) -> Acted
    ensures nop { OfAct ram.old ram.new next Nop result }
    ensures branch { (behind : ℕ) → OfAct ram.old ram.new behind (Branch next) result }
{
    ram.go_to(next.cast_signed());
    Acted::Done
}

/// Pushes a value and goes on at a place of the code.
pub fn push_on(ram: &mut Ram, value: Value, next: u32) -> Acted
    ensures { (p : Program) (outer : Id → ℕ → ℕ → Bool) (m : Memory) (s : State) (f : RamFrame) (fs : List RamFrame) (g : Frame) (gs : List Frame) (v : StackValue) → Before p outer ram.old m s f fs g gs → IsValue m.room (f ∷ fs) value v → Ends p outer m s ram.new (act p s g gs next (Push v)) result }
{
    if !ram.push(value) {
        return Acted::Stuck;
    }
    ram.go_to(next.cast_signed());
    Acted::Done
}

/// `pop` (III.3.54).
pub fn drop_top(ram: &mut Ram, next: u32) -> Acted
    ensures { OfAct ram.old ram.new next Pop result }
{
    let Some(_) = ram.pop() else {
        return Acted::Stuck;
    };
    ram.go_to(next.cast_signed());
    Acted::Done
}

/// `dup` (III.3.33).
pub fn duplicate(ram: &mut Ram, next: u32) -> Acted
    ensures { OfAct ram.old ram.new next Dup result }
{
    let Some(top) = ram.pop() else {
        return Acted::Stuck;
    };
    if !ram.push(top) {
        return Acted::Stuck;
    }
    if !ram.push(top) {
        return Acted::Stuck;
    }
    ram.go_to(next.cast_signed());
    Acted::Done
}
