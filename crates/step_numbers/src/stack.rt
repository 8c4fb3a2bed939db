//! Values taken off the stack and put back, and the frame that goes on.

ghost use Rattle.std.specs.Prelude.{◌≡◌, ℕ, ◌<◌, ◌∷◌, Bool, List, slice_index};
ghost use Rattle.machine.specs.Data.{Id, Value as StackValue, Frame, State};
ghost use Rattle.machine.specs.Program.{Program};
ghost use Rattle.machine.specs.Numbers.{Answer};
ghost use Rattle.machine.specs.Throw.{goes};
ghost use Rattle.machine.specs.Rows.{answered};
ghost use Rattle.tiny_ram.specs.Memory.{RamFrame, Memory, with_frames, pushed};
ghost use Rattle.tiny_ram.specs.Region.{Keeps};
ghost use Rattle.memory_states.specs.Values.{IsValue};
ghost use Rattle.step_ends.specs.Ends.{Before, GoesOn, Ends};
ghost use Rattle.step_numbers.specs.Taken.{Moves, Takes, TakesTwo, Took, TookTwo, IsAnswer};

use board_types::value::Value;
use step_ends::Acted;
use tiny_ops::OpEnd;
use tiny_ram::Ram;

/// Two values of the stack, of which the second one lay on top.
#[derive(Clone, Copy)]
pub(crate) struct Operands {
    pub(crate) first: Value,
    pub(crate) second: Value,
}

/// Takes the topmost value off; none on an empty stack.
#[inline(always)]
pub(crate) fn take(ram: &mut Ram) -> Option<Value>
    ensures { (p : Program) (outer : Id → ℕ → ℕ → Bool) (m : Memory) (s : State) (f : RamFrame) (fs : List RamFrame) (g : Frame) (gs : List Frame) → Before p outer ram.old m s f fs g gs → Takes p outer ram.new m s f fs g gs result }
{
    ram.pop()
}

/// Takes the two topmost values off; none where there are fewer.
#[inline(always)]
pub(crate) fn take_two(ram: &mut Ram) -> Option<Operands>
    ensures { (p : Program) (outer : Id → ℕ → ℕ → Bool) (m : Memory) (s : State) (f : RamFrame) (fs : List RamFrame) (g : Frame) (gs : List Frame) → Before p outer ram.old m s f fs g gs → TakesTwo p outer ram.new m s f fs g gs result }
{
    let Some(second) = take(ram) else {
        return None;
    };
    let Some(first) = take(ram) else {
        return None;
    };
    Some(Operands { first, second })
}

/// Puts a value back onto a stack that has room for it.
#[inline(always)]
fn put_back(ram: &mut Ram, value: Value)
    ensures { (m : Memory) (f : RamFrame) (fs : List RamFrame) → Keeps ram.old m → m.frames ≡ f ∷ fs → f.depth < slice_index f.sizes 2 → Keeps ram.new (with_frames m (pushed f value ∷ fs)) }
{
    ram.push(value);
}

/// The innermost frame goes on at a place of the code.
#[inline(always)]
pub(crate) fn go(ram: &mut Ram, place: u32)
    ensures { (p : Program) (outer : Id → ℕ → ℕ → Bool) (m : Memory) (s : State) (f : RamFrame) (fs : List RamFrame) (g : Frame) (gs : List Frame) → Before p outer ram.old m s f fs g gs → GoesOn p outer s ram.new m.room (goes p s g gs place g.stack) }
{
    ram.go_to(place.cast_signed());
}

/// The innermost frame goes on with a value on top of its stack.
#[inline(always)]
pub(crate) fn go_with(ram: &mut Ram, value: Value, next: u32) -> Acted
    ensures { (p : Program) (outer : Id → ℕ → ℕ → Bool) (m : Memory) (s : State) (f : RamFrame) (fs : List RamFrame) (g : Frame) (gs : List Frame) (v : StackValue) → Before p outer ram.old m s f fs g gs → IsValue m.room (f ∷ fs) value v → Moves p outer s ram.new m.room (goes p s g gs next (v ∷ g.stack)) result }
{
    if !ram.push(value) {
        return Acted::Stuck;
    }
    ram.go_to(next.cast_signed());
    Acted::Done
}

/// Goes on with what an operator gives of a value that was taken off. Where it throws, the value is put back.
#[inline(always)]
pub(crate) fn answer_one(ram: &mut Ram, end: OpEnd, x: Value, next: u32) -> Acted
    ensures { (p : Program) (outer : Id → ℕ → ℕ → Bool) (m : Memory) (s : State) (f : RamFrame) (fs : List RamFrame) (g : Frame) (gs : List Frame) (answer : Answer) (t : Took p outer ram.old m s f fs g gs x) → m.frames ≡ f ∷ fs → IsAnswer end answer → Ends p outer m s ram.new (answered p s g gs next t.rest answer) result }
{
    match end {
        OpEnd::Gives(value) => go_with(ram, value, next),
        OpEnd::Throws(known) => {
            put_back(ram, x);
            Acted::Raises(known)
        }
        OpEnd::NoCase => Acted::Stuck,
    }
}

/// Goes on with what an operator gives of two values that were taken off. Where it throws, the values are put back.
#[inline(always)]
pub(crate) fn answer_two(ram: &mut Ram, end: OpEnd, taken: Operands, next: u32) -> Acted
    ensures { (p : Program) (outer : Id → ℕ → ℕ → Bool) (m : Memory) (s : State) (f : RamFrame) (fs : List RamFrame) (g : Frame) (gs : List Frame) (answer : Answer) (t : TookTwo p outer ram.old m s f fs g gs taken) → m.frames ≡ f ∷ fs → IsAnswer end answer → Ends p outer m s ram.new (answered p s g gs next t.rest answer) result }
{
    match end {
        OpEnd::Gives(value) => go_with(ram, value, next),
        OpEnd::Throws(known) => {
            put_back(ram, taken.first);
            put_back(ram, taken.second);
            Acted::Raises(known)
        }
        OpEnd::NoCase => Acted::Stuck,
    }
}
