//! Values taken off the stack and put back, and the frame that goes on.

ghost use Rattle.std.specs.Prelude.{◌≡◌, ℕ, ◌∷◌, Bool, List, Option};
ghost use Rattle.machine.specs.Data.{Id, Value as StackValue, Frame, State};
ghost use Rattle.machine.specs.Program.{Program};
ghost use Rattle.machine.specs.Throw.{goes, raise};
ghost use Rattle.tiny_ram.specs.Memory.{RamFrame, Memory, with_frames, popped};
ghost use Rattle.tiny_ram.specs.Region.{Keeps};
ghost use Rattle.memory_states.specs.Values.{IsValue};
ghost use Rattle.step_ends.specs.Ends.{Ends};
ghost use Rattle.step_operands.specs.Below.{Below, IsTop, Moves, Takes, TakesTwo, TakesThree, stacked};

use board_types::board::Known;
use board_types::value::Value;
use step_ends::Acted;
use tiny_ram::Ram;

/// Two values of the stack, of which the second one lay on top.
#[derive(Clone, Copy, Debug, PartialEq, Eq)]
pub struct Pair {
    pub first: Value,
    pub second: Value,
}

/// Three values of the stack, of which the third one lay on top.
#[derive(Clone, Copy, Debug, PartialEq, Eq)]
pub struct Triple {
    pub first: Value,
    pub second: Value,
    pub third: Value,
}

/// Takes the topmost value off; none on an empty stack.
#[inline(always)]
pub fn take(ram: &mut Ram) -> Option<Value>
    ensures { (p : Program) (outer : Id → ℕ → ℕ → Bool) (m : Memory) (s : State) (fs : List RamFrame) (gs : List Frame) (h : RamFrame) (k : Frame) → Below p outer ram.old m s fs gs h k → Takes p outer ram.new m s fs gs h k result }
{
    ram.pop()
}

/// Takes the two topmost values off; none where there are fewer.
#[inline(always)]
pub fn take_two(ram: &mut Ram) -> Option<Pair>
    ensures { (p : Program) (outer : Id → ℕ → ℕ → Bool) (m : Memory) (s : State) (fs : List RamFrame) (gs : List Frame) (h : RamFrame) (k : Frame) → Below p outer ram.old m s fs gs h k → TakesTwo p outer ram.new m s fs gs h k result }
{
    let Some(second) = take(ram) else {
        return None;
    };
    let Some(first) = take(ram) else {
        return None;
    };
    Some(Pair { first, second })
}

/// Takes the three topmost values off; none where there are fewer.
#[inline(always)]
pub fn take_three(ram: &mut Ram) -> Option<Triple>
    ensures { (p : Program) (outer : Id → ℕ → ℕ → Bool) (m : Memory) (s : State) (fs : List RamFrame) (gs : List Frame) (h : RamFrame) (k : Frame) → Below p outer ram.old m s fs gs h k → TakesThree p outer ram.new m s fs gs h k result }
{
    let Some(third) = take(ram) else {
        return None;
    };
    let Some(pair) = take_two(ram) else {
        return None;
    };
    Some(Triple {
        first: pair.first,
        second: pair.second,
        third,
    })
}

/// Puts a value that was taken off back.
#[inline(always)]
fn put_back(ram: &mut Ram, value: Value)
    ensures { (m : Memory) (h : RamFrame) (fs : List RamFrame) → IsTop h value → Keeps ram.old (with_frames m (popped h ∷ fs)) → Keeps ram.new (with_frames m (h ∷ fs)) }
{
    ram.push(value);
}

/// Raises an exception; the value that was taken off is put back.
#[inline(always)]
pub fn raise_one(ram: &mut Ram, value: Value, known: Known) -> Acted
    ensures { (p : Program) (outer : Id → ℕ → ℕ → Bool) (m : Memory) (s : State) (f : RamFrame) (fs : List RamFrame) (next : Option State) → m.frames ≡ f ∷ fs → IsTop f value → Keeps ram.old (with_frames m (popped f ∷ fs)) → next ≡ raise p s known → Ends p outer m s ram.new next result }
{
    put_back(ram, value);
    Acted::Raises(known)
}

/// Raises an exception; the two values that were taken off are put back.
#[inline(always)]
pub fn raise_two(ram: &mut Ram, taken: Pair, known: Known) -> Acted
    ensures { (p : Program) (outer : Id → ℕ → ℕ → Bool) (m : Memory) (s : State) (f : RamFrame) (fs : List RamFrame) (next : Option State) → m.frames ≡ f ∷ fs → IsTop f taken.second → IsTop (popped f) taken.first → Keeps ram.old (with_frames m (popped (popped f) ∷ fs)) → next ≡ raise p s known → Ends p outer m s ram.new next result }
{
    put_back(ram, taken.first);
    raise_one(ram, taken.second, known)
}

/// Raises an exception; the three values that were taken off are put back.
#[inline(always)]
pub fn raise_three(ram: &mut Ram, taken: Triple, known: Known) -> Acted
    ensures { (p : Program) (outer : Id → ℕ → ℕ → Bool) (m : Memory) (s : State) (f : RamFrame) (fs : List RamFrame) (next : Option State) → m.frames ≡ f ∷ fs → IsTop f taken.third → IsTop (popped f) taken.second → IsTop (popped (popped f)) taken.first → Keeps ram.old (with_frames m (popped (popped (popped f)) ∷ fs)) → next ≡ raise p s known → Ends p outer m s ram.new next result }
{
    put_back(ram, taken.first);
    put_back(ram, taken.second);
    raise_one(ram, taken.third, known)
}

/// The innermost frame goes on at a place of the code.
#[inline(always)]
pub fn go_on(ram: &mut Ram, next: u32) -> Acted
    ensures { (p : Program) (outer : Id → ℕ → ℕ → Bool) (m : Memory) (s : State) (fs : List RamFrame) (gs : List Frame) (h : RamFrame) (g : Frame) (rest : List StackValue) → Below p outer ram.old m s fs gs h (stacked g rest) → Moves p outer s ram.new m.room (goes p s g gs next rest) result }
{
    ram.go_to(next.cast_signed());
    Acted::Done
}

/// The innermost frame goes on with a value on top of its stack.
#[inline(always)]
pub fn go_with(ram: &mut Ram, value: Value, next: u32) -> Acted
    ensures { (p : Program) (outer : Id → ℕ → ℕ → Bool) (m : Memory) (s : State) (fs : List RamFrame) (gs : List Frame) (h : RamFrame) (g : Frame) (rest : List StackValue) (v : StackValue) → Below p outer ram.old m s fs gs h (stacked g rest) → IsValue m.room (h ∷ fs) value v → Moves p outer s ram.new m.room (goes p s g gs next (v ∷ rest)) result }
{
    if !ram.push(value) {
        return Acted::Stuck;
    }
    ram.go_to(next.cast_signed());
    Acted::Done
}
