//! The end of the innermost frame.

ghost use Rattle.std.specs.Prelude.{◌≡◌, ◌<◌, ◌^◌, ℕ, Bool, List, ◌∷◌, Option};
ghost use Rattle.std.specs.Int.{w32, cast_signed};
ghost use Rattle.machine.specs.Data.{Id, Value as StackValue, Frame, State};
ghost use Rattle.machine.specs.Program.{Program, Return};
ghost use Rattle.machine.specs.Throw.{goes};
ghost use Rattle.machine.specs.Calls.{with_result};
ghost use Rattle.machine.specs.Calls as machine;
ghost use Rattle.machine.specs.Step.{act};
ghost use Rattle.board_types.specs.declared.board.TypeAt.{TypeAt};
ghost use Rattle.tiny_ram.specs.Memory.{RamFrame, Memory};
ghost use Rattle.tiny_ram.specs.Region.{Keeps, Done};
ghost use Rattle.step_ends.specs.Ends.{Before};
ghost use Rattle.step_return.specs.Returns.{LinesAre, HandsBack, IsResult, whole_result, result_held, pushed_result, has_room, goes_behind, ended_with, KeepsOver, Leaves, WentOn, ReturnEnds, HandedBack};

use board_types::board::TypeAt;
use board_types::value::Value;
use frame_parts::{is_initialiser, method_of};
use kept_values::{PlaceKind, keep};
use step_ends::Acted;
use tiny_ram::Ram;

/// Where the lines of a bound set's code end.
pub trait Lines {
    /// The place behind the instruction at a place of a method's code; none where none stands.
    ghost behind: { Self → TypeAt → ℕ → Option ℕ };

    /// That place.
    fn behind(&self, method: TypeAt, place: u32) -> Option<u32>
        ensures { result ≡ behind self.now method place };
}

/// How a return ends.
#[derive(Clone, Copy, Debug, PartialEq, Eq)]
pub enum Returned {
    Acted(Acted),
    /// The run has ended, with an int32 or with nothing.
    Ended(Option<i32>),
}

/// The end of a run by what its first method hands back.
fn end_run(value: Option<Value>) -> Returned
    ensures { result ≡ ended_with value }
{
    match value {
        None => Returned::Ended(None),
        Some(Value::Int(n)) => Returned::Ended(Some(n)),
        Some(_) => Returned::Acted(Acted::Stuck),
    }
}

/// A value as a method of the kind hands it back: as it is; none where it isn't of the kind.
fn as_result(kind: PlaceKind, value: Value) -> Option<Option<Value>>
    ensures { result ≡ whole_result kind value }
{
    match keep(kind, value) {
        None => None,
        Some(_) => Some(Some(value)),
    }
}

/// Takes what a method hands back off the stack; none where the machine has no case.
fn take_result(ram: &mut Ram, returns: Option<PlaceKind>) -> Option<Option<Value>>
    ensures value { (m : Memory) (f : RamFrame) (fs : List RamFrame) → Keeps ram.old m → m.frames ≡ f ∷ fs → result ≡ result_held returns f }
    ensures left { (m : Memory) (f : RamFrame) (fs : List RamFrame) → Keeps ram.old m → m.frames ≡ f ∷ fs → KeepsOver ram.new m f fs }
{
    let Some(kind) = returns else {
        return Some(None);
    };
    let Some(value) = ram.pop() else {
        return None;
    };
    as_result(kind, value)
}

/// Pushes what was handed back. False where the stack is full.
fn push_result(ram: &mut Ram, value: Option<Value>) -> bool
    ensures done { (m : Memory) (f : RamFrame) (fs : List RamFrame) → Keeps ram.old m → m.frames ≡ f ∷ fs → Done ram.old ram.new m (pushed_result f value) fs result }
    ensures room { (m : Memory) (f : RamFrame) (fs : List RamFrame) → Keeps ram.old m → m.frames ≡ f ∷ fs → result ≡ has_room f value }
{
    match value {
        None => true,
        Some(value) => ram.push(value),
    }
}

/// The innermost frame goes on at a place, with what was handed back. False where the machine has no case.
fn go_with(ram: &mut Ram, value: Option<Value>, next: u32) -> bool
    ensures { (p : Program) (outer : Id → ℕ → ℕ → Bool) (m : Memory) (s : State) (f : RamFrame) (fs : List RamFrame) (g : Frame) (gs : List Frame) (v : Option StackValue) → Before p outer ram.old m s f fs g gs → IsResult m.room (f ∷ fs) value v → WentOn p outer s ram.new m.room (goes p s g gs next (with_result v g.stack)) result }
{
    if !push_result(ram, value) {
        return false;
    }
    ram.go_to(next.cast_signed());
    true
}

/// The place in its code of the innermost frame.
fn place(ram: &Ram) -> u32
    ensures { (m : Memory) (f : RamFrame) (fs : List RamFrame) → Keeps ram.now m → m.frames ≡ f ∷ fs → (n : ℕ) → n < 2 ^ 32 → f.place ≡ cast_signed w32 n → result ≡ n }
{
    ram.place().cast_unsigned()
}

/// The innermost frame goes on behind its call, with what was handed back. False where the machine has no case.
fn go_behind<L: Lines>(ram: &mut Ram, lines: &L, value: Option<Value>) -> bool
    ensures { (p : Program) (outer : Id → ℕ → ℕ → Bool) (m : Memory) (s : State) (f : RamFrame) (fs : List RamFrame) (g : Frame) (gs : List Frame) (v : Option StackValue) → Before p outer ram.old m s f fs g gs → LinesAre p (L.behind lines.now) → IsResult m.room (f ∷ fs) value v → WentOn p outer s ram.new m.room (goes_behind p s g gs v) result }
{
    let method = method_of(ram, ram.top());
    let at = place(ram);
    match lines.behind(method, at) {
        None => false,
        Some(next) => go_with(ram, value, next),
    }
}

/// The innermost frame ends, and hands back what it took off its stack.
fn hand_back<L: Lines>(ram: &mut Ram, lines: &L, value: Option<Value>) -> Returned
    ensures { (p : Program) (outer : Id → ℕ → ℕ → Bool) (m : Memory) (s : State) (f : RamFrame) (fs : List RamFrame) (gs : List Frame) (initialiser : Bool) (v : Option StackValue) → Leaves p outer ram.old m s f fs gs initialiser → LinesAre p (L.behind lines.now) → IsResult m.room fs value v → HandedBack p outer s ram.new m.room (machine.hand_back p s initialiser v gs) result }
{
    let initialiser = is_initialiser(ram, ram.top());
    ram.end_frame();
    if ram.top() == 0 {
        return end_run(value);
    }
    if initialiser {
        return Returned::Acted(Acted::Done);
    }
    if go_behind(ram, lines, value) {
        Returned::Acted(Acted::Done)
    } else {
        Returned::Acted(Acted::Stuck)
    }
}

/// `ret` of a method that hands back nothing, or a value of this kind (ECMA-335 III.3.56).
pub fn return_value<L: Lines>(ram: &mut Ram, lines: &L, returns: Option<PlaceKind>) -> Returned
    ensures { (p : Program) (outer : Id → ℕ → ℕ → Bool) (m : Memory) (s : State) (f : RamFrame) (fs : List RamFrame) (g : Frame) (gs : List Frame) (next : ℕ) → Before p outer ram.old m s f fs g gs → LinesAre p (L.behind lines.now) → HandsBack p g.method returns → ReturnEnds p outer m s ram.new (act p s g gs next Return) result }
{
    let Some(value) = take_result(ram, returns) else {
        return Returned::Acted(Acted::Stuck);
    };
    hand_back(ram, lines, value)
}
