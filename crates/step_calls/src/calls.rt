//! Calls of methods with code.

ghost use Rattle.std.specs.Prelude.{◌≡◌, ◌≤◌, ◌+◌, ℕ, Bool, List, ◌∷◌, slice_index, sum};
ghost use Rattle.machine.specs.Data.{Id, Frame, State};
ghost use Rattle.machine.specs.Program.{Program, Call};
ghost use Rattle.machine.specs.Step.{act};
ghost use Rattle.tiny_ram.specs.Memory.{Memory, RamFrame, IsFrame};
ghost use Rattle.tiny_ram.specs.Region.{Keeps};
ghost use Rattle.step_ends.specs.Ends.{Before, Ends};
ghost use Rattle.step_calls.specs.Callees.{IsCallee, HasPlaces};
ghost use Rattle.step_calls.specs.Arguments.{AreInside};
ghost use Rattle.step_calls.specs.Starts.{lacks_room_in, EndsWithout, HaveArguments, Starts};

use crate::arguments::{Given, Places, hand_over, keeps_all, topmost};
use crate::callee::Callee;
use frame_parts::put_depth;
use step_ends::Acted;
use tiny_ram::Ram;

/// Whether the innermost frame has no room for what a method hands back, above so many values of its stack.
pub fn lacks_room(ram: &Ram, gives: bool, below: u32) -> bool
    ensures { (m : Memory) (f : RamFrame) (fs : List RamFrame) → Keeps ram.now m → m.frames ≡ f ∷ fs → result ≡ lacks_room_in f gives below }
{
    if !gives {
        return false;
    }
    let [_, _, stack, _] = ram.sizes(ram.top());
    stack <= below
}

/// How a call without cells ends: it lacks them only where all arguments are kept.
pub fn without_cells<P: Places>(ram: &Ram, places: &P, from: Given, n: u32) -> Acted
    ensures { (m : Memory) (f : RamFrame) → Keeps ram.now m → IsFrame m from.frame f → AreInside f from n → EndsWithout f (P.place places.now) from n result }
{
    if keeps_all(ram, places, from, n) {
        Acted::Spent
    } else {
        Acted::Stuck
    }
}

/// A frame of the method starts with its arguments, which leave the stack of the frame that calls.
pub fn start<P: Places>(ram: &mut Ram, callee: Callee, places: &P, from: Given) -> Acted
    ensures { (m : Memory) (f : RamFrame) (fs : List RamFrame) → Keeps ram.old m → m.frames ≡ f ∷ fs → HaveArguments m f callee from → Starts ram.new m f fs callee (P.place places.now) from result }
{
    let n = callee.sizes[0];
    match ram.frame(callee.method, callee.sizes) {
        Err(_) => without_cells(ram, places, from, n),
        Ok(to) => {
            if !hand_over(ram, places, from, to, n) {
                return Acted::Stuck;
            }
            put_depth(ram, from.frame, from.below);
            Acted::Done
        }
    }
}

/// `call` of a method with code, or of one without a body (ECMA-335 III.3.19).
pub fn call<P: Places>(ram: &mut Ram, callee: Callee, places: &P) -> Acted
    ensures { (p : Program) (outer : Id → ℕ → ℕ → Bool) (m : Memory) (s : State) (f : RamFrame) (fs : List RamFrame) (g : Frame) (gs : List Frame) (next : ℕ) (id : Id) → Before p outer ram.old m s f fs g gs → IsCallee p id callee → HasPlaces p id (P.place places.now) → Ends p outer m s ram.new (act p s g gs next (Call id)) result }
{
    if !callee.has_code {
        return Acted::Stuck;
    }
    let Some(from) = topmost(ram, callee.sizes[0]) else {
        return Acted::Stuck;
    };
    if lacks_room(ram, callee.gives, from.below) {
        return Acted::Stuck;
    }
    start(ram, callee, places, from)
}
