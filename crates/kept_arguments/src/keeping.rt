//! Arguments are kept in place.

ghost use Rattle.std.specs.Prelude.{◌≡◌, ◌+◌, ◌<◌, ◌≤◌, ℕ, Bool, List, ◌∷◌, length, sum};
ghost use Rattle.machine.specs.Data.{Id, Frame, State};
ghost use Rattle.machine.specs.Program.{Program, Method};
ghost use Rattle.tiny_ram.specs.Memory.{Memory, RamFrame, innermost};
ghost use Rattle.tiny_ram.specs.Region.{Keeps};
ghost use Rattle.step_ends.specs.Ends.{Before};
ghost use Rattle.step_calls.specs.Callees.{HasPlaces};
ghost use Rattle.step_calls.specs.Arguments.{IsGiven};
ghost use Rattle.kept_arguments.specs.Kept.{KeepsHere, KeepsInPlace, KeepsArguments, IsOf};

use frame_parts::{place, put_place};
use kept_values::{PlaceKind, keep};
use step_calls::{Given, Places};
use tiny_ram::Ram;

/// Keeps the value of a place of the innermost frame as a place of the kind does. False where it doesn't keep it.
fn keep_one(ram: &mut Ram, kind: PlaceKind, frame: u32, at: u32) -> bool
    ensures { (m : Memory) (f : RamFrame) (fs : List RamFrame) → Keeps ram.old m → m.frames ≡ f ∷ fs → frame ≡ innermost m.room m.frames → at < sum f.sizes → KeepsHere ram.new m f fs kind at result }
{
    match keep(kind, place(ram, frame, at)) {
        None => false,
        Some(kept) => {
            put_place(ram, frame, at, kept);
            true
        }
    }
}

/// Keeps the first n arguments in place. False where a place doesn't keep its one.
fn keep_in_place<P: Places>(ram: &mut Ram, places: &P, from: Given, n: u32) -> bool
    ensures { (m : Memory) (f : RamFrame) (fs : List RamFrame) → Keeps ram.old m → m.frames ≡ f ∷ fs → from.frame ≡ innermost m.room m.frames → from.first + n ≤ sum f.sizes → sum f.sizes ≤ 4194304 → length f.places ≡ sum f.sizes → KeepsInPlace ram.new m f fs (P.place places.now) from.first n result }
{
    for i in 0..n {
        if !keep_one(ram, places.place(i), from.frame, from.first.wrapping_add(i)) {
            return false;
        }
    }
    true
}

/// Keeps the n topmost values of the innermost frame's stack as a method's places keep its arguments. False where one of them isn't
/// kept.
pub fn keep_arguments<P: Places>(ram: &mut Ram, places: &P, from: Given, n: u32) -> bool
    ensures { (p : Program) (outer : Id → ℕ → ℕ → Bool) (m : Memory) (s : State) (f : RamFrame) (fs : List RamFrame) (g : Frame) (gs : List Frame) (id : Id) (of : Method) → Before p outer ram.old m s f fs g gs → IsGiven m f n from → IsOf p id of n → HasPlaces p id (P.place places.now) → KeepsArguments p outer ram.new m s f fs g gs of from result }
{
    keep_in_place(ram, places, from, n)
}
