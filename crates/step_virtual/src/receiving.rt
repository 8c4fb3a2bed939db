//! The receiver of a virtual call.

ghost use Rattle.std.specs.Prelude.{◌≡◌, ◌<◌, ℕ, Bool, List, ◌∷◌};
ghost use Rattle.machine.specs.Data.{Id, Frame, State};
ghost use Rattle.machine.specs.Program.{Program, Method};
ghost use Rattle.tiny_ram.specs.Memory.{Memory, RamFrame};
ghost use Rattle.tiny_ram.specs.Region.{Keeps};
ghost use Rattle.step_ends.specs.Ends.{Before};
ghost use Rattle.step_calls.specs.Callees.{HasPlaces};
ghost use Rattle.step_calls.specs.Arguments.{IsGiven, KeepsAll};
ghost use Rattle.kept_arguments.specs.Kept.{IsOf};
ghost use Rattle.step_virtual.specs.Receivers.{receiver_by, Receives};

use board_types::value::Value;
use frame_parts::place;
use kept_values::keep;
use step_calls::{Given, Places, topmost, without_cells};
use step_ends::Acted;
use tiny_ram::Ram;

/// What `this` of a virtual call is.
#[derive(Clone, Copy, Debug, PartialEq, Eq)]
pub enum Receiver {
    /// No reference, or an argument is missing or isn't kept: the machine has no case.
    Nothing,
    /// Null: the call throws.
    Null,
    /// The thing of this number; the arguments lie there.
    Thing(Given, u32),
}

/// The receiver by what the place of `this` keeps.
fn this_of(kept: Option<Value>, from: Given) -> Receiver
    ensures { result ≡ receiver_by kept from }
{
    let Some(Value::Ref(thing)) = kept else {
        return Receiver::Nothing;
    };
    if thing == 0 {
        return Receiver::Null;
    }
    Receiver::Thing(from, thing)
}

/// Whether the places keep the n topmost values of the innermost frame's stack.
fn are_kept<P: Places>(ram: &Ram, places: &P, from: Given, n: u32) -> bool
    ensures { (m : Memory) (f : RamFrame) (fs : List RamFrame) → Keeps ram.now m → m.frames ≡ f ∷ fs → IsGiven m f n from → KeepsAll f (P.place places.now) from n result }
{
    match without_cells(ram, places, from, n) {
        Acted::Spent => true,
        Acted::Stuck => false,
        Acted::Done => false,
        Acted::Raises(_) => false,
    }
}

/// What `this` of a virtual call of a method of n arguments is.
pub fn find_receiver<P: Places>(ram: &Ram, places: &P, n: u32) -> Receiver
    ensures { (p : Program) (outer : Id → ℕ → ℕ → Bool) (m : Memory) (s : State) (f : RamFrame) (fs : List RamFrame) (g : Frame) (gs : List Frame) (next : ℕ) (id : Id) (of : Method) → Before p outer ram.now m s f fs g gs → IsOf p id of n → HasPlaces p id (P.place places.now) → Receives p m s f g gs next id of n result }
{
    if n == 0 {
        return Receiver::Nothing;
    }
    let Some(from) = topmost(ram, n) else {
        return Receiver::Nothing;
    };
    if !are_kept(ram, places, from, n) {
        return Receiver::Nothing;
    }
    this_of(
        keep(places.place(0), place(ram, from.frame, from.first)),
        from,
    )
}
