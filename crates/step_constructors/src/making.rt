//! Objects and their constructors.

ghost use Rattle.std.specs.Prelude.{◌≡◌, ◌-◌, ◌<◌, ℕ, Bool, List, ◌∷◌, slice_index};
ghost use Rattle.machine.specs.Data.{Id, Frame, State};
ghost use Rattle.machine.specs.Program.{Program, NewObject};
ghost use Rattle.machine.specs.Step.{act};
ghost use Rattle.tiny_ram.specs.Memory.{Memory, RamFrame};
ghost use Rattle.tiny_ram.specs.Region.{Keeps};
ghost use Rattle.step_ends.specs.Ends.{Before, Ends};
ghost use Rattle.step_calls.specs.Callees.{IsCallee, HasPlaces};
ghost use Rattle.step_calls.specs.Arguments.{IsGiven};
ghost use Rattle.step_constructors.specs.Made.{IsMade, Constructs};

use board_types::board::TypeAt;
use board_types::value::Value;
use frame_parts::{put_depth, put_place};
use step_calls::{Callee, Given, Places, lacks_room, start, topmost, without_cells};
use step_ends::Acted;
use tiny_ram::Ram;

/// A class of which an object is made.
#[derive(Clone, Copy, Debug, PartialEq, Eq)]
pub struct Made {
    pub class: TypeAt,
    /// How many fields its objects have, with the inherited ones.
    pub fields: u32,
}

/// A frame of the constructor starts, and the object lies on the stack of the frame that calls in place of the arguments.
fn construct<P: Places>(
    ram: &mut Ram,
    callee: Callee,
    places: &P,
    from: Given,
    object: u32,
) -> Acted
    ensures { (m : Memory) (f : RamFrame) (fs : List RamFrame) → Keeps ram.old m → m.frames ≡ f ∷ fs → IsGiven m f (slice_index callee.sizes 0 - 1) from → 0 < slice_index callee.sizes 0 → from.below < slice_index f.sizes 2 → Constructs ram.new m f fs callee (P.place places.now) from object result }
{
    let this = Value::Ref(object);
    let given = Given {
        frame: from.frame,
        first: from.first,
        below: from.below,
        this: Some(this),
    };
    match start(ram, callee, places, given) {
        Acted::Done => {
            put_place(ram, from.frame, from.first, this);
            put_depth(ram, from.frame, from.below.wrapping_add(1));
            Acted::Done
        }
        Acted::Stuck => Acted::Stuck,
        Acted::Spent => Acted::Spent,
        Acted::Raises(known) => Acted::Raises(known),
    }
}

/// `newobj` of a constructor with code, or of one without a body (ECMA-335 III.4.21).
pub fn new_object<P: Places>(ram: &mut Ram, made: Made, constructor: Callee, places: &P) -> Acted
    ensures { (p : Program) (outer : Id → ℕ → ℕ → Bool) (m : Memory) (s : State) (f : RamFrame) (fs : List RamFrame) (g : Frame) (gs : List Frame) (next : ℕ) (class id : Id) → Before p outer ram.old m s f fs g gs → IsMade p class made → IsCallee p id constructor → HasPlaces p id (P.place places.now) → Ends p outer m s ram.new (act p s g gs next (NewObject class id)) result }
{
    if !constructor.has_code {
        return Acted::Stuck;
    }
    let n = constructor.sizes[0];
    if n == 0 {
        return Acted::Stuck;
    }
    let Some(from) = topmost(ram, n - 1) else {
        return Acted::Stuck;
    };
    if lacks_room(ram, true, from.below) {
        return Acted::Stuck;
    }
    if lacks_room(ram, constructor.gives, from.below.wrapping_add(1)) {
        return Acted::Stuck;
    }
    let given = Given {
        frame: from.frame,
        first: from.first,
        below: from.below,
        this: Some(Value::Ref(1)),
    };
    match ram.object(made.class, made.fields) {
        Err(_) => without_cells(ram, places, given, n),
        Ok(object) => construct(ram, constructor, places, from, object),
    }
}
