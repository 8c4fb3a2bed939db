//! The frame goes on with a thing that is new.

ghost use Rattle.std.specs.Prelude.{ℕ, ◌∷◌, ◌<◌, Bool, List, slice_index};
ghost use Rattle.machine.specs.Data.{Id, end_of, Value as StackValue, Object, Thing, Frame, State};
ghost use Rattle.machine.specs.Program.{Program};
ghost use Rattle.machine.specs.Throw.{goes};
ghost use Rattle.tiny_ram.specs.declared.memory.Ram.{Ram};
ghost use Rattle.tiny_ram.specs.Things.{Entry};
ghost use Rattle.tiny_ram.specs.Memory.{RamFrame, Memory, with_frames};
ghost use Rattle.tiny_ram.specs.Region.{Made};
ghost use Rattle.memory_states.specs.Values.{IsThing};
ghost use Rattle.step_ends.specs.Ends.{Ends};
ghost use Rattle.step_operands.specs.Below.{Below, stacked};
ghost use Rattle.step_operands.specs.Changed.{with_thing};

use crate::stack::go_with;
use board_types::value::Value;
use step_ends::Acted;
use tiny_ram::{Ram, Spent};

/// Goes on with a thing that was made last on top of the stack, which has room for it; `Spent` where the thing's cells didn't do.
pub fn go_with_new(ram: &mut Ram, made: Result<u32, Spent>, next: u32) -> Acted
    ensures { (r : Ram) (p : Program) (outer : Id → ℕ → ℕ → Bool) (m : Memory) (s : State) (fs : List RamFrame) (gs : List Frame) (h : RamFrame) (g : Frame) (rest : List StackValue) (x : Thing) (e : Entry) → Below p outer r m s fs gs h (stacked g rest) → h.depth < slice_index h.sizes 2 → IsThing p m.room e x → Made r ram.old (with_frames m (h ∷ fs)) e made → Ends p outer m s ram.new (goes p (with_thing s x) g gs next (Object (end_of s.heap) ∷ rest)) result }
{
    match made {
        Err(_) => Acted::Spent,
        Ok(thing) => go_with(ram, Value::Ref(thing), next),
    }
}
