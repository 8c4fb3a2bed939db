//! Frames of initialisers.

ghost use Rattle.std.specs.Prelude.{◌≡◌, ℕ, Bool};
ghost use Rattle.machine.specs.Data.{Id, State};
ghost use Rattle.machine.specs.Program.{Program, Initialiser};
ghost use Rattle.machine.specs.Calls as machine;
ghost use Rattle.tiny_ram.specs.Memory.{Memory};
ghost use Rattle.tiny_ram.specs.Region.{Keeps};
ghost use Rattle.memory_states.specs.States.{StandsFor};
ghost use Rattle.step_ends.specs.Ends.{Ends};
ghost use Rattle.step_calls.specs.Callees.{IsCallee};

use frame_parts::mark_initialiser;
use step_calls::Callee;
use step_ends::Acted;
use tiny_ram::Ram;

/// Starts a class: a frame of its initialiser starts (ECMA-335 II.10.5.3). That the class has been started is told beside the region.
pub fn start_class(ram: &mut Ram, callee: Callee) -> Acted
    ensures { (p : Program) (outer : Id → ℕ → ℕ → Bool) (m : Memory) (s : State) (i : Initialiser) → Keeps ram.old m → StandsFor p outer m s → IsCallee p i.method callee → Ends p outer m s ram.new (machine.start_class p s i) result }
{
    if !callee.has_code {
        return Acted::Stuck;
    }
    if callee.sizes[0] != 0 {
        return Acted::Stuck;
    }
    match ram.frame(callee.method, callee.sizes) {
        Err(_) => Acted::Spent,
        Ok(frame) => {
            mark_initialiser(ram, frame);
            Acted::Done
        }
    }
}
