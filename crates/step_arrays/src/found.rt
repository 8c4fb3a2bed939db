//! Things that are arrays.

ghost use Rattle.std.specs.Prelude.{◌≡◌, ℕ, List};
ghost use Rattle.machine.specs.Data.{Thing};
ghost use Rattle.machine.specs.Program.{Program};
ghost use Rattle.tiny_ram.specs.Things.{Entry};
ghost use Rattle.tiny_ram.specs.Memory.{Memory, IsEntry};
ghost use Rattle.tiny_ram.specs.Region.{Keeps};
ghost use Rattle.memory_states.specs.Values.{IsThing};
ghost use Rattle.step_arrays.specs.Arrays.{array_in};

use board_types::board::BoardType;
use tiny_ram::Ram;

/// An array: the type of its elements, and how many it has.
#[derive(Clone, Copy, Debug, PartialEq, Eq)]
pub struct Array {
    pub of: BoardType,
    pub count: u32,
}

/// The thing as an array; none where it is no array.
pub fn array_of(ram: &Ram, thing: u32) -> Option<Array>
    ensures { (m : Memory) (e : Entry) → Keeps ram.now m → IsEntry m thing e → result ≡ array_in e.shape }
{
    let shape = ram.shape(thing);
    if shape.what == 1 {
        Some(Array {
            of: shape.of,
            count: shape.count,
        })
    } else {
        None
    }
}
