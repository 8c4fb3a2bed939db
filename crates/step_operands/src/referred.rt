//! References.

ghost use Rattle.std.specs.Prelude.{ℕ, List};
ghost use Rattle.machine.specs.Data.{Value as StackValue};
ghost use Rattle.tiny_ram.specs.Memory.{RamFrame};
ghost use Rattle.memory_states.specs.Values.{IsValue};
ghost use Rattle.step_operands.specs.Named.{Refers};

use board_types::value::Value;

/// What a value names.
#[derive(Clone, Copy, Debug, PartialEq, Eq)]
pub enum Referred {
    Null,
    /// The thing of this number.
    Thing(u32),
    /// Nothing: it is no reference.
    Nothing,
}

/// What a value of the stack names.
#[inline(always)]
pub fn named(value: Value) -> Referred
    ensures { (room : ℕ) (fs : List RamFrame) (v : StackValue) → IsValue room fs value v → Refers result v }
{
    match value {
        Value::Ref(0) => Referred::Null,
        Value::Ref(thing) => Referred::Thing(thing),
        Value::Int(_) | Value::Long(_) | Value::Pointer(_) | Value::Handle(_) => Referred::Nothing,
    }
}
