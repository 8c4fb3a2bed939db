//! Numbers among the operands.

ghost use Rattle.std.specs.Int.{w32, cast_signed, cast_unsigned};
ghost use Rattle.std.specs.Prelude.{◌≡◌, ℕ, List, IfSome};
ghost use Rattle.machine.specs.Data.{Value as StackValue};
ghost use Rattle.machine.specs.Numbers.{as_int};
ghost use Rattle.tiny_ram.specs.Memory.{RamFrame};
ghost use Rattle.memory_states.specs.Values.{IsValue};

use board_types::value::Value;

/// An int32; none of another value.
pub fn int_of(value: Value) -> Option<i32>
    ensures value { (room : ℕ) (fs : List RamFrame) (v : StackValue) → IsValue room fs value v → as_int v ≡ result }
    ensures small { IfSome result (λ n. cast_signed w32 (cast_unsigned w32 n) ≡ n) }
{
    match value {
        Value::Int(n) => Some(n),
        Value::Long(_) | Value::Ref(_) | Value::Pointer(_) | Value::Handle(_) => None,
    }
}
