//! Natives of `System.Number`.

ghost use Rattle.std.specs.Prelude.{◌≡◌, ◌∷◌, List, decimal, ℕ};
ghost use Rattle.std.specs.Fmt.{signed_decimal};
ghost use Rattle.machine.specs.Data.{Value as Seen};
ghost use Rattle.machine.specs.Natives.{number_signed, number_unsigned};
ghost use Rattle.tiny_ops.specs.Operators.{stack_value};
ghost use Rattle.tiny_ram.specs.Memory.{Memory};
ghost use Rattle.tiny_ram.specs.Region.{Keeps};
ghost use Rattle.tiny_native.specs.Seen.{Scene, Shows};
ghost use Rattle.tiny_native.specs.Texts.{MadeText};
ghost use Rattle.tiny_native.specs.Ends.{Meets};

use crate::ending::NativeEnd;
use crate::texts::ascii;
use board_types::value::Value;
use itoa::Buffer;
use tiny_ram::Ram;

/// A new string of a number's decimal text.
pub(crate) fn signed_text(ram: &mut Ram, n: i64) -> NativeEnd
    ensures { (m : Memory) → Keeps ram.old m → MadeText ram.new m (signed_decimal n) result }
{
    let mut buffer = Buffer::new();
    ascii(ram, buffer.format(n).as_bytes())
}

/// The same of a number without a sign.
pub(crate) fn unsigned_text(ram: &mut Ram, n: u64) -> NativeEnd
    ensures { (m : Memory) → Keeps ram.old m → MadeText ram.new m (decimal n) result }
{
    let mut buffer = Buffer::new();
    ascii(ram, buffer.format(n).as_bytes())
}

/// The decimal text of an int64.
pub(crate) fn signed(ram: &mut Ram, value: Value) -> NativeEnd
    ensures { (c : Scene) (more : List Seen) → Shows c ram.old → Meets c ram.new (number_signed c.program c.state c.frame c.callers c.next c.rest (stack_value c.leads value ∷ more)) result }
{
    match value {
        Value::Long(n) => signed_text(ram, n),
        _ => NativeEnd::NoCase,
    }
}

/// The decimal text of an int64 as an unsigned number.
pub(crate) fn unsigned(ram: &mut Ram, value: Value) -> NativeEnd
    ensures { (c : Scene) (more : List Seen) → Shows c ram.old → Meets c ram.new (number_unsigned c.program c.state c.frame c.callers c.next c.rest (stack_value c.leads value ∷ more)) result }
{
    match value {
        Value::Long(n) => unsigned_text(ram, n.cast_unsigned()),
        _ => NativeEnd::NoCase,
    }
}
