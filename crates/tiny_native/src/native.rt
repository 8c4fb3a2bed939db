//! The call of a native by its number.

ghost use Rattle.std.specs.Prelude.{◌≡◌, ◌≢◌, ◌∷◌, List, MatchOption, ℕ};
ghost use Rattle.machine.specs.Data.{Value as Seen};
ghost use Rattle.machine.specs.Program.{NativeName, native_number};
ghost use Rattle.tiny_ops.specs.Operators.{stack_value};
ghost use Rattle.tiny_native.specs.Seen.{Scene, ValueNamed, AllNamed, ValueTold, Told, Shows};
ghost use Rattle.tiny_native.specs.Names.{native_name, one_name, two_name, three_name};
ghost use Rattle.tiny_native.specs.Ends.{Meets, native_by, native_in};
ghost use Rattle.tiny_native.specs.declared.ending.NativeEnd.TheVariants.{NoCase};
ghost use Rattle.tiny_ram.specs.Memory.{Memory};
ghost use Rattle.tiny_ram.specs.Region.{Keeps};

use crate::ending::NativeEnd;
use crate::{arrays, fields, names, numbers, objects, pieces, strings};
use board_types::subclass::Subclass;
use board_types::value::Value;
use tiny_ram::Ram;

/// A native of one argument.
#[derive(Clone, Copy)]
pub enum OfOne {
    ObjectToString,
    EnumToString,
    ArrayLength,
    StringLength,
    StringFromChar,
    NumberSigned,
    NumberUnsigned,
    DebugPrint,
}

/// A native of two arguments.
#[derive(Clone, Copy)]
pub enum OfTwo {
    EnumEquals,
    StringChars,
    StringConcat,
    StringEquals,
    StringCompare,
    InitializeArray,
}

/// A native of three arguments.
#[derive(Clone, Copy)]
pub enum OfThree {
    StringSubstring,
    StringFromChars,
}

/// A native by the number of its arguments.
#[derive(Clone, Copy)]
pub enum Native {
    One(OfOne),
    Two(OfTwo),
    Three(OfThree),
    /// `Array.Copy`, which has five.
    Copy,
}

/// The native of a number, and `None` exactly outside 1 to 17.
fn numbered(number: u16) -> Option<Native>
    ensures { MatchOption result ((name : NativeName) → native_number name ≢ number) (λ n. native_number (native_name n) ≡ number) }
{
    match number {
        1 => Some(Native::One(OfOne::ObjectToString)),
        2 => Some(Native::Two(OfTwo::EnumEquals)),
        3 => Some(Native::One(OfOne::EnumToString)),
        4 => Some(Native::One(OfOne::ArrayLength)),
        5 => Some(Native::Copy),
        6 => Some(Native::One(OfOne::StringLength)),
        7 => Some(Native::Two(OfTwo::StringChars)),
        8 => Some(Native::Two(OfTwo::StringConcat)),
        9 => Some(Native::Three(OfThree::StringSubstring)),
        10 => Some(Native::Two(OfTwo::StringEquals)),
        11 => Some(Native::Two(OfTwo::StringCompare)),
        12 => Some(Native::Three(OfThree::StringFromChars)),
        13 => Some(Native::One(OfOne::StringFromChar)),
        14 => Some(Native::One(OfOne::NumberSigned)),
        15 => Some(Native::One(OfOne::NumberUnsigned)),
        16 => Some(Native::Two(OfTwo::InitializeArray)),
        17 => Some(Native::One(OfOne::DebugPrint)),
        _ => None,
    }
}

/// Calls a native of one argument.
fn of_one<S: Subclass>(ram: &mut Ram, types: &S, native: OfOne, a: Value) -> NativeEnd
    ensures { (c : Scene) (more : List Seen) → Shows c ram.old → ValueNamed c a → ValueTold c (S.name types.now) (S.bytes types.now) (one_name native) a → Meets c ram.new (native_by c (one_name native) (stack_value c.leads a ∷ more)) result }
{
    match native {
        OfOne::ObjectToString => names::to_string(ram, types, a),
        OfOne::EnumToString => objects::enum_to_string(ram, a),
        OfOne::ArrayLength => arrays::length(ram, a),
        OfOne::StringLength => strings::length(ram, a),
        OfOne::StringFromChar => pieces::from_char(ram, a),
        OfOne::NumberSigned => numbers::signed(ram, a),
        OfOne::NumberUnsigned => numbers::unsigned(ram, a),
        OfOne::DebugPrint => strings::print(ram, a),
    }
}

/// Calls a native of two arguments.
fn of_two<S: Subclass>(ram: &mut Ram, types: &S, native: OfTwo, a: Value, b: Value) -> NativeEnd
    ensures { (c : Scene) (more : List Seen) → Shows c ram.old → ValueNamed c a → ValueNamed c b → ValueTold c (S.name types.now) (S.bytes types.now) (two_name native) b → Meets c ram.new (native_by c (two_name native) (stack_value c.leads a ∷ stack_value c.leads b ∷ more)) result }
{
    match native {
        OfTwo::EnumEquals => objects::enum_equals(ram, a, b),
        OfTwo::StringChars => strings::chars(ram, a, b),
        OfTwo::StringConcat => pieces::concat(ram, a, b),
        OfTwo::StringEquals => strings::equals(ram, a, b),
        OfTwo::StringCompare => strings::compare(ram, a, b),
        OfTwo::InitializeArray => fields::initialize(ram, types, a, b),
    }
}

/// Calls a native of three arguments.
fn of_three(ram: &mut Ram, native: OfThree, a: Value, b: Value, d: Value) -> NativeEnd
    ensures { (c : Scene) (more : List Seen) → Shows c ram.old → ValueNamed c a → Meets c ram.new (native_by c (three_name native) (stack_value c.leads a ∷ stack_value c.leads b ∷ stack_value c.leads d ∷ more)) result }
{
    match native {
        OfThree::StringSubstring => pieces::substring(ram, a, b, d),
        OfThree::StringFromChars => pieces::from_chars(ram, a, b, d),
    }
}

/// Calls a native with its arguments, where there are enough.
fn with_arguments<S: Subclass>(
    ram: &mut Ram,
    types: &S,
    native: Native,
    args: &[Value],
) -> NativeEnd
    ensures { (c : Scene) → Shows c ram.old → AllNamed c args.now → Told c (S.name types.now) (S.bytes types.now) (native_name native) args.now → Meets c ram.new (native_in c (native_name native) args.now) result }
{
    match native {
        Native::One(native) => match args {
            [a, ..] => of_one(ram, types, native, *a),
            _ => NativeEnd::NoCase,
        },
        Native::Two(native) => match args {
            [a, b, ..] => of_two(ram, types, native, *a, *b),
            _ => NativeEnd::NoCase,
        },
        Native::Three(native) => match args {
            [a, b, d, ..] => of_three(ram, native, *a, *b, *d),
            _ => NativeEnd::NoCase,
        },
        Native::Copy => match args {
            [source, from, target, to, count, ..] => {
                arrays::copy(ram, *source, *from, *target, *to, *count)
            }
            _ => NativeEnd::NoCase,
        },
    }
}

/// Calls the native of a number, an internal call (ECMA-335 II.15.4.3), with its arguments, the first one first; more than it takes
/// are not looked at. The names of types and the bytes of data fields are those that `types` tells. `Spent` comes exactly where the
/// cells of its new string are more than there are, and after all else was looked at; then, and at an exception, and at `NoCase`,
/// the memory is as before. `NoCase` comes exactly where the machine has no case, and for each number outside 1 to 17.
pub fn call<S: Subclass>(ram: &mut Ram, types: &S, number: u16, args: &[Value]) -> NativeEnd
    ensures native { (c : Scene) (name : NativeName) → native_number name ≡ number → Shows c ram.old → AllNamed c args.now → Told c (S.name types.now) (S.bytes types.now) name args.now → Meets c ram.new (native_in c name args.now) result }
    ensures none { (m : Memory) → ((name : NativeName) → native_number name ≢ number) → Keeps ram.old m → (result ≡ NoCase) × Keeps ram.new m }
{
    match numbered(number) {
        Some(native) => with_arguments(ram, types, native, args),
        None => NativeEnd::NoCase,
    }
}
