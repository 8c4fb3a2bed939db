//! Natives of `System.String`.

ghost use Rattle.std.specs.Prelude.{◌≡◌, ◌∷◌, ◌<◌, List, Option, length, slice_index, ℕ};
ghost use Rattle.machine.specs.Data.{Value as Seen};
ghost use Rattle.machine.specs.Texts.{compared_texts};
ghost use Rattle.machine.specs.Natives.{string_length, string_chars, string_equals, string_compare, texts_compared, debug_print};
ghost use Rattle.tiny_ops.specs.Operators.{stack_value};
ghost use Rattle.tiny_ram.specs.Memory.{Memory, IsEntry};
ghost use Rattle.tiny_ram.specs.Region.{Keeps};
ghost use Rattle.tiny_native.specs.Seen.{Scene, ValueNamed, Shows, text_entry};
ghost use Rattle.tiny_native.specs.Copies.{TextIs, IsText, number_order, unit_in_text};
ghost use Rattle.tiny_native.specs.Ends.{Meets};

use crate::ending::NativeEnd;
use crate::find::{Found, STRING, find, read};
use board_types::board::Known;
use board_types::value::Value;
use tiny_ram::Ram;

/// A string, or null as thing 0 without units.
#[derive(Clone, Copy)]
pub(crate) struct StringAt {
    pub thing: u32,
    pub count: u32,
}

/// How many units a string has.
pub(crate) fn length(ram: &Ram, this: Value) -> NativeEnd
    ensures { (c : Scene) (more : List Seen) → Shows c ram.now → ValueNamed c this → Meets c ram.now (string_length c.program c.state c.frame c.callers c.next c.rest (stack_value c.leads this ∷ more)) result }
{
    match find(ram, this, STRING) {
        Found::Null => NativeEnd::Throws(Known::NullReference),
        Found::Thing(_, shape) => NativeEnd::Gives(Some(Value::Int(shape.count.cast_signed()))),
        Found::Other => NativeEnd::NoCase,
    }
}

/// The unit of a string at an index.
fn unit_at(ram: &Ram, thing: u32, count: u32, index: i32) -> NativeEnd
    ensures { (c : Scene) (units : List ℕ) → Keeps ram.now c.memory → IsEntry c.memory thing (text_entry units) → count ≡ length units → Meets c ram.now (unit_in_text c index units) result }
{
    if index < 0 {
        return NativeEnd::Throws(Known::IndexOutOfRange);
    }
    let index = index.unsigned_abs();
    if index < count {
        NativeEnd::Gives(Some(read(ram, thing, index)))
    } else {
        NativeEnd::Throws(Known::IndexOutOfRange)
    }
}

/// The unit at an index.
pub(crate) fn chars(ram: &Ram, this: Value, index: Value) -> NativeEnd
    ensures { (c : Scene) (more : List Seen) → Shows c ram.now → ValueNamed c this → Meets c ram.now (string_chars c.program c.state c.frame c.callers c.next c.rest (stack_value c.leads this ∷ stack_value c.leads index ∷ more)) result }
{
    let Value::Int(index) = index else {
        return NativeEnd::NoCase;
    };
    match find(ram, this, STRING) {
        Found::Null => NativeEnd::Throws(Known::NullReference),
        Found::Thing(thing, shape) => unit_at(ram, thing, shape.count, index),
        Found::Other => NativeEnd::NoCase,
    }
}

/// The string that a value names, or null; none where it names no string.
pub(crate) fn text(ram: &Ram, value: Value) -> Option<StringAt>
    ensures { (c : Scene) → Keeps ram.now c.memory → ValueNamed c value → IsText c value result }
{
    match find(ram, value, STRING) {
        Found::Null => Some(StringAt { thing: 0, count: 0 }),
        Found::Thing(thing, shape) => Some(StringAt {
            thing,
            count: shape.count,
        }),
        Found::Other => None,
    }
}

/// A unit of a string.
#[inline(always)]
fn unit(ram: &Ram, thing: u32, index: u32) -> u32
    ensures { (m : Memory) (units : List ℕ) → Keeps ram.now m → IsEntry m thing (text_entry units) → index < length units → result ≡ slice_index units index }
{
    match read(ram, thing, index) {
        Value::Int(n) => n.cast_unsigned(),
        _ => 0,
    }
}

/// -1, 0 or 1, as the first number is below the second, the same, or above it.
#[inline(always)]
fn order(a: u32, b: u32) -> i32
    ensures { result ≡ number_order a b }
{
    if a < b {
        -1
    } else if b < a {
        1
    } else {
        0
    }
}

/// The order of two strings, by the first units that differ.
fn units_order(ram: &Ram, x: StringAt, y: StringAt) -> i32
    ensures { (m : Memory) (xs ys : List ℕ) → Keeps ram.now m → IsEntry m x.thing (text_entry xs) → IsEntry m y.thing (text_entry ys) → x.count ≡ length xs → y.count ≡ length ys → result ≡ compared_texts xs ys }
{
    let least = if x.count < y.count { x.count } else { y.count };
    for k in 0..least {
        let a = unit(ram, x.thing, k);
        let b = unit(ram, y.thing, k);
        if a != b {
            return order(a, b);
        }
    }
    order(x.count, y.count)
}

/// The order of two strings, where null is the first.
fn texts_order(ram: &Ram, x: StringAt, y: StringAt) -> i32
    ensures { (m : Memory) (a b : Option (List ℕ)) → Keeps ram.now m → TextIs m x.thing x.count a → TextIs m y.thing y.count b → result ≡ texts_compared a b }
{
    if x.thing == 0 {
        return order(0, y.thing);
    }
    if y.thing == 0 {
        return order(x.thing, 0);
    }
    units_order(ram, x, y)
}

/// Whether two strings have the same units; null is equal to null alone.
pub(crate) fn equals(ram: &Ram, a: Value, b: Value) -> NativeEnd
    ensures { (c : Scene) (more : List Seen) → Shows c ram.now → ValueNamed c a → ValueNamed c b → Meets c ram.now (string_equals c.program c.state c.frame c.callers c.next c.rest (stack_value c.leads a ∷ stack_value c.leads b ∷ more)) result }
{
    let Some(x) = text(ram, a) else {
        return NativeEnd::NoCase;
    };
    let Some(y) = text(ram, b) else {
        return NativeEnd::NoCase;
    };
    if texts_order(ram, x, y) == 0 {
        NativeEnd::Gives(Some(Value::Int(1)))
    } else {
        NativeEnd::Gives(Some(Value::Int(0)))
    }
}

/// The order of two strings by their units, -1, 0 or 1; null comes first.
pub(crate) fn compare(ram: &Ram, a: Value, b: Value) -> NativeEnd
    ensures { (c : Scene) (more : List Seen) → Shows c ram.now → ValueNamed c a → ValueNamed c b → Meets c ram.now (string_compare c.program c.state c.frame c.callers c.next c.rest (stack_value c.leads a ∷ stack_value c.leads b ∷ more)) result }
{
    let Some(x) = text(ram, a) else {
        return NativeEnd::NoCase;
    };
    let Some(y) = text(ram, b) else {
        return NativeEnd::NoCase;
    };
    NativeEnd::Gives(Some(Value::Int(texts_order(ram, x, y))))
}

/// The string that is printed as a line; null as an empty one.
pub(crate) fn print(ram: &Ram, value: Value) -> NativeEnd
    ensures { (c : Scene) (more : List Seen) → Shows c ram.now → ValueNamed c value → Meets c ram.now (debug_print c.program c.state c.frame c.callers c.next c.rest (stack_value c.leads value ∷ more)) result }
{
    match text(ram, value) {
        Some(text) => NativeEnd::Prints(text.thing),
        None => NativeEnd::NoCase,
    }
}
