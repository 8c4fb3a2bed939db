//! Natives that make strings of strings and chars.

ghost use Rattle.std.specs.Prelude.{◌≡◌, ◌+◌, ◌^◌, ◌<◌, ◌≤◌, ◌++◌, ◌∷◌, [], ℕ, List, Option, length, map, unsigned_abs};
ghost use Rattle.cil_opcodes.specs.declared.shape.IntegerType.TheVariants.{U2};
ghost use Rattle.machine.specs.Data.{Bits, Value as Seen};
ghost use Rattle.machine.specs.Natives.{is_range, piece, or_empty, string_concat, string_substring, string_from_chars, string_from_char};
ghost use Rattle.ram_words.specs.Elements.{type_held};
ghost use Rattle.tiny_ops.specs.Operators.{stack_value};
ghost use Rattle.tiny_ram.specs.Things.{Entry, Packed, layout_of};
ghost use Rattle.tiny_ram.specs.Memory.{Memory, IsEntry};
ghost use Rattle.tiny_ram.specs.Region.{Keeps};
ghost use Rattle.tiny_native.specs.Seen.{Scene, ValueNamed, Shows, unit_place};
ghost use Rattle.tiny_native.specs.Texts.{MadeText};
ghost use Rattle.tiny_native.specs.Copies.{TextIs, IsRange, AllHaveKind, Copied, unit_in, is_wide, part_of};
ghost use Rattle.tiny_native.specs.Ends.{Meets};

use crate::copies::{Place, copy};
use crate::ending::NativeEnd;
use crate::find::{ARRAY, Found, STRING, find};
use crate::strings::{StringAt, text};
use crate::texts::{copied, new_string, put_unit};
use board_types::board::{BoardType, Known};
use board_types::value::Value;
use cil_opcodes::shape::IntegerType;
use ram_words::elements::{ElementKind, kind_of};
use tiny_ram::{Ram, Spent};

/// Places from one on.
#[derive(Clone, Copy)]
pub(crate) struct Span {
    pub start: u32,
    pub count: u32,
}

/// So many places from one on; none unless both numbers are at least 0 and the end is within so many places.
pub(crate) fn range(start: i32, count: i32, most: u32) -> Option<Span>
    ensures { IsRange most start count result }
{
    if start < 0 || count < 0 {
        return None;
    }
    let (start, count) = (start.unsigned_abs(), count.unsigned_abs());
    if start as u64 + count as u64 > most as u64 {
        None
    } else {
        Some(Span { start, count })
    }
}

/// Copies a text's units into a new string, from a place on.
fn put_text(ram: &mut Ram, text: StringAt, thing: u32, index: u32)
    requires { index + text.count < 2 ^ 32 }
    ensures { (m : Memory) (e : Entry) (a : Option (List ℕ)) → Keeps ram.old m → IsEntry m thing e → layout_of e.shape ≡ Packed (Bits U2) → TextIs m text.thing text.count a → index + text.count ≤ length e.places → Copied ram.new m thing e (Bits U2) (map unit_place (or_empty a)) 0 index 0 text.count }
{
    let from = Place {
        thing: text.thing,
        index: 0,
    };
    if text.count > 0 {
        copy(ram, from, Place { thing, index }, text.count);
    }
}

/// A new string of two strings' units; null as none.
fn joined(ram: &mut Ram, x: StringAt, y: StringAt) -> NativeEnd
    ensures { (m : Memory) (a b : Option (List ℕ)) → Keeps ram.old m → TextIs m x.thing x.count a → TextIs m y.thing y.count b → MadeText ram.new m (or_empty a ++ or_empty b) result }
{
    match new_string(ram, x.count as u64 + y.count as u64) {
        Ok(thing) => {
            put_text(ram, x, thing, 0);
            put_text(ram, y, thing, x.count);
            NativeEnd::Gives(Some(Value::Ref(thing)))
        }
        Err(Spent) => NativeEnd::Spent,
    }
}

/// The units of two strings one behind the other, in a new string; null is the empty text.
pub(crate) fn concat(ram: &mut Ram, a: Value, b: Value) -> NativeEnd
    ensures { (c : Scene) (more : List Seen) → Shows c ram.old → ValueNamed c a → ValueNamed c b → Meets c ram.new (string_concat c.program c.state c.frame c.callers c.next c.rest (stack_value c.leads a ∷ stack_value c.leads b ∷ more)) result }
{
    let Some(x) = text(ram, a) else {
        return NativeEnd::NoCase;
    };
    let Some(y) = text(ram, b) else {
        return NativeEnd::NoCase;
    };
    joined(ram, x, y)
}

/// A part of a string.
pub(crate) fn substring(ram: &mut Ram, this: Value, start: Value, count: Value) -> NativeEnd
    ensures { (c : Scene) (more : List Seen) → Shows c ram.old → ValueNamed c this → Meets c ram.new (string_substring c.program c.state c.frame c.callers c.next c.rest (stack_value c.leads this ∷ stack_value c.leads start ∷ stack_value c.leads count ∷ more)) result }
{
    let Value::Int(start) = start else {
        return NativeEnd::NoCase;
    };
    let Value::Int(count) = count else {
        return NativeEnd::NoCase;
    };
    match find(ram, this, STRING) {
        Found::Null => NativeEnd::Throws(Known::NullReference),
        Found::Thing(thing, shape) => part(ram, thing, start, count, shape.count),
        Found::Other => NativeEnd::NoCase,
    }
}

/// A new string of so many places from one on, where that is a range of so many.
fn part(ram: &mut Ram, thing: u32, start: i32, count: i32, most: u32) -> NativeEnd
    ensures { (c : Scene) (e : Entry) → Shows c ram.old → IsEntry c.memory thing e → most ≡ length e.places → AllHaveKind (Bits U2) e.places 0 most → Meets c ram.new (part_of c (is_range most start count) (map unit_in (piece (unsigned_abs start) (unsigned_abs count) e.places))) result }
{
    match range(start, count, most) {
        Some(range) => {
            let from = Place {
                thing,
                index: range.start,
            };
            copied(ram, from, range.count)
        }
        None => NativeEnd::Throws(Known::ArgumentOutOfRange),
    }
}

/// Whether elements of the type are as wide as chars.
fn has_chars(of: BoardType) -> bool
    ensures { result ≡ is_wide (type_held of) }
{
    matches!(
        kind_of(of),
        Some(ElementKind::Number(IntegerType::I2 | IntegerType::U2))
    )
}

/// A new string of chars of an array.
pub(crate) fn from_chars(ram: &mut Ram, array: Value, start: Value, count: Value) -> NativeEnd
    ensures { (c : Scene) (more : List Seen) → Shows c ram.old → ValueNamed c array → Meets c ram.new (string_from_chars c.program c.state c.frame c.callers c.next c.rest (stack_value c.leads array ∷ stack_value c.leads start ∷ stack_value c.leads count ∷ more)) result }
{
    let Value::Int(start) = start else {
        return NativeEnd::NoCase;
    };
    let Value::Int(count) = count else {
        return NativeEnd::NoCase;
    };
    match find(ram, array, ARRAY) {
        Found::Null => NativeEnd::Throws(Known::ArgumentNull),
        Found::Thing(thing, shape) => {
            if has_chars(shape.of) {
                part(ram, thing, start, count, shape.count)
            } else {
                NativeEnd::NoCase
            }
        }
        Found::Other => NativeEnd::NoCase,
    }
}

/// A new string of one unit.
fn single(ram: &mut Ram, unit: u16) -> NativeEnd
    ensures { (m : Memory) → Keeps ram.old m → MadeText ram.new m (unit ∷ []) result }
{
    match new_string(ram, 1) {
        Ok(thing) => {
            put_unit(ram, thing, 0, unit);
            NativeEnd::Gives(Some(Value::Ref(thing)))
        }
        Err(Spent) => NativeEnd::Spent,
    }
}

/// A new string of a char.
pub(crate) fn from_char(ram: &mut Ram, char: Value) -> NativeEnd
    ensures { (c : Scene) (more : List Seen) → Shows c ram.old → Meets c ram.new (string_from_char c.program c.state c.frame c.callers c.next c.rest (stack_value c.leads char ∷ more)) result }
{
    match char {
        Value::Int(n) => single(ram, (n.cast_unsigned() % 0x1_0000) as u16),
        _ => NativeEnd::NoCase,
    }
}
