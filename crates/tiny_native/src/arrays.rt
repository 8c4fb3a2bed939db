//! Natives of arrays.

ghost use Rattle.std.specs.Prelude.{◌≡◌, ◌+◌, ◌∷◌, ◌||◌, nat_lt, List};
ghost use Rattle.board_types.specs.declared.board.Known.TheVariants.{ArgumentNull};
ghost use Rattle.machine.specs.Numbers.{is_negative};
ghost use Rattle.machine.specs.Throw.{raise};
ghost use Rattle.tiny_ram.specs.Things.{Entry};
ghost use Rattle.tiny_native.specs.Copies.{IsElements, places_copied, elements_copied, copied_onto};
ghost use Rattle.machine.specs.Data.{Value as Seen};
ghost use Rattle.machine.specs.Natives.{on_array_or_null, array_length, array_copy};
ghost use Rattle.tiny_ops.specs.Operators.{stack_value};
ghost use Rattle.tiny_native.specs.Seen.{Scene, ValueNamed, Shows};
ghost use Rattle.tiny_native.specs.Ends.{Meets};

use crate::copies::{self, Place};
use crate::ending::NativeEnd;
use crate::find::{ARRAY, Found, find, same_type};
use board_types::board::Known;
use board_types::value::{Shape, Value};
use tiny_ram::Ram;

/// How many elements an array has.
pub(crate) fn length(ram: &Ram, this: Value) -> NativeEnd
    ensures { (c : Scene) (more : List Seen) → Shows c ram.now → ValueNamed c this → Meets c ram.now (array_length c.program c.state c.frame c.callers c.next c.rest (stack_value c.leads this ∷ more)) result }
{
    match find(ram, this, ARRAY) {
        Found::Null => NativeEnd::Throws(Known::NullReference),
        Found::Thing(_, shape) => NativeEnd::Gives(Some(Value::Int(shape.count.cast_signed()))),
        Found::Other => NativeEnd::NoCase,
    }
}

/// An array by its number, and what it is.
#[derive(Clone, Copy)]
pub(crate) struct ArrayAt {
    pub thing: u32,
    pub shape: Shape,
}

/// From where to where, and how many elements.
#[derive(Clone, Copy)]
pub(crate) struct Move {
    pub from: i32,
    pub to: i32,
    pub count: i32,
}

/// Whether one of two ranges goes past the end of its array.
fn passes(source: Shape, target: Shape, from: u32, to: u32, count: u32) -> bool
    ensures { result ≡ (nat_lt source.count (from + count) || nat_lt target.count (to + count)) }
{
    from as u64 + count as u64 > source.count as u64
        || to as u64 + count as u64 > target.count as u64
}

/// Copies so many elements from one on to others from one on, where both arrays have them.
fn copy_places(
    ram: &mut Ram,
    source: ArrayAt,
    target: ArrayAt,
    from: u32,
    to: u32,
    count: u32,
) -> NativeEnd
    ensures { (c : Scene) (d e : Entry) → Shows c ram.old → IsElements c source d → IsElements c target e → d.shape.of ≡ e.shape.of → Meets c ram.new (places_copied c target.thing d e from to count) result }
{
    if passes(source.shape, target.shape, from, to, count) {
        return NativeEnd::Throws(Known::Argument);
    }
    let first = Place {
        thing: source.thing,
        index: from,
    };
    let onto = Place {
        thing: target.thing,
        index: to,
    };
    copies::copy(ram, first, onto, count);
    NativeEnd::Gives(None)
}

/// Whether one of the numbers is negative.
fn has_negative(by: Move) -> bool
    ensures { result ≡ (is_negative by.from || (is_negative by.to || is_negative by.count)) }
{
    by.from < 0 || (by.to < 0 || by.count < 0)
}

/// Copies elements of an array into another of the same type.
fn copy_same(ram: &mut Ram, source: ArrayAt, target: ArrayAt, by: Move) -> NativeEnd
    ensures { (c : Scene) (d e : Entry) → Shows c ram.old → IsElements c source d → IsElements c target e → d.shape.of ≡ e.shape.of → Meets c ram.new (elements_copied c target.thing d e by.from by.to by.count) result }
{
    if has_negative(by) {
        return NativeEnd::Throws(Known::ArgumentOutOfRange);
    }
    let (from, to, count) = (
        by.from.unsigned_abs(),
        by.to.unsigned_abs(),
        by.count.unsigned_abs(),
    );
    copy_places(ram, source, target, from, to, count)
}

/// Copies elements of an array into another, which is to be of the same type.
fn copy_elements(ram: &mut Ram, source: ArrayAt, target: ArrayAt, by: Move) -> NativeEnd
    ensures { (c : Scene) (d e : Entry) → Shows c ram.old → IsElements c source d → IsElements c target e → Meets c ram.new (elements_copied c target.thing d e by.from by.to by.count) result }
{
    if same_type(source.shape.of, target.shape.of) {
        copy_same(ram, source, target, by)
    } else {
        NativeEnd::Throws(Known::ArrayTypeMismatch)
    }
}

/// Copies elements of an array into what a value names.
fn copy_to(ram: &mut Ram, source: ArrayAt, target: Value, by: Move) -> NativeEnd
    ensures { (c : Scene) (d : Entry) → Shows c ram.old → IsElements c source d → ValueNamed c target → Meets c ram.new (copied_onto c (stack_value c.leads target) d by.from by.to by.count) result }
{
    match find(ram, target, ARRAY) {
        Found::Null => NativeEnd::Throws(Known::ArgumentNull),
        Found::Thing(thing, shape) => copy_elements(ram, source, ArrayAt { thing, shape }, by),
        Found::Other => NativeEnd::NoCase,
    }
}

/// The end of a copy from null, by what it is to go to.
fn copy_from_null(ram: &Ram, target: Value) -> NativeEnd
    ensures { (c : Scene) → Shows c ram.now → ValueNamed c target → Meets c ram.now (on_array_or_null c.state.heap (stack_value c.leads target) (raise c.program c.state ArgumentNull)) result }
{
    match find(ram, target, ARRAY) {
        Found::Null => NativeEnd::Throws(Known::ArgumentNull),
        Found::Thing(_, _) => NativeEnd::Throws(Known::ArgumentNull),
        Found::Other => NativeEnd::NoCase,
    }
}

/// Copies elements of an array into another, as if all were read before the first is written.
pub(crate) fn copy(
    ram: &mut Ram,
    source: Value,
    from: Value,
    target: Value,
    to: Value,
    count: Value,
) -> NativeEnd
    ensures { (c : Scene) (more : List Seen) → Shows c ram.old → ValueNamed c source → ValueNamed c target → Meets c ram.new (array_copy c.program c.state c.frame c.callers c.next c.rest (stack_value c.leads source ∷ stack_value c.leads from ∷ stack_value c.leads target ∷ stack_value c.leads to ∷ stack_value c.leads count ∷ more)) result }
{
    let Value::Int(from) = from else {
        return NativeEnd::NoCase;
    };
    let Value::Int(to) = to else {
        return NativeEnd::NoCase;
    };
    let Value::Int(count) = count else {
        return NativeEnd::NoCase;
    };
    match find(ram, source, ARRAY) {
        Found::Null => copy_from_null(ram, target),
        Found::Thing(thing, shape) => {
            copy_to(
                ram,
                ArrayAt { thing, shape },
                target,
                Move { from, to, count },
            )
        }
        Found::Other => NativeEnd::NoCase,
    }
}
