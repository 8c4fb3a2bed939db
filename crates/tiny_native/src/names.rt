//! The name of what an object is.

ghost use Rattle.std.specs.Prelude.{◌≡◌, ◌+◌, ◌∷◌, ◌^◌, ◌<◌, ◌≤◌, Bool, List, length, slice_index};
ghost use Rattle.machine.specs.Data.{Value as Seen};
ghost use Rattle.machine.specs.Program.{ObjectToString};
ghost use Rattle.machine.specs.Natives.{object_to_string};
ghost use Rattle.tiny_ops.specs.Operators.{stack_value};
ghost use Rattle.tiny_ram.specs.Memory.{Memory};
ghost use Rattle.tiny_ram.specs.Region.{Keeps};
ghost use Rattle.tiny_native.specs.Seen.{Scene, ValueNamed, ValueTold, Shows};
ghost use Rattle.tiny_native.specs.Texts.{MadeText, Written};
ghost use Rattle.tiny_native.specs.Told.{bracketed};
ghost use Rattle.tiny_native.specs.Ends.{Meets};

use crate::ending::NativeEnd;
use crate::find::{ARRAY, STATIC};
use crate::texts::{new_string, put_unit};
use board_types::board::{BoardType, Known};
use board_types::subclass::Subclass;
use board_types::value::Value;
use tiny_ram::{Ram, Spent};

/// More units than a string of any memory has.
const MOST: u32 = 0x200_0001;

/// How many units the full name of a type has, at most `MOST`.
fn name_length<S: Subclass>(types: &S, of: BoardType) -> u32
    ensures short { result ≤ 2 ^ 25 → result ≡ length (S.name types.now of) }
    ensures least { result ≤ length (S.name types.now of) }
    ensures most { result ≤ 2 ^ 25 + 1 }
{
    for k in 0..MOST {
        match types.name_unit(of, k) {
            Some(_) => {}
            None => return k,
        }
    }
    MOST
}

/// The same with the brackets of an array.
fn text_length<S: Subclass>(types: &S, of: BoardType, array: bool) -> u32
    ensures short { result ≤ 2 ^ 25 → result ≡ length (bracketed array (S.name types.now of)) }
    ensures least { result ≤ length (bracketed array (S.name types.now of)) }
{
    let length = name_length(types, of);
    if array { length + 2 } else { length }
}

/// A unit of a type's full name, and of an array's brackets behind it.
#[inline(always)]
fn unit<S: Subclass>(types: &S, of: BoardType, count: u32, k: u32) -> u16
    requires { k < count }
    ensures { (array : Bool) → count ≡ length (bracketed array (S.name types.now of)) → result ≡ slice_index (bracketed array (S.name types.now of)) k }
{
    match types.name_unit(of, k) {
        Some(unit) => unit,
        None => {
            if k + 1 == count {
                u16::from(b']')
            } else {
                u16::from(b'[')
            }
        }
    }
}

/// Puts the units of a type's full name, and of an array's brackets, into a new string.
fn put_name<S: Subclass>(ram: &mut Ram, types: &S, of: BoardType, thing: u32, count: u32)
    ensures { (m : Memory) (array : Bool) → count ≡ length (bracketed array (S.name types.now of)) → Written ram.old m (bracketed array (S.name types.now of)) thing count 0 → Written ram.new m (bracketed array (S.name types.now of)) thing count count }
{
    for k in 0..count {
        put_unit(ram, thing, k, unit(types, of, count, k));
    }
}

/// A new string of a type's full name, and of an array's brackets.
fn name_text<S: Subclass>(ram: &mut Ram, types: &S, of: BoardType, array: bool) -> NativeEnd
    ensures { (m : Memory) → Keeps ram.old m → MadeText ram.new m (bracketed array (S.name types.now of)) result }
{
    let count = text_length(types, of, array);
    match new_string(ram, count as u64) {
        Ok(thing) => {
            put_name(ram, types, of, thing, count);
            NativeEnd::Gives(Some(Value::Ref(thing)))
        }
        Err(Spent) => NativeEnd::Spent,
    }
}

/// The full name of what an object is, in a new string; an array's is its element's with brackets.
pub(crate) fn to_string<S: Subclass>(ram: &mut Ram, types: &S, this: Value) -> NativeEnd
    ensures { (c : Scene) (more : List Seen) → Shows c ram.old → ValueNamed c this → ValueTold c (S.name types.now) (S.bytes types.now) ObjectToString this → Meets c ram.new (object_to_string c.program c.state c.frame c.callers c.next c.rest (stack_value c.leads this ∷ more)) result }
{
    let Value::Ref(thing) = this else {
        return NativeEnd::NoCase;
    };
    if thing == 0 {
        return NativeEnd::Throws(Known::NullReference);
    }
    let shape = ram.shape(thing);
    if shape.what == STATIC {
        return NativeEnd::NoCase;
    }
    name_text(ram, types, shape.of, shape.what == ARRAY)
}
