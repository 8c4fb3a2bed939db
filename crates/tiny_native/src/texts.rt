//! New strings.

ghost use Rattle.std.specs.Prelude.{◌≡◌, ◌+◌, ◌-◌, ◌^◌, ◌<◌, ◌≤◌, ℕ, List, IfOk, length, map, slice_index};
ghost use Rattle.cil_opcodes.specs.declared.shape.IntegerType.TheVariants.{U2};
ghost use Rattle.machine.specs.Data.{Bits};
ghost use Rattle.machine.specs.Natives.{piece};
ghost use Rattle.tiny_ram.specs.Things.{Entry, fresh, string_shape};
ghost use Rattle.tiny_ram.specs.Memory.{Memory, IsEntry};
ghost use Rattle.tiny_ram.specs.Region.{Keeps, Made};
ghost use Rattle.tiny_native.specs.Texts.{Written, MadeText};
ghost use Rattle.tiny_native.specs.Copies.{AllHaveKind, unit_in};

use crate::copies::{Place, copy};
use crate::ending::NativeEnd;
use board_types::value::{RamPlace, Value};
use plain_types::elem::Elem;
use tiny_ram::{Ram, Spent};

/// More units than a string of any memory has: 4,194,304 cells of 12 bytes.
pub(crate) const MOST_UNITS: u64 = 0x200_0000;

/// A new string of so many units, each of them zero.
pub(crate) fn new_string(ram: &mut Ram, count: u64) -> Result<u32, Spent>
    ensures made { (m : Memory) → Keeps ram.old m → Made ram.old ram.new m (fresh (string_shape count)) result }
    ensures small { IfOk result (λ thing. count ≤ 2 ^ 25) }
{
    if count > MOST_UNITS {
        return Err(Spent);
    }
    ram.string(count as u32)
}

/// Puts the next unit into a new string.
#[inline(always)]
pub(crate) fn put_unit(ram: &mut Ram, thing: u32, index: u32, unit: u16)
    ensures { (m : Memory) (units : List ℕ) (n : ℕ) → Written ram.old m units thing n index → index < n → unit ≡ slice_index units index → Written ram.new m units thing n (index + 1) }
{
    let at = RamPlace {
        thing,
        index,
        elem: Elem::Char,
    };
    ram.put(at, Value::Int(i32::from(unit)));
}

/// Puts units of one byte each into a new string.
fn put_bytes(ram: &mut Ram, thing: u32, bytes: &[u8])
    requires { length bytes.now ≤ 2 ^ 25 }
    ensures { (m : Memory) → Written ram.old m bytes.now thing (length bytes.now) 0 → Written ram.new m bytes.now thing (length bytes.now) (length bytes.now) }
{
    for (k, byte) in bytes.iter().enumerate() {
        put_unit(ram, thing, k as u32, u16::from(*byte));
    }
}

/// A new string of these units.
pub(crate) fn ascii(ram: &mut Ram, bytes: &[u8]) -> NativeEnd
    ensures { (m : Memory) → Keeps ram.old m → MadeText ram.new m bytes.now result }
{
    match new_string(ram, bytes.len() as u64) {
        Ok(thing) => {
            put_bytes(ram, thing, bytes);
            NativeEnd::Gives(Some(Value::Ref(thing)))
        }
        Err(Spent) => NativeEnd::Spent,
    }
}

/// A new string of the places of an array of chars, or of a string, from one on.
pub(crate) fn copied(ram: &mut Ram, from: Place, count: u32) -> NativeEnd
    requires { from.index + count < 2 ^ 32 }
    ensures { (m : Memory) (e : Entry) → Keeps ram.old m → IsEntry m from.thing e → from.index + count ≤ length e.places → AllHaveKind (Bits U2) e.places from.index count → MadeText ram.new m (map unit_in (piece from.index count e.places)) result }
{
    match new_string(ram, count as u64) {
        Ok(thing) => {
            copy(ram, from, Place { thing, index: 0 }, count);
            NativeEnd::Gives(Some(Value::Ref(thing)))
        }
        Err(Spent) => NativeEnd::Spent,
    }
}
