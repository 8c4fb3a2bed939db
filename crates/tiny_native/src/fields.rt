//! Arrays that get their elements from data fields (ECMA-335 II.16.3).

ghost use Rattle.std.specs.Prelude.{◌≡◌, ◌+◌, ◌*◌, ◌∷◌, ◌^◌, ◌<◌, ◌≤◌, not, nat_lt, true, List, length, Some, slice_index};
ghost use Rattle.machine.specs.Data.{Bits, bytes_of, Value as Seen};
ghost use Rattle.machine.specs.Program.{InitializeArray};
ghost use Rattle.machine.specs.Natives.{initialize_array};
ghost use Rattle.ram_words.specs.Elements.{HasKind, cut_by};
ghost use Rattle.tiny_ops.specs.Operators.{Leads, stack_value};
ghost use Rattle.tiny_ram.specs.Things.{Entry, Packed, layout_of};
ghost use Rattle.tiny_ram.specs.Memory.{Memory, IsEntry};
ghost use Rattle.tiny_ram.specs.Region.{Keeps};
ghost use Rattle.tiny_native.specs.Seen.{Scene, ValueNamed, ValueTold, Shows};
ghost use Rattle.tiny_native.specs.Copies.{IsElements};
ghost use Rattle.tiny_native.specs.Told.{number_at, Filled, elements_set};
ghost use Rattle.tiny_native.specs.Ends.{Meets};

use crate::arrays::ArrayAt;
use crate::copies::Place;
use crate::ending::NativeEnd;
use crate::find::{ARRAY, Found, find};
use board_types::board::{Known, TypeAt};
use board_types::subclass::Subclass;
use board_types::value::{RamPlace, Value};
use cil_opcodes::shape::IntegerType;
use plain_types::elem::Elem;
use ram_words::elements::{ElementKind, kind_of};
use tiny_ram::Ram;

/// As many elements as an array of any memory has at most: 4,194,304 cells of 12 bytes.
const MOST_ELEMENTS: u32 = 12 * 0x40_0000;

/// Bytes of so many numbers.
fn bytes_in(integer: IntegerType, count: u32) -> u32
    requires { count ≤ 2 ^ 26 }
    ensures exact { result ≡ count * bytes_of integer }
    ensures most { result ≤ 2 ^ 29 }
{
    match integer {
        IntegerType::I1 | IntegerType::U1 => count,
        IntegerType::I2 | IntegerType::U2 => count * 2,
        IntegerType::I4 | IntegerType::U4 => count * 4,
        IntegerType::I8 | IntegerType::U8 => count * 8,
    }
}

/// Whether a data field has the bytes of so many numbers.
fn has_numbers<S: Subclass>(types: &S, field: TypeAt, integer: IntegerType, count: u32) -> bool
    ensures enough { count ≤ 12 * 2 ^ 22 → result ≡ not (nat_lt (length (S.bytes types.now field)) (count * bytes_of integer)) }
    ensures small { result ≡ true → count ≤ 12 * 2 ^ 22 }
{
    if count > MOST_ELEMENTS {
        return false;
    }
    if count == 0 {
        return true;
    }
    let last = bytes_in(integer, count) - 1;
    types.data_byte(field, last).is_some()
}

/// A byte of a data field, and 0 past its end.
#[inline(always)]
fn byte<S: Subclass>(types: &S, field: TypeAt, at: u32) -> u8
    ensures { result ≡ slice_index (S.bytes types.now field) at }
{
    match types.data_byte(field, at) {
        Some(byte) => byte,
        None => 0,
    }
}

/// The number of two bytes.
#[inline(always)]
fn half<S: Subclass>(types: &S, field: TypeAt, at: u32) -> u32
    requires { at + 1 < 2 ^ 32 }
    ensures exact { result ≡ slice_index (S.bytes types.now field) at + 256 * slice_index (S.bytes types.now field) (at + 1) }
    ensures small { result < 2 ^ 16 }
{
    let low = byte(types, field, at);
    let high = byte(types, field, at + 1);
    low as u32 + 0x100 * high as u32
}

/// The number of four bytes.
#[inline(always)]
fn word<S: Subclass>(types: &S, field: TypeAt, at: u32) -> u32
    requires { at + 3 < 2 ^ 32 }
    ensures { result ≡ slice_index (S.bytes types.now field) at + 256 * slice_index (S.bytes types.now field) (at + 1) + 2 ^ 16 * slice_index (S.bytes types.now field) (at + 2) + 2 ^ 24 * slice_index (S.bytes types.now field) (at + 3) }
{
    let low = half(types, field, at);
    let high = half(types, field, at + 2);
    low + 0x1_0000 * high
}

/// The number of eight bytes.
#[inline(always)]
fn long<S: Subclass>(types: &S, field: TypeAt, at: u32) -> u64
    requires { at + 7 < 2 ^ 32 }
    ensures { result ≡ slice_index (S.bytes types.now field) at + 256 * slice_index (S.bytes types.now field) (at + 1) + 2 ^ 16 * slice_index (S.bytes types.now field) (at + 2) + 2 ^ 24 * slice_index (S.bytes types.now field) (at + 3) + 2 ^ 32 * slice_index (S.bytes types.now field) (at + 4) + 2 ^ 40 * slice_index (S.bytes types.now field) (at + 5) + 2 ^ 48 * slice_index (S.bytes types.now field) (at + 6) + 2 ^ 56 * slice_index (S.bytes types.now field) (at + 7) }
{
    let low = word(types, field, at);
    let high = word(types, field, at + 4);
    low as u64 + 0x1_0000_0000 * high as u64
}

/// The number from a byte on, as a value that a place of its type cuts to its width.
#[inline(always)]
fn number<S: Subclass>(types: &S, field: TypeAt, integer: IntegerType, at: u32) -> Value
    requires { at + 7 < 2 ^ 32 }
    ensures value { (l : Leads) → at + bytes_of integer ≤ length (S.bytes types.now field) → stack_value l (cut_by (Some (Bits integer)) result) ≡ number_at integer (S.bytes types.now field) at }
    ensures kind { HasKind (Bits integer) result }
{
    match integer {
        IntegerType::I1 | IntegerType::U1 => Value::Int(byte(types, field, at) as i32),
        IntegerType::I2 | IntegerType::U2 => Value::Int(half(types, field, at).cast_signed()),
        IntegerType::I4 | IntegerType::U4 => Value::Int(word(types, field, at).cast_signed()),
        IntegerType::I8 | IntegerType::U8 => Value::Long(long(types, field, at).cast_signed()),
    }
}

/// Puts the next number of a data field into its place in an array.
#[inline(always)]
fn put_number<S: Subclass>(ram: &mut Ram, types: &S, field: TypeAt, integer: IntegerType, to: Place)
    requires { to.index < 2 ^ 26 }
    ensures { (m : Memory) (l : Leads) (e : Entry) → IsEntry m to.thing e → layout_of e.shape ≡ Packed (Bits integer) → to.index < length e.places → to.index * bytes_of integer + bytes_of integer ≤ length (S.bytes types.now field) → Filled ram.old m l to.thing e integer (S.bytes types.now field) to.index → Filled ram.new m l to.thing e integer (S.bytes types.now field) (to.index + 1) }
{
    let value = number(types, field, integer, bytes_in(integer, to.index));
    let at = RamPlace {
        thing: to.thing,
        index: to.index,
        elem: Elem::Void,
    };
    ram.put(at, value);
}

/// Puts so many numbers of a data field into an array.
fn put_numbers<S: Subclass>(
    ram: &mut Ram,
    types: &S,
    field: TypeAt,
    integer: IntegerType,
    thing: u32,
    count: u32,
)
    requires { count ≤ 2 ^ 26 }
    ensures { (m : Memory) (l : Leads) (e : Entry) → IsEntry m thing e → layout_of e.shape ≡ Packed (Bits integer) → count ≡ length e.places → count * bytes_of integer ≤ length (S.bytes types.now field) → Keeps ram.old m → Filled ram.new m l thing e integer (S.bytes types.now field) count }
{
    for index in 0..count {
        put_number(ram, types, field, integer, Place { thing, index });
    }
}

/// Fills an array of numbers.
fn fill_numbers<S: Subclass>(
    ram: &mut Ram,
    types: &S,
    array: ArrayAt,
    field: TypeAt,
    integer: IntegerType,
) -> NativeEnd
    ensures { (c : Scene) (e : Entry) → Shows c ram.old → (x : IsElements c array e) → x.cell ≡ Bits integer → Meets c ram.new (elements_set c array.thing e (S.bytes types.now field) (Bits integer)) result }
{
    if !has_numbers(types, field, integer, array.shape.count) {
        return NativeEnd::Throws(Known::Argument);
    }
    put_numbers(ram, types, field, integer, array.thing, array.shape.count);
    NativeEnd::Gives(None)
}

/// Fills an array from a data field.
fn fill<S: Subclass>(ram: &mut Ram, types: &S, array: ArrayAt, field: TypeAt) -> NativeEnd
    ensures { (c : Scene) (e : Entry) → Shows c ram.old → (x : IsElements c array e) → Meets c ram.new (elements_set c array.thing e (S.bytes types.now field) x.cell) result }
{
    match kind_of(array.shape.of) {
        Some(ElementKind::Number(integer)) => fill_numbers(ram, types, array, field, integer),
        _ => NativeEnd::Throws(Known::Argument),
    }
}

/// Fills an array of numbers with those of a data field, the lowest byte of a number first.
pub(crate) fn initialize<S: Subclass>(
    ram: &mut Ram,
    types: &S,
    array: Value,
    field: Value,
) -> NativeEnd
    ensures { (c : Scene) (more : List Seen) → Shows c ram.old → ValueNamed c array → ValueTold c (S.name types.now) (S.bytes types.now) InitializeArray field → Meets c ram.new (initialize_array c.program c.state c.frame c.callers c.next c.rest (stack_value c.leads array ∷ stack_value c.leads field ∷ more)) result }
{
    let Value::Handle(field) = field else {
        return NativeEnd::NoCase;
    };
    match find(ram, array, ARRAY) {
        Found::Null => NativeEnd::Throws(Known::NullReference),
        Found::Thing(thing, shape) => fill(ram, types, ArrayAt { thing, shape }, field),
        Found::Other => NativeEnd::NoCase,
    }
}
