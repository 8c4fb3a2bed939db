//! Packed elements.

ghost use Rattle.std.specs.Prelude.{◌≡◌, ◌≢◌, ◌+◌, ◌*◌, ◌/◌, ◌%◌, ◌^◌, ◌<◌, ◌≤◌, ℕ, length, Some};
ghost use Rattle.std.specs.Option.{option_map};
ghost use Rattle.machine.specs.Data.{Bits, Refers, cell_bytes};
ghost use Rattle.cil_opcodes.specs.declared.shape.IntegerType.TheVariants.{I8};
ghost use Rattle.board_types.specs.declared.value.Value.TheVariants.{Int, Long};
ghost use Rattle.ram_words.specs.Region.{SameBut};
ghost use Rattle.ram_words.specs.Elements.{elem_held, type_held, cell_in, byte_at, half_at, element_at, element_end, HasKind, narrowed, cut_by, zero_by};

use crate::region::{put_word, word};
use board_types::board::BoardType;
use board_types::value::Value;
use cil_opcodes::shape::IntegerType;
use plain_types::elem::Elem;

/// How a place keeps its value: as a number or as a reference.
#[derive(Clone, Copy)]
pub enum ElementKind {
    Number(IntegerType),
    Reference,
}

/// How places of an element type keep their values; none for `Void` and for the value types that have no bits here.
#[inline(always)]
pub fn kind_of_elem(elem: Elem) -> Option<ElementKind>
    ensures { option_map cell_in result ≡ elem_held elem }
{
    match elem {
        Elem::Bool | Elem::U1 => Some(ElementKind::Number(IntegerType::U1)),
        Elem::Char | Elem::U2 => Some(ElementKind::Number(IntegerType::U2)),
        Elem::I1 => Some(ElementKind::Number(IntegerType::I1)),
        Elem::I2 => Some(ElementKind::Number(IntegerType::I2)),
        Elem::I4 => Some(ElementKind::Number(IntegerType::I4)),
        Elem::U4 => Some(ElementKind::Number(IntegerType::U4)),
        Elem::I8 => Some(ElementKind::Number(IntegerType::I8)),
        Elem::U8 => Some(ElementKind::Number(IntegerType::U8)),
        Elem::String | Elem::Object | Elem::Class => Some(ElementKind::Reference),
        Elem::Void | Elem::Value => None,
    }
}

/// The same of a type: arrays are kept by reference.
#[inline(always)]
pub fn kind_of(of: BoardType) -> Option<ElementKind>
    ensures { option_map cell_in result ≡ type_held of }
{
    if of.ranks == 0 {
        kind_of_elem(of.elem)
    } else {
        Some(ElementKind::Reference)
    }
}

/// Bytes of an element.
#[inline(always)]
pub fn width(kind: ElementKind) -> usize
    ensures { result ≡ cell_bytes (cell_in kind) }
{
    match kind {
        ElementKind::Number(IntegerType::I1 | IntegerType::U1) => 1,
        ElementKind::Number(IntegerType::I2 | IntegerType::U2) => 2,
        ElementKind::Number(IntegerType::I4 | IntegerType::U4) | ElementKind::Reference => 4,
        ElementKind::Number(IntegerType::I8 | IntegerType::U8) => 8,
    }
}

/// The i-th byte of the words from `a` on.
#[inline(always)]
fn byte(words: &[u32], a: usize, i: usize) -> u8
    requires { a + i / 4 < 2 ^ 64 }
    ensures { result ≡ byte_at words.now a i }
{
    let bytes = word(words, a + i / 4).to_le_bytes();
    bytes[i % 4]
}

/// Writes that byte, and no other.
#[inline(always)]
fn put_byte(words: &mut [u32], a: usize, i: usize, b: u8)
    requires { a + i / 4 < 2 ^ 64 }
    ensures here { a + i / 4 < length words.old → byte_at words.new a i ≡ b }
    ensures others { (j : ℕ) → j ≢ i → byte_at words.new a j ≡ byte_at words.old a j }
    ensures outside { SameBut (a + i / 4) (a + i / 4 + 1) words.old words.new }
{
    let at = a + i / 4;
    if at < words.len() {
        let mut bytes = words[at].to_le_bytes();
        bytes[i % 4] = b;
        words[at] = u32::from_le_bytes(bytes);
    }
}

/// The i-th half of the words from `a` on.
#[inline(always)]
fn half(words: &[u32], a: usize, i: usize) -> u16
    requires start { a ≤ 2 ^ 40 }
    requires index { i < 2 ^ 32 }
    ensures { result ≡ half_at words.now a i }
{
    byte(words, a, 2 * i) as u16 + 0x100 * byte(words, a, 2 * i + 1) as u16
}

/// Writes that half, and no other.
#[inline(always)]
fn put_half(words: &mut [u32], a: usize, i: usize, half: u16)
    requires start { a ≤ 2 ^ 40 }
    requires index { i < 2 ^ 32 }
    ensures here { a + i / 2 < length words.old → half_at words.new a i ≡ half }
    ensures others { (j : ℕ) → j ≢ i → half_at words.new a j ≡ half_at words.old a j }
    ensures outside { SameBut (a + i / 2) (a + i / 2 + 1) words.old words.new }
{
    put_byte(words, a, 2 * i, (half % 0x100) as u8);
    put_byte(words, a, 2 * i + 1, (half / 0x100) as u8);
}

/// The i-th element of this kind from the word `a` on.
#[inline(always)]
#[tactic(auto, unfolding(crate::specs::Elements::element_at))]
pub fn element(words: &[u32], kind: ElementKind, a: usize, i: usize) -> Value
    requires start { a ≤ 2 ^ 40 }
    requires index { i < 2 ^ 32 }
    ensures { result ≡ element_at (cell_in kind) words.now a i }
{
    match kind {
        ElementKind::Number(IntegerType::I1) => {
            Value::Int(byte(words, a, i).cast_signed() as i32)
        }
        ElementKind::Number(IntegerType::U1) => Value::Int(byte(words, a, i) as i32),
        ElementKind::Number(IntegerType::I2) => {
            Value::Int(half(words, a, i).cast_signed() as i32)
        }
        ElementKind::Number(IntegerType::U2) => Value::Int(half(words, a, i) as i32),
        ElementKind::Number(IntegerType::I4 | IntegerType::U4) => {
            Value::Int(word(words, a + i).cast_signed())
        }
        ElementKind::Number(IntegerType::I8 | IntegerType::U8) => {
            let low = word(words, a + 2 * i) as u64;
            let high = word(words, a + 2 * i + 1) as u64;
            Value::Long((low + 0x1_0000_0000 * high).cast_signed())
        }
        ElementKind::Reference => Value::Ref(word(words, a + i)),
    }
}

/// An int32 as a place keeps it.
#[inline(always)]
pub fn narrow(kind: ElementKind, n: i32) -> i32
    ensures { result ≡ narrowed (cell_in kind) n }
{
    let bits = n.cast_unsigned();
    match kind {
        ElementKind::Number(IntegerType::I1) => ((bits % 0x100) as u8).cast_signed() as i32,
        ElementKind::Number(IntegerType::U1) => (bits % 0x100) as i32,
        ElementKind::Number(IntegerType::I2) => ((bits % 0x1_0000) as u16).cast_signed() as i32,
        ElementKind::Number(IntegerType::U2) => (bits % 0x1_0000) as i32,
        _ => n,
    }
}

/// A value cut to the width of a place of the element type.
#[inline(always)]
pub fn cut_to(elem: Elem, value: Value) -> Value
    ensures { result ≡ cut_by (elem_held elem) value }
{
    match (kind_of_elem(elem), value) {
        (Some(kind), Value::Int(n)) => Value::Int(narrow(kind, n)),
        _ => value,
    }
}

/// What a place of the element type holds before anything is put into it.
#[inline(always)]
pub fn zero_of(elem: Elem) -> Value
    ensures { result ≡ zero_by (elem_held elem) }
{
    match elem {
        Elem::I8 | Elem::U8 => Value::Long(0),
        Elem::Bool | Elem::Char | Elem::I1 | Elem::U1 | Elem::I2 | Elem::U2 | Elem::I4 | Elem::U4 =>
            Value::Int(0),
        Elem::Void | Elem::String | Elem::Object | Elem::Class | Elem::Value => Value::Ref(0),
    }
}

/// Writes an int32 into the i-th element, cut to its width.
#[inline(always)]
#[tactic(auto, unfolding(crate::specs::Elements::element_at))]
fn put_number(words: &mut [u32], integer: IntegerType, a: usize, i: usize, n: i32)
    requires start { a ≤ 2 ^ 40 }
    requires index { i < 2 ^ 32 }
    ensures here { HasKind (Bits integer) (Int n) → a + element_end (Bits integer) i ≤ length words.old → element_at (Bits integer) words.new a i ≡ Int (narrowed (Bits integer) n) }
    ensures others { (j : ℕ) → j ≢ i → element_at (Bits integer) words.new a j ≡ element_at (Bits integer) words.old a j }
    ensures outside { SameBut a (a + element_end (Bits integer) i) words.old words.new }
{
    let bits = n.cast_unsigned();
    match integer {
        IntegerType::I1 | IntegerType::U1 => put_byte(words, a, i, (bits % 0x100) as u8),
        IntegerType::I2 | IntegerType::U2 => put_half(words, a, i, (bits % 0x1_0000) as u16),
        IntegerType::I4 | IntegerType::U4 => put_word(words, a + i, bits),
        IntegerType::I8 | IntegerType::U8 => {}
    }
}

/// Writes an int64 into the i-th element.
#[inline(always)]
#[tactic(auto, unfolding(crate::specs::Elements::element_at))]
fn put_long(words: &mut [u32], a: usize, i: usize, n: i64)
    requires start { a ≤ 2 ^ 40 }
    requires index { i < 2 ^ 32 }
    ensures here { a + 2 * i + 2 ≤ length words.old → element_at (Bits I8) words.new a i ≡ Long n }
    ensures others { (j : ℕ) → j ≢ i → element_at (Bits I8) words.new a j ≡ element_at (Bits I8) words.old a j }
    ensures outside { SameBut (a + 2 * i) (a + 2 * i + 2) words.old words.new }
{
    let bits = n.cast_unsigned();
    put_word(words, a + 2 * i, (bits % 0x1_0000_0000) as u32);
    put_word(words, a + 2 * i + 1, (bits / 0x1_0000_0000) as u32);
}

/// Writes a value into the i-th element of this kind, cut to its width. A value of another kind isn't written.
#[inline(always)]
#[tactic(auto, unfolding(crate::specs::Elements::element_at))]
pub fn put_element(words: &mut [u32], kind: ElementKind, a: usize, i: usize, value: Value)
    requires start { a ≤ 2 ^ 40 }
    requires index { i < 2 ^ 32 }
    ensures here { HasKind (cell_in kind) value → a + element_end (cell_in kind) i ≤ length words.old → element_at (cell_in kind) words.new a i ≡ cut_by (Some (cell_in kind)) value }
    ensures others { (j : ℕ) → j ≢ i → element_at (cell_in kind) words.new a j ≡ element_at (cell_in kind) words.old a j }
    ensures outside { SameBut a (a + element_end (cell_in kind) i) words.old words.new }
{
    match (kind, value) {
        (ElementKind::Number(integer), Value::Int(n)) => put_number(words, integer, a, i, n),
        (ElementKind::Number(IntegerType::I8 | IntegerType::U8), Value::Long(n)) => {
            put_long(words, a, i, n)
        }
        (ElementKind::Reference, Value::Ref(thing)) => put_word(words, a + i, thing),
        _ => {}
    }
}
