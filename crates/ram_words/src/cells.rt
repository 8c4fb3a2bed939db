//! Values in cells.

ghost use Rattle.std.specs.Prelude.{◌≡◌, ◌+◌, ◌/◌, ◌%◌, ◌^◌, ◌≤◌, ℕ, length, slice_index, Some};
ghost use Rattle.ram_words.specs.Region.{SameBut};
ghost use Rattle.ram_words.specs.Cells.{value_by, kept_at};

use crate::elems::{elem_of, number_of, row_of, word_of};
use crate::region::word;
use board_types::value::{RamPlace, Value};

/// A value as its cell has it.
#[derive(Clone, Copy, Debug)]
pub struct Coded {
    pub tag: u8,
    /// Of a pointer the number of its place's element type.
    pub elem: u8,
    pub low: u32,
    pub high: u32,
}

/// The value that a tag, an element's number and two words spell; none where nothing was put.
#[inline(always)]
pub fn decoded(tag: u32, elem: u32, low: u32, high: u32) -> Option<Value>
    ensures { result ≡ value_by tag elem low high }
{
    match tag {
        1 => Some(Value::Int(low.cast_signed())),
        2 => Some(Value::Long((low as u64 + 0x1_0000_0000 * high as u64).cast_signed())),
        3 => Some(Value::Ref(low)),
        4 => Some(Value::Pointer(RamPlace {
            thing: low,
            index: high,
            elem: elem_of(elem),
        })),
        5 => Some(Value::Handle(row_of(low))),
        _ => None,
    }
}

/// How a value is spelled.
#[inline(always)]
pub fn code_of(value: Value) -> Coded
    ensures { value_by result.tag result.elem result.low result.high ≡ Some value }
{
    let coded = |tag: u8, low: u32, high: u32| Coded {
        tag,
        elem: 0,
        low,
        high,
    };
    match value {
        Value::Int(n) => coded(1, n.cast_unsigned(), 0),
        Value::Long(n) => {
            let bits = n.cast_unsigned();
            coded(
                2,
                (bits % 0x1_0000_0000) as u32,
                (bits / 0x1_0000_0000) as u32,
            )
        }
        Value::Ref(thing) => coded(3, thing, 0),
        Value::Pointer(at) => Coded {
            tag: 4,
            elem: number_of(at.elem),
            low: at.thing,
            high: at.index,
        },
        Value::Handle(field) => coded(5, word_of(field), 0),
    }
}

/// The first word of a cell with another tag and element. The other two bytes are the place's own.
#[inline(always)]
fn retagged(word: u32, tag: u8, elem: u8) -> u32
    ensures tag { result % 256 ≡ tag }
    ensures elem { result / 2 ^ 16 % 256 ≡ elem }
    ensures place { result / 2 ^ 8 % 256 ≡ word / 2 ^ 8 % 256 }
    ensures what { result / 2 ^ 24 ≡ word / 2 ^ 24 }
{
    tag as u32
        + word / 0x100 % 0x100 * 0x100
        + elem as u32 * 0x1_0000
        + word / 0x100_0000 * 0x100_0000
}

/// The value in the cell that begins at a word; none where nothing was put.
#[inline(always)]
#[tactic(auto, unfolding(crate::specs::Cells::kept_at))]
pub fn kept(words: &[u32], at: usize) -> Option<Value>
    requires { at ≤ 2 ^ 40 }
    ensures { result ≡ kept_at words.now at }
{
    let head = word(words, at);
    decoded(
        head % 0x100,
        head / 0x1_0000 % 0x100,
        word(words, at + 1),
        word(words, at + 2),
    )
}

/// Puts a value into the cell that begins at a word, where it is inside. What the place says of itself stays.
#[inline(always)]
#[tactic(auto, unfolding(crate::specs::Cells::kept_at))]
pub fn put_kept(words: &mut [u32], at: usize, value: Value)
    ensures here { at + 3 ≤ length words.old → kept_at words.new at ≡ Some value }
    ensures what { slice_index words.new at / 2 ^ 24 ≡ slice_index words.old at / 2 ^ 24 }
    ensures outside { SameBut at (at + 3) words.old words.new }
{
    let cell = code_of(value);
    if at < words.len() && words.len() - at >= 3 {
        words[at] = retagged(words[at], cell.tag, cell.elem);
        words[at + 1] = cell.low;
        words[at + 2] = cell.high;
    }
}
