//! Element types and rows as numbers.

ghost use Rattle.std.specs.Prelude.{◌≡◌, ◌<◌};
ghost use Rattle.machine.specs.Data.{elem_number};
ghost use Rattle.ram_words.specs.Cells.{elem_named, row_in, row_number};

use board_types::board::TypeAt;
use plain_types::elem::Elem;

/// The element types in the order of their numbers.
pub static ELEMS: [Elem; 15] = [
    Elem::Void,
    Elem::Bool,
    Elem::Char,
    Elem::I1,
    Elem::U1,
    Elem::I2,
    Elem::U2,
    Elem::I4,
    Elem::U4,
    Elem::I8,
    Elem::U8,
    Elem::String,
    Elem::Object,
    Elem::Class,
    Elem::Value,
];

/// The element type of a number, and `Void` where there is none.
#[inline(always)]
pub fn elem_of(number: u32) -> Elem
    ensures { result ≡ elem_named number }
{
    match ELEMS.get(number as usize) {
        Some(elem) => *elem,
        None => Elem::Void,
    }
}

/// The number of an element type.
#[inline(always)]
pub fn number_of(elem: Elem) -> u8
    ensures number { result ≡ elem_number elem }
    ensures small { result < 15 }
{
    match elem {
        Elem::Void => 0,
        Elem::Bool => 1,
        Elem::Char => 2,
        Elem::I1 => 3,
        Elem::U1 => 4,
        Elem::I2 => 5,
        Elem::U2 => 6,
        Elem::I4 => 7,
        Elem::U4 => 8,
        Elem::I8 => 9,
        Elem::U8 => 10,
        Elem::String => 11,
        Elem::Object => 12,
        Elem::Class => 13,
        Elem::Value => 14,
    }
}

/// The row that a word names.
#[inline(always)]
pub fn row_of(word: u32) -> TypeAt
    ensures { result ≡ row_in word }
{
    TypeAt {
        assembly: (word % 0x1_0000) as u16,
        row: (word / 0x1_0000) as u16,
    }
}

/// A row in a word: its assembly, and its row from bit 16 on.
#[inline(always)]
pub fn word_of(at: TypeAt) -> u32
    ensures { result ≡ row_number at }
{
    at.assembly as u32 + 0x1_0000 * at.row as u32
}
