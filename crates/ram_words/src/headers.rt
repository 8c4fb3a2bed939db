//! Headers of objects.

ghost use Rattle.std.specs.Prelude.{◌≡◌, ◌+◌, ◌%◌, ◌^◌, ◌<◌, ◌≤◌, ◌==◌, if◌then◌else◌, ℕ, length, slice_index};
ghost use Rattle.ram_words.specs.Region.{SameBut};
ghost use Rattle.ram_words.specs.Headers.{headed, shape_at, static_shape};

use crate::elems::{elem_of, number_of, row_of, word_of};
use crate::region::{put_word, word};
use board_types::board::{BoardType, NO_ROW, TypeAt};
use board_types::value::Shape;
use plain_types::elem::Elem;

/// What a static field's cell is.
pub const STATIC: u8 = 5;

/// The shape that three words spell.
#[inline(always)]
fn shape_of(first: u32, second: u32, third: u32) -> Shape
    ensures { result ≡ headed first second third }
{
    let what = (first / 0x100_0000 % 8) as u8;
    if what == STATIC {
        return Shape {
            what: STATIC,
            of: BoardType {
                ranks: 0,
                elem: Elem::Void,
                of: TypeAt {
                    assembly: 0,
                    row: NO_ROW,
                },
            },
            count: 1,
        };
    }
    Shape {
        what,
        of: BoardType {
            ranks: (first % 0x1_0000) as u16,
            elem: elem_of(first / 0x1000_0000),
            of: row_of(second),
        },
        count: third,
    }
}

/// The shape of the object whose header begins at a word.
#[inline(always)]
#[tactic(auto, unfolding(crate::specs::Headers::shape_at))]
pub fn shape(words: &[u32], at: usize) -> Shape
    requires { at ≤ 2 ^ 40 }
    ensures { result ≡ shape_at words.now at }
{
    shape_of(word(words, at), word(words, at + 1), word(words, at + 2))
}

/// Writes an object's header.
#[inline(always)]
#[tactic(auto, unfolding(crate::specs::Headers::shape_at))]
pub fn put_shape(words: &mut [u32], at: usize, shape: Shape)
    requires start { at ≤ 2 ^ 40 }
    requires what { shape.what < 8 }
    ensures here { at + 3 ≤ length words.old → shape_at words.new at ≡ (if shape.what == 5 then static_shape else shape) }
    ensures ranks { at + 3 ≤ length words.old → slice_index words.new at % 2 ^ 16 ≡ shape.of.ranks }
    ensures outside { SameBut at (at + 3) words.old words.new }
{
    let elem = number_of(shape.of.elem) as u32;
    let first = shape.of.ranks as u32 + 0x100_0000 * shape.what as u32 + 0x1000_0000 * elem;
    put_word(words, at, first);
    put_word(words, at + 1, word_of(shape.of.of));
    put_word(words, at + 2, shape.count);
}
