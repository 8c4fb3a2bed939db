//! New objects, behind the last one.

ghost use Rattle.std.specs.Prelude.{◌≡◌, ◌+◌, ◌*◌, ◌^◌, ◌<◌, ◌≤◌, length};
ghost use Rattle.ram_words.specs.Region.{SameBut};
ghost use Rattle.tiny_ram.specs.Things.{IsMade, fresh, entry_cells, object_shape, array_shape, string_shape, box_shape};
ghost use Rattle.ram_words.specs.Headers.{static_shape};
ghost use Rattle.tiny_ram.specs.Memory.{Memory};
ghost use Rattle.tiny_ram.specs.Region.{Lies, Keeps, Made};

use crate::layout::{cells, layout_for};
use crate::memory::{MOST_WORDS, Ram, Spent};
use board_types::board::{BoardType, NO_ROW, TypeAt};
use board_types::value::Shape;
use plain_types::elem::Elem;
use ram_words::headers::put_shape;
use ram_words::region::zero;

/// Writes a thing whose places are as at the start into the words from `at` to `end`.
fn put_thing(words: &mut [u32], at: usize, end: usize, shape: Shape)
    requires made { IsMade shape }
    requires end { end ≡ at + 3 * entry_cells (fresh shape) }
    requires inside { end ≤ length words.old }
    requires small { length words.old ≤ 2 ^ 24 }
    ensures lies { Lies words.new at (fresh shape) }
    ensures outside { SameBut at end words.old words.new }
{
    zero(words, at, end);
    put_shape(words, at, shape);
}

impl Ram {
    /// A thing behind the last one.
    fn make(&mut self, shape: Shape) -> Result<u32, Spent>
        requires { IsMade shape }
        ensures { (m : Memory) → Keeps self.old m → Made self.old self.new m (fresh shape) result }
    {
        let (at, low) = (self.heap, self.low());
        let cells = cells(layout_for(shape), shape.count);
        if low > self.words.len() || self.words.len() > MOST_WORDS {
            return Err(Spent);
        }
        if at > low || (low - at) / 3 < cells {
            return Err(Spent);
        }
        let end = at + 3 * cells;
        put_thing(self.words.as_mut_slice(), at, end, shape);
        self.heap = end;
        Ok((at / 3) as u32 + 1)
    }

    /// An object of a class, with so many fields (ECMA-335 III.4.21). The answer is its number.
    pub fn object(&mut self, class: TypeAt, fields: u32) -> Result<u32, Spent>
        ensures { (m : Memory) → Keeps self.old m → Made self.old self.new m (fresh (object_shape class fields)) result }
    {
        self.make(Shape {
            what: 0,
            of: row_type(Elem::Class, class),
            count: fields,
        })
    }

    /// An array of n elements of a type, each of them zero (III.4.20).
    pub fn array(&mut self, of: BoardType, n: u32) -> Result<u32, Spent>
        ensures { (m : Memory) → Keeps self.old m → Made self.old self.new m (fresh (array_shape of n)) result }
    {
        self.make(Shape {
            what: 1,
            of,
            count: n,
        })
    }

    /// A string of n units, each of them zero.
    pub fn string(&mut self, n: u32) -> Result<u32, Spent>
        ensures { (m : Memory) → Keeps self.old m → Made self.old self.new m (fresh (string_shape n)) result }
    {
        self.make(Shape {
            what: 2,
            of: row_type(
                Elem::String,
                TypeAt {
                    assembly: 0,
                    row: NO_ROW,
                },
            ),
            count: n,
        })
    }

    /// A box for a value of a type (III.4.1).
    pub fn boxed(&mut self, of: BoardType) -> Result<u32, Spent>
        ensures { (m : Memory) → Keeps self.old m → Made self.old self.new m (fresh (box_shape of)) result }
    {
        self.make(Shape {
            what: 3,
            of,
            count: 1,
        })
    }

    /// The cell of a static field.
    pub fn static_cell(&mut self) -> Result<u32, Spent>
        ensures { (m : Memory) → Keeps self.old m → Made self.old self.new m (fresh static_shape) result }
    {
        self.make(Shape {
            what: 5,
            of: row_type(
                Elem::Void,
                TypeAt {
                    assembly: 0,
                    row: NO_ROW,
                },
            ),
            count: 1,
        })
    }
}

/// A type without arrays.
#[inline(always)]
pub(crate) fn row_type(elem: Elem, of: TypeAt) -> BoardType
    ensures { result ≡ record { ranks = 0; elem = elem; of = of } }
{
    BoardType { ranks: 0, elem, of }
}
