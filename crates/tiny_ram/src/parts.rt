//! The parts of a frame.

ghost use Rattle.std.specs.Prelude.{◌≡◌, ◌≢◌, ◌+◌, ◌-◌, ◌*◌, ◌/◌, ◌%◌, ◌^◌, ◌<◌, ◌≤◌, sum, length, slice_index};
ghost use Rattle.plain_types.specs.declared.elem.Elem.TheVariants.{Void};
ghost use Rattle.ram_words.specs.Region.{SameBut};
ghost use Rattle.ram_words.specs.Frames.{sizes_at, method_at, hot_at};
ghost use Rattle.tiny_ram.specs.Memory.{RamFrame, frame_cells, frame_value, FrameTakes, with_frame_value, part_of};
ghost use Rattle.tiny_ram.specs.Region.{Stands};

use crate::frames::put_waiting;
use crate::making::row_type;
use board_types::value::{RamPlace, Shape, Value};
use plain_types::elem::Elem;
use ram_words::cells::{kept, put_kept};
use ram_words::elements::cut_to;
use ram_words::elems::row_of;
use ram_words::frames::{Hot, SIZES, put_initialiser, sizes, waiting};
use ram_words::region::word;

/// What an index of a frame names.
#[derive(Clone, Copy, Debug, PartialEq, Eq)]
pub enum Part {
    /// An argument, a local, a stack place or a clause slot.
    Slot,
    CodePlace,
    /// How many values the stack has.
    Depth,
    /// Whether the frame initialises a class.
    Initialiser,
    /// Nothing.
    Past,
}

/// The part of a frame that an index names, behind so many places.
#[inline(always)]
fn part_at(total: u32, index: u32) -> Part
    ensures { result ≡ part_of total index }
{
    if index < total {
        return Part::Slot;
    }
    match index - total {
        0 => Part::CodePlace,
        1 => Part::Depth,
        2 => Part::Initialiser,
        _ => Part::Past,
    }
}

/// How many places a frame has: the sum of its sizes.
#[inline(always)]
#[tactic(auto, unfolding(ram_words::specs::Frames::sizes_at))]
fn places(words: &[u32], base: usize) -> u32
    requires { base ≤ 2 ^ 35 }
    ensures sum { result ≡ sum (sizes_at words.now base) }
    ensures small { result < 2 ^ 31 }
{
    let [arguments, locals, stack, clauses] = sizes(words, base);
    arguments + locals + stack + clauses
}

/// The shape of the frame that begins at a word.
pub(crate) fn shape_of_frame(words: &[u32], base: usize) -> Shape
    requires { base ≤ 2 ^ 35 }
    ensures method { result.of ≡ record { ranks = 0; elem = Void; of = method_at words.now base } }
    ensures count { result.count ≡ sum (sizes_at words.now base) }
    ensures what { result.what ≡ 4 }
{
    Shape {
        what: 4,
        of: row_type(Elem::Void, row_of(word(words, base + 1))),
        count: places(words, base),
    }
}

/// How many values the stack of a frame has.
#[inline(always)]
fn depth(hot: Hot) -> u32
    ensures value { result ≡ (hot.top - hot.stack) / 3 % 2 ^ 22 }
    ensures small { result < 2 ^ 22 }
{
    (hot.top.saturating_sub(hot.stack) / 3 % SIZES as usize) as u32
}

/// What the index names in the frame that begins at a word and goes on so.
pub(crate) fn frame_place(words: &[u32], base: usize, hot: Hot, index: u32) -> Option<Value>
    requires { base ≤ 2 ^ 35 }
    ensures { (f : RamFrame) → Stands words.now base hot f → result ≡ frame_value f index }
{
    match part_at(places(words, base), index) {
        Part::Slot => kept(words, base + 6 + 3 * index as usize),
        Part::CodePlace => Some(Value::Int(hot.place.cast_signed())),
        Part::Depth => Some(Value::Int(depth(hot) as i32)),
        Part::Initialiser => Some(Value::Int((word(words, base) / SIZES) as i32)),
        Part::Past => None,
    }
}

/// Puts a value where the index names, and answers how the frame goes on.
pub(crate) fn put_frame_place(
    words: &mut [u32],
    base: usize,
    hot: Hot,
    at: RamPlace,
    value: Value,
) -> Hot
    requires { base ≤ 2 ^ 35 }
    ensures stands { (f : RamFrame) → Stands words.old base hot f → base + 3 * frame_cells f ≤ length words.old → FrameTakes f at.index value → Stands words.new base result (with_frame_value f at.index at.elem value) }
    ensures outside { (f : RamFrame) → Stands words.old base hot f → SameBut base (base + 3 * frame_cells f) words.old words.new }
{
    let mut hot = hot;
    match (part_at(places(words, base), at.index), value) {
        (Part::Slot, _) => put_kept(
            words,
            base + 6 + 3 * at.index as usize,
            cut_to(at.elem, value),
        ),
        (Part::CodePlace, Value::Int(n)) => hot.place = n.cast_unsigned(),
        (Part::Depth, Value::Int(n)) => hot.top = hot
            .stack
            .wrapping_add(3 * n.unsigned_abs() as usize),
        (Part::Initialiser, Value::Int(n)) => put_initialiser(words, base, n == 1),
        _ => {}
    }
    hot
}

/// Puts a value where the index names in a frame that waits.
pub(crate) fn put_in_waiting(words: &mut [u32], base: usize, at: RamPlace, value: Value)
    requires { base ≤ 2 ^ 35 }
    ensures stands { (f : RamFrame) → Stands words.old base (hot_at words.old base) f → base + 3 * frame_cells f ≤ length words.old → FrameTakes f at.index value → Stands words.new base (hot_at words.new base) (with_frame_value f at.index at.elem value) }
    ensures outside { (f : RamFrame) → Stands words.old base (hot_at words.old base) f → SameBut base (base + 3 * frame_cells f) words.old words.new }
{
    let hot = waiting(words, base);
    let hot = put_frame_place(words, base, hot, at, value);
    put_waiting(words, base, hot);
}
