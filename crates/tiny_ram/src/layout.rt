//! How a thing's places lie behind its header.

ghost use Rattle.std.specs.Prelude.{◌≡◌, ◌^◌, ◌≤◌, ◌<◌, ◌+◌};
ghost use Rattle.tiny_ram.specs.Things.{layout_in, layout_of, cells_in, place_at};

use board_types::value::{Shape, Value};
use cil_opcodes::shape::IntegerType;
use ram_words::cells::kept;
use ram_words::elements::{ElementKind, element, kind_of, width};

/// How the places of an object lie.
#[derive(Clone, Copy)]
pub enum Layout {
    /// Packed by their width, behind the header.
    Packed(ElementKind),
    /// An array whose elements have no bits.
    Bare,
    /// A cell each, behind the header.
    Cells,
    /// One cell without a header.
    Alone,
}

/// How the places of a thing of this shape lie: arrays and strings are packed, a static field is its cell, and everything
/// else has a cell for each place.
#[inline(always)]
pub(crate) fn layout_for(shape: Shape) -> Layout
    ensures { layout_in result ≡ layout_of shape }
{
    match shape.what {
        1 => match kind_of(shape.of) {
            Some(kind) => Layout::Packed(kind),
            None => Layout::Bare,
        },
        2 => Layout::Packed(ElementKind::Number(IntegerType::U2)),
        5 => Layout::Alone,
        _ => Layout::Cells,
    }
}

/// Cells of so many places.
#[inline(always)]
pub(crate) fn cells(layout: Layout, count: u32) -> usize
    ensures cells { result ≡ cells_in (layout_in layout) count }
    ensures small { result < 2 ^ 33 }
{
    match layout {
        Layout::Packed(kind) => 1 + (count as usize * width(kind) + 11) / 12,
        Layout::Bare | Layout::Alone => 1,
        Layout::Cells => 1 + count as usize,
    }
}

/// What the i-th place of the object at a word holds; none where nothing was put.
#[inline(always)]
pub(crate) fn place(words: &[u32], layout: Layout, at: usize, i: u32) -> Option<Value>
    requires { at ≤ 2 ^ 35 }
    ensures { result ≡ place_at (layout_in layout) words.now at i }
{
    match layout {
        Layout::Packed(kind) => Some(element(words, kind, at + 3, i as usize)),
        Layout::Bare => None,
        Layout::Cells => kept(words, at + 3 + 3 * i as usize),
        Layout::Alone => kept(words, at),
    }
}
