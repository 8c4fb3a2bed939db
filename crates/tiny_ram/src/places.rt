//! What things are, and what their places hold.

ghost use Rattle.std.specs.Prelude.{◌≡◌, ◌≢◌, ◌+◌, ◌-◌, ◌*◌, ◌^◌, ◌<◌, ◌≤◌, sum, length};
ghost use Rattle.ram_words.specs.Region.{SameBut};
ghost use Rattle.tiny_ram.specs.Things.{Entry, entry_cells, layout_of, Takes, with_place};
ghost use Rattle.tiny_ram.specs.Memory.{Memory, RamFrame, IsEntry, IsFrame, entry_value, frame_value, frame_shape, shown, put_in, put_in_frame, FrameTakes, with_frame_value};
ghost use Rattle.tiny_ram.specs.Region.{Keeps, Lies};

use crate::layout::{Layout, layout_for, place};
use crate::memory::{Ram, start_of};
use crate::parts::{frame_place, put_frame_place, put_in_waiting, shape_of_frame};
use board_types::value::{RamPlace, Shape, Value};
use ram_words::cells::put_kept;
use ram_words::elements::{cut_to, put_element, zero_of};
use ram_words::headers::shape;

/// Puts a value into a place of the object at a word.
fn put_place(words: &mut [u32], start: usize, at: RamPlace, value: Value)
    requires { start ≤ 2 ^ 35 }
    ensures lies { (e : Entry) → Lies words.old start e → start + 3 * entry_cells e ≤ length words.old → at.index < length e.places → Takes (layout_of e.shape) value → Lies words.new start (with_place e at.index at.elem value) }
    ensures outside { (e : Entry) → Lies words.old start e → at.index < length e.places → SameBut start (start + 3 * entry_cells e) words.old words.new }
{
    let i = at.index as usize;
    match layout_for(shape(words, start)) {
        Layout::Packed(kind) => put_element(words, kind, start + 3, i, value),
        Layout::Bare => {}
        Layout::Cells => put_kept(words, start + 3 + 3 * i, cut_to(at.elem, value)),
        Layout::Alone => put_kept(words, start, cut_to(at.elem, value)),
    }
}

impl Ram {
    /// What a thing is.
    pub fn shape(&self, thing: u32) -> Shape
        ensures thing { (m : Memory) (e : Entry) → Keeps self.now m → IsEntry m thing e → result ≡ e.shape }
        ensures frame { (m : Memory) (f : RamFrame) → Keeps self.now m → IsFrame m thing f → result ≡ frame_shape f }
    {
        let start = start_of(thing);
        if start < self.heap {
            shape(&self.words, start)
        } else {
            shape_of_frame(&self.words, start)
        }
    }

    /// What was put into a place.
    #[inline(always)]
    fn held(&self, at: RamPlace) -> Option<Value>
        ensures thing { (m : Memory) (e : Entry) → Keeps self.now m → IsEntry m at.thing e → at.index < length e.places → result ≡ entry_value e at.index }
        ensures frame { (m : Memory) (f : RamFrame) → Keeps self.now m → IsFrame m at.thing f → result ≡ frame_value f at.index }
    {
        let start = start_of(at.thing);
        if start < self.heap {
            let layout = layout_for(shape(&self.words, start));
            place(&self.words, layout, start, at.index)
        } else {
            frame_place(&self.words, start, self.hot_of(start), at.index)
        }
    }

    /// What a place holds: the value last put there, else the zero of its type. An element is seen by its array's type.
    pub fn get(&self, at: RamPlace) -> Value
        ensures thing { (m : Memory) (e : Entry) → Keeps self.now m → IsEntry m at.thing e → at.index < length e.places → result ≡ shown at.elem (entry_value e at.index) }
        ensures frame { (m : Memory) (f : RamFrame) → Keeps self.now m → IsFrame m at.thing f → result ≡ shown at.elem (frame_value f at.index) }
    {
        match self.held(at) {
            Some(value) => value,
            None => zero_of(at.elem),
        }
    }

    /// Puts a value where the index of a frame names.
    fn put_in_frame(&mut self, start: usize, at: RamPlace, value: Value)
        requires { start ≡ 3 * (at.thing - 1) }
        ensures { (m : Memory) (f : RamFrame) → Keeps self.old m → IsFrame m at.thing f → FrameTakes f at.index value → Keeps self.new (put_in_frame m at.thing (with_frame_value f at.index at.elem value)) }
    {
        let hot = self.hot;
        if start + 6 == hot.arguments {
            self.hot = put_frame_place(self.words.as_mut_slice(), start, hot, at, value);
        } else {
            put_in_waiting(self.words.as_mut_slice(), start, at, value);
        }
    }

    /// Puts a value into a place, cut to its width. A value goes into an element only where it has the kind of the array's,
    /// and behind a frame's places an int32: a stack's depth is at most the number of its places, and the last number is 0 or 1.
    pub fn put(&mut self, at: RamPlace, value: Value)
        ensures thing { (m : Memory) (e : Entry) → Keeps self.old m → IsEntry m at.thing e → at.index < length e.places → Takes (layout_of e.shape) value → Keeps self.new (put_in m at.thing (with_place e at.index at.elem value)) }
        ensures frame { (m : Memory) (f : RamFrame) → Keeps self.old m → IsFrame m at.thing f → FrameTakes f at.index value → Keeps self.new (put_in_frame m at.thing (with_frame_value f at.index at.elem value)) }
    {
        let start = start_of(at.thing);
        if start < self.heap {
            put_place(self.words.as_mut_slice(), start, at, value);
        } else {
            self.put_in_frame(start, at, value);
        }
    }
}
