//! Where the texts of `#Strings` begin, without going over a long text again for each of many indexes into it.
//!
//! The heap falls into blocks of one length. Of the first four places of each block a table tells whether a text begins
//! there:
//!
//! ```text
//! heap   |....~~~~~~~~~~~~|....~~~~~~~~~~~~|....~~~~~      . in the table   ~ not
//! table   0123             4567             89..
//! ```
//!
//! A text begins at a place exactly where one begins behind the character that stands there, since a text is characters
//! up to a zero byte. So a walk from any place, character by character, ends at a zero byte, at bytes that are no
//! character, or in the next block; a character has at most four bytes, so it comes down on one of that block's first
//! four places, of which the table knows. The table is filled from its end down, each place by such a walk. A look-up
//! goes over one block at most, and all of it in time that grows with the heap and the look-ups.

ghost use Rattle.std.specs.Prelude.{◌≡◌, ℕ, ◌+◌, ◌*◌, ◌/◌, ◌<◌, ◌≤◌, ◌^◌, length, true, false, slice_index, ◌≢◌, MatchOption, MatchBool, replicate};
ghost use Rattle.cil_tables.specs.Texts.{begins, StepsTo, EndsChar, KnowsFrom};

use crate::heap::zero_place;
use std::marker::Model;

/// The least bytes of a block; they are more only where the table has too few places for the heap.
pub const SHORTEST: usize = 64;

/// The most places that a table tells of, four of each block: enough for blocks of 64 bytes in a heap below 4 MiB.
pub const MOST_PLACES: usize = 262_144;

/// The bytes from `at` to `end` have no zero byte and are UTF-8.
fn is_char(heap: &[u8], at: usize, end: usize) -> bool
    requires order { at ≤ end }
    requires inside { end ≤ length heap.now }
    ensures { MatchBool result (EndsChar heap.now at end) (EndsChar heap.now at end → ⊥) }
{
    let bytes = &heap[at..end];
    zero_place(bytes).is_none() && str::from_utf8(bytes).is_ok()
}

/// Behind the shortest run of bytes at an offset that is a character; none where no text begins there.
#[inline(never)]
fn next_char(heap: &[u8], at: usize) -> Option<usize>
    requires inside { at < length heap.now }
    requires small { length heap.now < 2 ^ 32 }
    requires start { slice_index heap.now at ≢ 0 }
    ensures { MatchOption result (begins heap.now at ≡ false) (StepsTo heap.now at) }
{
    for n in 0..4usize {
        let end = at + n + 1;
        if end <= heap.len() && is_char(heap, at, end) {
            return Some(end);
        }
    }
    None
}

/// Behind the character at an offset where no zero byte stands; none where no text begins there.
#[inline(always)]
fn next_place(heap: &[u8], at: usize) -> Option<usize>
    requires inside { at < length heap.now }
    requires small { length heap.now < 2 ^ 32 }
    requires start { slice_index heap.now at ≢ 0 }
    ensures { MatchOption result (begins heap.now at ≡ false) (StepsTo heap.now at) }
{
    if heap[at] < 128 {
        return Some(at + 1);
    }
    next_char(heap, at)
}

/// A heap with what is known of the first places of each of its blocks: whether a text begins there. Contracts see it
/// as the heap.
#[derive(Drop)]
pub struct TextIndex<'a> {
    heap: &'a [u8],
    block: usize,
    known: &'a [bool],
}

impl<'a> Model for TextIndex<'a> {
    ghost use Rattle.std.specs.Prelude.{List, ℕ};

    ghost Value = { List ℕ };

    ghost use Rattle.cil_tables.specs.IndexOf.{IsIndex};

    ghost view = { λ t. t.heap.now };

    ghost invariant = { IsIndex };
}

/// Whether a text begins at an offset, by what is known of the places behind its block.
#[inline(never)]
fn walk(heap: &[u8], block: usize, known: &[bool], number: usize, start: usize) -> bool
    requires small { length heap.now < 2 ^ 32 }
    requires size { SHORTEST ≤ block }
    requires bound { block ≤ 2 ^ 32 }
    requires most { length known.now ≤ MOST_PLACES }
    requires covers { length heap.now < length known.now / 4 * block }
    requires numbered { number < length known.now / 4 }
    requires inside { start < (number + 1) * block }
    requires known { KnowsFrom heap.now block known.now (4 * (number + 1)) }
    ensures { result ≡ begins heap.now start }
{
    let next = (number + 1) * block;
    let end = next.min(heap.len());
    let mut at = start;
    while at < end {
        let byte = heap[at];
        if byte == 0 {
            return true;
        }
        if byte < 128 {
            at += 1;
            continue;
        }
        match next_char(heap, at) {
            None => return false,
            Some(place) => at = place,
        }
    }
    if at >= heap.len() {
        return false;
    }
    known[4 * (number + 1) + (at - next)]
}

/// Whether a text begins at one of the first four places of a block, by what is known of the later places.
fn walk_on(heap: &[u8], block: usize, known: &[bool], number: usize, over: usize) -> bool
    requires small { length heap.now < 2 ^ 32 }
    requires size { SHORTEST ≤ block }
    requires bound { block ≤ 2 ^ 32 }
    requires most { length known.now ≤ MOST_PLACES }
    requires covers { length heap.now < length known.now / 4 * block }
    requires numbered { number < length known.now / 4 }
    requires first { over < 4 }
    requires known { KnowsFrom heap.now block known.now (4 * number + over + 1) }
    ensures { result ≡ begins heap.now (number * block + over) }
{
    let at = number * block + over;
    if at >= heap.len() {
        return false;
    }
    if heap[at] == 0 {
        return true;
    }
    match next_place(heap, at) {
        None => false,
        Some(place) => {
            let behind = over + (place - at);
            if behind < 4 {
                known[4 * number + behind]
            } else {
                walk(heap, block, known, number, place)
            }
        }
    }
}

/// Notes what is known of each block, from the last one that the heap reaches down.
fn know(heap: &[u8], block: usize, known: &mut [bool])
    requires small { length heap.now < 2 ^ 32 }
    requires size { SHORTEST ≤ block }
    requires bound { block ≤ 2 ^ 32 }
    requires most { length known.old ≤ MOST_PLACES }
    requires covers { length heap.now < length known.old / 4 * block }
    requires blank { known.old ≡ replicate (length known.old) false }
    ensures { KnowsFrom heap.now block known.new 0 }
{
    let mut place = 4 * (heap.len() / block + 1);
    while place > 0 {
        place -= 1;
        let begins = walk_on(heap, block, known, place / 4, place % 4);
        known[place] = begins;
    }
}

impl<'a> TextIndex<'a> {
    /// The index of a heap, in a blank table that it fills in time that grows with the heap alone.
    #[tactic(auto, using(crate::proofs::IndexLaws::block_covers, crate::proofs::IndexLaws::block_bound))]
    pub fn new(heap: &'a [u8], known: &'a mut [bool]) -> TextIndex<'a>
        requires small { length heap.now < 2 ^ 32 }
        requires room { 4 ≤ length known.old }
        requires most { length known.old ≤ MOST_PLACES }
        requires blank { known.old ≡ replicate (length known.old) false }
        ensures { result ≡ heap.now }
    {
        let blocks = known.len() / 4;
        let block = SHORTEST.max(heap.len() / blocks + 1);
        know(heap, block, known);
        TextIndex { heap, block, known }
    }

    /// Whether a text begins at an offset. It goes over at most one block.
    pub fn begins(&self, at: u32) -> bool
        ensures { result ≡ begins self.now at }
    {
        let at = at as usize;
        if at >= self.heap.len() {
            return false;
        }
        walk(self.heap, self.block, self.known, at / self.block, at)
    }
}
