//! Frames, before the innermost one.

ghost use Rattle.std.specs.Prelude.{◌≡◌, ◌≢◌, ◌+◌, ◌-◌, ◌*◌, ◌/◌, ◌%◌, ◌^◌, ◌<◌, ◌≤◌, ℕ, List, ◌∷◌, sum, length, slice_index};
ghost use Rattle.ram_words.specs.Region.{SameBut};
ghost use Rattle.ram_words.specs.Frames.{sizes_at, hot_at};
ghost use Rattle.tiny_ram.specs.Memory.{Memory, RamFrame, fresh_frame, frame_cells, IsFrame, innermost, caller_of, callers};
ghost use Rattle.tiny_ram.specs.Region.{Keeps, MadeFrame, Stands, Stacked};

use crate::memory::{MOST_WORDS, Ram, Spent, start_of};
use board_types::board::TypeAt;
use ram_words::frames::{Hot, SIZES, put_depth, put_header, sizes, waiting};
use ram_words::region::{put_word, zero};

/// The sum of a frame's sizes.
#[inline(always)]
pub(crate) fn total(sizes: [u32; 4]) -> usize
    ensures sum { result ≡ sum sizes }
    ensures small { result < 2 ^ 34 }
{
    let [arguments, locals, stack, clauses] = sizes;
    arguments as usize + locals as usize + stack as usize + clauses as usize
}

/// The word behind the frame that begins at a word.
#[inline(always)]
fn end_of(words: &[u32], base: usize) -> usize
    requires { base ≤ 2 ^ 35 }
    ensures end { result ≡ base + 3 * (2 + sum (sizes_at words.now base)) }
    ensures small { result < 2 ^ 37 }
{
    base + 3 * (2 + total(sizes(words, base)))
}

/// Writes where a frame goes on into its header, so that it waits.
#[inline(always)]
pub(crate) fn put_waiting(words: &mut [u32], base: usize, hot: Hot)
    requires { base ≤ 2 ^ 35 }
    ensures depth { base < length words.old → slice_index words.new base % 2 ^ 22 ≡ (hot.top - hot.stack) / 3 % 2 ^ 22 }
    ensures initialiser { base < length words.old → slice_index words.new base / 2 ^ 22 ≡ slice_index words.old base / 2 ^ 22 }
    ensures place { base + 2 < length words.old → slice_index words.new (base + 2) ≡ hot.place }
    ensures method { slice_index words.new (base + 1) ≡ slice_index words.old (base + 1) }
    ensures outside { SameBut base (base + 3) words.old words.new }
{
    let depth = hot.top.saturating_sub(hot.stack) / 3 % SIZES as usize;
    put_depth(words, base, depth as u32);
    put_word(words, base + 2, hot.place);
}

/// Writes a frame whose places are as at the start into the words from `base` to `end`.
fn put_frame(words: &mut [u32], base: usize, end: usize, method: TypeAt, sizes: [u32; 4])
    requires end { end ≡ base + 3 * frame_cells (fresh_frame method sizes) }
    requires inside { end ≤ length words.old }
    requires small { length words.old ≤ 12582912 }
    ensures stands { Stands words.new base (hot_at words.new base) (fresh_frame method sizes) }
    ensures outside { SameBut base end words.old words.new }
{
    zero(words, base, end);
    put_header(words, base, method, sizes);
}

/// Writes a new frame before the innermost one, which then waits.
fn push_frame(words: &mut [u32], base: usize, low: usize, hot: Hot, method: TypeAt, sizes: [u32; 4])
    requires end { low ≡ base + 3 * frame_cells (fresh_frame method sizes) }
    requires inside { low ≤ length words.old }
    requires small { length words.old ≤ 12582912 }
    ensures stacked { (end : ℕ) (fs : List RamFrame) → length words.old ≡ end → Stacked words.old end low hot fs → Stacked words.new end base (hot_at words.new base) (fresh_frame method sizes ∷ fs) }
    ensures outside { SameBut base (low + 3) words.old words.new }
{
    put_waiting(words, low, hot);
    put_frame(words, base, low, method, sizes);
}

impl Ram {
    /// A frame of a method before the innermost one, with these numbers of arguments, locals, stack places and clauses. The
    /// answer is its number.
    pub fn frame(&mut self, method: TypeAt, sizes: [u32; 4]) -> Result<u32, Spent>
        ensures { (m : Memory) → Keeps self.old m → MadeFrame self.old self.new m (fresh_frame method sizes) result }
    {
        let (at, low) = (self.heap, self.low());
        let cells = 2 + total(sizes);
        if low > self.words.len() || self.words.len() > MOST_WORDS {
            return Err(Spent);
        }
        if at > low || (low - at) / 3 < cells {
            return Err(Spent);
        }
        let base = low - 3 * cells;
        let hot = self.hot;
        push_frame(self.words.as_mut_slice(), base, low, hot, method, sizes);
        self.hot = waiting(&self.words, base);
        Ok((base / 3) as u32 + 1)
    }

    /// Ends the innermost frame; its caller goes on as its header says.
    pub fn end_frame(&mut self)
        ensures { (m : Memory) → Keeps self.old m → Keeps self.new (record m { frames = callers m.frames }) }
    {
        let base = self.low();
        if base < self.words.len() && base < MOST_WORDS {
            let end = end_of(&self.words, base);
            self.hot = waiting(&self.words, end);
        }
    }

    /// The number of the frame that begins at a word, 0 at the end.
    #[inline(always)]
    fn number_at(&self, base: usize) -> u32
        ensures frame { base < length self.now.words.items → base < 12582912 → result ≡ base / 3 + 1 }
        ensures none { length self.now.words.items ≤ base → result ≡ 0 }
    {
        if base < self.words.len() && base < MOST_WORDS {
            (base / 3) as u32 + 1
        } else {
            0
        }
    }

    /// The innermost frame, or 0.
    pub fn top(&self) -> u32
        ensures { (m : Memory) → Keeps self.now m → result ≡ innermost m.room m.frames }
    {
        self.number_at(self.low())
    }

    /// The frame that a frame goes back to, or 0.
    pub fn caller(&self, frame: u32) -> u32
        ensures { (m : Memory) (f : RamFrame) → Keeps self.now m → IsFrame m frame f → result ≡ caller_of m.room m.frames frame }
    {
        self.number_at(end_of(&self.words, start_of(frame)))
    }

    /// The numbers of a frame's arguments, locals, stack places and clauses.
    pub fn sizes(&self, frame: u32) -> [u32; 4]
        ensures { (m : Memory) (f : RamFrame) → Keeps self.now m → IsFrame m frame f → result ≡ f.sizes }
    {
        sizes(&self.words, start_of(frame))
    }

    /// Where the frame that begins at a word goes on.
    #[inline(always)]
    pub(crate) fn hot_of(&self, base: usize) -> Hot
        requires { base ≤ 2 ^ 35 }
        ensures innermost { base + 6 ≡ self.now.hot.arguments → result ≡ self.now.hot }
        ensures waiting { base + 6 ≢ self.now.hot.arguments → result ≡ hot_at self.now.words.items base }
    {
        if base + 6 == self.hot.arguments {
            self.hot
        } else {
            waiting(&self.words, base)
        }
    }
}
