//! The innermost frame: its variables, its stack, and its place in the code.

ghost use Rattle.std.specs.Prelude.{◌≡◌, ◌+◌, ◌<◌, ◌∷◌, nat_lt, List, slice_index};
ghost use Rattle.std.specs.Int.{w32, cast_signed};
ghost use Rattle.tiny_ram.specs.Memory.{Memory, RamFrame, with_frames, variables, variable_value, with_variable, top_value, popped, pushed};
ghost use Rattle.tiny_ram.specs.Region.{Keeps, Done};

use crate::memory::{MOST_WORDS, Ram};
use board_types::value::Value;
use ram_words::cells::{kept, put_kept};

impl Ram {
    /// What the n-th argument or local holds, the arguments first; none where nothing was put, and where there is no such place.
    #[inline(always)]
    pub fn variable(&self, n: u16) -> Option<Value>
        ensures { (m : Memory) (f : RamFrame) (fs : List RamFrame) → Keeps self.now m → m.frames ≡ f ∷ fs → result ≡ variable_value f n }
    {
        let at = self.hot.arguments.wrapping_add(3 * n as usize);
        if at >= self.hot.stack || at >= MOST_WORDS {
            return None;
        }
        kept(&self.words, at)
    }

    /// Puts a value into the n-th argument or local, as it is. False where there is no such place.
    #[inline(always)]
    pub fn put_variable(&mut self, n: u16, value: Value) -> bool
        ensures done { (m : Memory) (f : RamFrame) (fs : List RamFrame) → Keeps self.old m → m.frames ≡ f ∷ fs → Done self.old self.new m (with_variable f n value) fs result }
        ensures there { (m : Memory) (f : RamFrame) (fs : List RamFrame) → Keeps self.old m → m.frames ≡ f ∷ fs → result ≡ nat_lt n (variables f) }
    {
        let at = self.hot.arguments.wrapping_add(3 * n as usize);
        if at >= self.hot.stack || at >= MOST_WORDS {
            return false;
        }
        put_kept(self.words.as_mut_slice(), at, value);
        true
    }

    /// Pushes a value. False where the stack is full.
    #[inline(always)]
    pub fn push(&mut self, value: Value) -> bool
        ensures done { (m : Memory) (f : RamFrame) (fs : List RamFrame) → Keeps self.old m → m.frames ≡ f ∷ fs → Done self.old self.new m (pushed f value) fs result }
        ensures room { (m : Memory) (f : RamFrame) (fs : List RamFrame) → Keeps self.old m → m.frames ≡ f ∷ fs → result ≡ nat_lt f.depth (slice_index f.sizes 2) }
    {
        let top = self.hot.top;
        if top >= self.hot.limit || top >= MOST_WORDS {
            return false;
        }
        put_kept(self.words.as_mut_slice(), top, value);
        self.hot.top = top + 3;
        true
    }

    /// Pops the topmost value; none on an empty stack.
    #[inline(always)]
    pub fn pop(&mut self) -> Option<Value>
        ensures value { (m : Memory) (f : RamFrame) (fs : List RamFrame) → Keeps self.old m → m.frames ≡ f ∷ fs → result ≡ top_value f }
        ensures popped { (m : Memory) (f : RamFrame) (fs : List RamFrame) → Keeps self.old m → m.frames ≡ f ∷ fs → Keeps self.new (with_frames m (popped f ∷ fs)) }
    {
        let top = self.hot.top;
        if top <= self.hot.stack || top >= MOST_WORDS + 3 {
            return None;
        }
        let at = top.saturating_sub(3);
        self.hot.top = at;
        kept(&self.words, at)
    }

    /// The place in the code.
    #[inline(always)]
    pub fn place(&self) -> i32
        ensures { (m : Memory) (f : RamFrame) (fs : List RamFrame) → Keeps self.now m → m.frames ≡ f ∷ fs → result ≡ f.place }
    {
        self.hot.place.cast_signed()
    }

    /// Goes on at a place in the code.
    #[inline(always)]
    pub fn go_to(&mut self, place: i32)
        ensures { (m : Memory) (f : RamFrame) (fs : List RamFrame) → Keeps self.old m → m.frames ≡ f ∷ fs → Keeps self.new (with_frames m (record f { place = place } ∷ fs)) }
    {
        self.hot.place = place.cast_unsigned();
    }
}
