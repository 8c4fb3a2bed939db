//! Headers of frames.

ghost use Rattle.std.specs.Prelude.{◌≡◌, ◌+◌, ◌*◌, ◌/◌, ◌%◌, ◌^◌, ◌<◌, ◌≤◌, ℕ, length, slice_index, if◌then◌else◌};
ghost use Rattle.ram_words.specs.Region.{SameBut};
ghost use Rattle.ram_words.specs.Frames.{sizes_at, method_at, hot_at};

use crate::elems::word_of;
use crate::region::{put_word, word};
use board_types::board::TypeAt;

/// One more than the greatest number of places that a header holds.
pub const SIZES: u32 = 0x40_0000;

/// Where a frame lies, in words, and where it is in its code.
#[derive(Clone, Copy, Debug)]
pub struct Hot {
    pub arguments: usize,
    pub locals: usize,
    pub stack: usize,
    /// The word past the topmost value, and the one past the last stack place.
    pub top: usize,
    pub limit: usize,
    /// The bits of an int32.
    pub place: u32,
}

/// Arguments, locals, stack places and clauses of the frame whose header begins at a word.
#[inline(always)]
#[tactic(auto, unfolding(crate::specs::Frames::sizes_at))]
pub fn sizes(words: &[u32], base: usize) -> [u32; 4]
    requires { base ≤ 2 ^ 40 }
    ensures { result ≡ sizes_at words.now base }
{
    let (a, b, c) = (
        word(words, base + 3),
        word(words, base + 4),
        word(words, base + 5),
    );
    let clauses = a / SIZES + 0x400 * (b / SIZES) + 0x10_0000 * (c / SIZES);
    [a % SIZES, b % SIZES, c % SIZES, clauses]
}

/// Where a waiting frame goes on.
#[inline(always)]
#[tactic(auto, unfolding(crate::specs::Frames::sizes_at, crate::specs::Frames::hot_at))]
pub fn waiting(words: &[u32], base: usize) -> Hot
    requires { base ≤ 2 ^ 40 }
    ensures { result ≡ hot_at words.now base }
{
    let locals = base + 6 + 3 * (word(words, base + 3) % SIZES) as usize;
    let stack = locals + 3 * (word(words, base + 4) % SIZES) as usize;
    Hot {
        arguments: base + 6,
        locals,
        stack,
        top: stack + 3 * (word(words, base) % SIZES) as usize,
        limit: stack + 3 * (word(words, base + 5) % SIZES) as usize,
        place: word(words, base + 2),
    }
}

/// Writes the numbers of a frame's places into its header.
#[inline(always)]
#[tactic(auto, unfolding(crate::specs::Frames::sizes_at))]
fn put_sizes(words: &mut [u32], base: usize, sizes: [u32; 4])
    requires start { base ≤ 2 ^ 40 }
    requires arguments { slice_index sizes 0 < 2 ^ 22 }
    requires locals { slice_index sizes 1 < 2 ^ 22 }
    requires stack { slice_index sizes 2 < 2 ^ 22 }
    requires clauses { slice_index sizes 3 < 2 ^ 22 }
    ensures here { base + 6 ≤ length words.old → sizes_at words.new base ≡ sizes }
    ensures outside { SameBut (base + 3) (base + 6) words.old words.new }
{
    let [arguments, locals, stack, clauses] = sizes;
    put_word(words, base + 3, arguments + SIZES * (clauses % 0x400));
    put_word(words, base + 4, locals + SIZES * (clauses / 0x400 % 0x400));
    put_word(words, base + 5, stack + SIZES * (clauses / 0x10_0000));
}

/// Writes the header of a new frame, which is at the start of its code with an empty stack.
#[inline(always)]
pub fn put_header(words: &mut [u32], base: usize, method: TypeAt, sizes: [u32; 4])
    requires start { base ≤ 2 ^ 40 }
    requires arguments { slice_index sizes 0 < 2 ^ 22 }
    requires locals { slice_index sizes 1 < 2 ^ 22 }
    requires stack { slice_index sizes 2 < 2 ^ 22 }
    requires clauses { slice_index sizes 3 < 2 ^ 22 }
    ensures sizes { base + 6 ≤ length words.old → sizes_at words.new base ≡ sizes }
    ensures method { base + 6 ≤ length words.old → method_at words.new base ≡ method }
    ensures depth { base + 6 ≤ length words.old → slice_index words.new base ≡ 0 }
    ensures place { base + 6 ≤ length words.old → slice_index words.new (base + 2) ≡ 0 }
    ensures outside { SameBut base (base + 6) words.old words.new }
{
    put_word(words, base, 0);
    put_word(words, base + 1, word_of(method));
    put_word(words, base + 2, 0);
    put_sizes(words, base, sizes);
}

/// Writes the number of a frame's stack values into its header.
#[inline(always)]
pub fn put_depth(words: &mut [u32], base: usize, depth: u32)
    requires start { base ≤ 2 ^ 40 }
    requires depth { depth < 2 ^ 22 }
    ensures here { base < length words.old → slice_index words.new base % 2 ^ 22 ≡ depth }
    ensures others { base < length words.old → slice_index words.new base / 2 ^ 22 ≡ slice_index words.old base / 2 ^ 22 }
    ensures outside { SameBut base (base + 1) words.old words.new }
{
    let rest = word(words, base) / SIZES * SIZES;
    put_word(words, base, rest + depth);
}

/// Writes into a frame's header whether it initialises a class.
#[inline(always)]
pub fn put_initialiser(words: &mut [u32], base: usize, initialiser: bool)
    requires start { base ≤ 2 ^ 40 }
    ensures here { base < length words.old → slice_index words.new base / 2 ^ 22 ≡ (if initialiser then 1 else 0) }
    ensures others { base < length words.old → slice_index words.new base % 2 ^ 22 ≡ slice_index words.old base % 2 ^ 22 }
    ensures outside { SameBut base (base + 1) words.old words.new }
{
    let rest = word(words, base) % SIZES;
    put_word(words, base, if initialiser { rest + SIZES } else { rest });
}
