//! Single words.

ghost use Rattle.std.specs.Prelude.{◌≡◌, ◌+◌, ◌<◌, ◌≤◌, ℕ, length, slice_index};
ghost use Rattle.ram_words.specs.Region.{SameBut};

/// A word, 0 past the end.
#[inline(always)]
pub fn word(words: &[u32], at: usize) -> u32
    ensures { result ≡ slice_index words.now at }
{
    if at < words.len() { words[at] } else { 0 }
}

/// Writes a word. Past the end nothing is written.
#[inline(always)]
pub fn put_word(words: &mut [u32], at: usize, word: u32)
    ensures here { at < length words.old → slice_index words.new at ≡ word }
    ensures outside { SameBut at (at + 1) words.old words.new }
{
    if at < words.len() {
        words[at] = word;
    }
}

/// Zeroes the words from `from` on, below `to`.
pub fn zero(words: &mut [u32], from: usize, to: usize)
    requires inside { to ≤ length words.old }
    requires order { from ≤ to }
    ensures here { (i : ℕ) → from ≤ i → i < to → slice_index words.new i ≡ 0 }
    ensures outside { SameBut from to words.old words.new }
{
    for i in from..to {
        words[i] = 0;
    }
}
