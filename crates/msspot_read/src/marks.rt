//! Marks on the offsets of a pool.

ghost use Rattle.std.specs.Prelude.{◌≡◌, ℕ, ◌&&◌, ◌||◌, nat_eq, false};
ghost use Rattle.msspot_read.specs.Marked.{is_marked};

/// The words of 64 marks each: enough for every offset of two bytes.
const WORDS: usize = 1024;

/// A set of offsets.
#[derive(Drop)]
pub struct Marks {
    pub words: [u64; WORDS],
}

impl Marks {
    /// No marks.
    pub fn none() -> Marks
        ensures { (k : ℕ) → is_marked result.words k ≡ false }
    {
        Marks { words: [0; WORDS] }
    }

    /// Marks an offset if told so.
    pub fn note(&mut self, at: u16, on: bool)
        ensures { (k : ℕ) → is_marked self.new.words k ≡ (nat_eq k at && on || is_marked self.old.words k) }
    {
        if on {
            let word = usize::from(at / 64);
            self.words[word] |= 1u64 << (at % 64);
        }
    }

    /// Whether an offset is marked.
    pub fn has(&self, at: u16) -> bool
        ensures { result ≡ is_marked self.now.words at }
    {
        self.words[usize::from(at / 64)] >> (at % 64) & 1 == 1
    }
}
