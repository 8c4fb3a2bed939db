//! The numbers that tokens get.

ghost use Rattle.std.specs.Prelude.{◌≡◌, ℕ};

/// What stands in the shortened code for each token of a file's code.
pub trait Renumber {
    /// The number of two bytes for a token.
    ghost numbered: { Self → ℕ → ℕ };

    /// The number of two bytes for a token of four (II.22, III.1.9), also for one of a user string.
    fn token(&self, token: u32) -> u16
        ensures { result ≡ numbered self.now token };
}
