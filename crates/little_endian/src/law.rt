//! Laws of numbers in bytes. Each function does nothing: its contract is the law.

ghost use Rattle.std.specs.Prelude.{◌≡◌, ℕ, ◌+◌, ◌^◌, ◌<◌, ◌≤◌, ◌⊎◌, List, ◌++◌, length, take};
ghost use Rattle.byteorder.specs.Endian.{little_bytes};
ghost use Rattle.little_endian.specs.Numbers.{AreBytes, number, written};

/// A number that was written is read back where it stands, and all that stands before or behind it is read as before.
pub fn reads_back()
    ensures same { (n at x : ℕ) (bytes : List ℕ) → x < 256 ^ n → at ≤ length bytes → number n at (written at (little_bytes n x) bytes) ≡ x }
    ensures others { (n at m other x : ℕ) (bytes : List ℕ) → at + n ≤ length bytes → (other + m ≤ at) ⊎ (at + n ≤ other) →
        number m other (written at (little_bytes n x) bytes) ≡ number m other bytes }
    ensures size { (n at x : ℕ) (bytes : List ℕ) → at + n ≤ length bytes → length (written at (little_bytes n x) bytes) ≡ length bytes }
{}

/// A number that is put behind bytes is read back there, whatever follows it.
pub fn reads_what_follows()
    ensures { (n x : ℕ) (front rest : List ℕ) → x < 256 ^ n → number n (length front) (front ++ little_bytes n x ++ rest) ≡ x }
{}

/// A number is that of its own bytes alone, and fits them.
pub fn own_bytes()
    ensures alone { (n at m : ℕ) (bytes : List ℕ) → at + n ≤ m → number n at (take m bytes) ≡ number n at bytes }
    ensures fits { (n at : ℕ) (bytes : List ℕ) → AreBytes bytes → number n at bytes < 256 ^ n }
{}
