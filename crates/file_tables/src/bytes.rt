//! Little-endian numbers in a list of bytes.

ghost use Rattle.std.specs.Prelude.{◌≡◌, ◌+◌, ◌<◌, ◌≤◌, length};
ghost use Rattle.file_tables.specs.Bytes.{u16_at, u32_at, has_bit};

/// The number of two bytes that begins at an offset.
#[tactic(auto, using(crate::proofs::SameNumbers::of_two))]
pub fn u16_at(bytes: &[u8], at: usize) -> u16
    requires { at + 2 ≤ length bytes.now }
    ensures { result ≡ u16_at bytes.now at }
{
    little_endian::u16_at(bytes, at)
}

/// The number of four bytes that begins at an offset.
#[tactic(auto, using(crate::proofs::SameNumbers::of_four))]
pub fn u32_at(bytes: &[u8], at: usize) -> u32
    requires { at + 4 ≤ length bytes.now }
    ensures { result ≡ u32_at bytes.now at }
{
    little_endian::u32_at(bytes, at)
}

/// Whether bit `k` of a number is set.
pub fn has_bit(n: u64, k: u32) -> bool
    requires { k < 64 }
    ensures { result ≡ has_bit n k }
{
    (n >> k) % 2 == 1
}
