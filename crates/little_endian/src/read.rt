//! Reading numbers.

ghost use Rattle.std.specs.Prelude.{◌≡◌, ◌+◌, ◌≤◌, nat_le, length};
ghost use Rattle.little_endian.specs.Numbers.{number, number_inside};

use byteorder::{ByteOrder, LittleEndian};

/// The number of two bytes at a place. All of them have to be there.
#[tactic(auto, unfolding(crate::specs::Numbers::number))]
pub fn u16_at(bytes: &[u8], at: usize) -> u16
    requires { at + 2 ≤ length bytes.now }
    ensures { result ≡ number 2 at bytes.now }
{
    LittleEndian::read_u16(&bytes[at..])
}

/// The number of four bytes at a place. All of them have to be there.
#[tactic(auto, unfolding(crate::specs::Numbers::number))]
pub fn u32_at(bytes: &[u8], at: usize) -> u32
    requires { at + 4 ≤ length bytes.now }
    ensures { result ≡ number 4 at bytes.now }
{
    LittleEndian::read_u32(&bytes[at..])
}

/// The number of eight bytes at a place. All of them have to be there.
#[tactic(auto, unfolding(crate::specs::Numbers::number))]
pub fn u64_at(bytes: &[u8], at: usize) -> u64
    requires { at + 8 ≤ length bytes.now }
    ensures { result ≡ number 8 at bytes.now }
{
    LittleEndian::read_u64(&bytes[at..])
}

/// Whether so many bytes are there behind a place.
fn has(bytes: &[u8], at: usize, size: usize) -> bool
    ensures { result ≡ nat_le (at + size) (length bytes.now) }
{
    at <= bytes.len() && size <= bytes.len() - at
}

/// The number of two bytes at a place, and `None` exactly where one of them isn't there.
pub fn get_u16(bytes: &[u8], at: usize) -> Option<u16>
    ensures { result ≡ number_inside 2 at bytes.now }
{
    if has(bytes, at, 2) {
        Some(u16_at(bytes, at))
    } else {
        None
    }
}

/// The number of four bytes at a place, and `None` exactly where one of them isn't there.
pub fn get_u32(bytes: &[u8], at: usize) -> Option<u32>
    ensures { result ≡ number_inside 4 at bytes.now }
{
    if has(bytes, at, 4) {
        Some(u32_at(bytes, at))
    } else {
        None
    }
}

/// The number of eight bytes at a place, and `None` exactly where one of them isn't there.
pub fn get_u64(bytes: &[u8], at: usize) -> Option<u64>
    ensures { result ≡ number_inside 8 at bytes.now }
{
    if has(bytes, at, 8) {
        Some(u64_at(bytes, at))
    } else {
        None
    }
}
