//! Numbers and ranges of the metadata. Bytes past the end count as 0, as in the definitions.

ghost use Rattle.std.specs.Prelude.{◌≡◌, ◌<◌, ◌^◌, length, drop, slice_index};
ghost use Rattle.file_tables.specs.Bytes.{u16_at, u32_at, u64_at, range_of};
ghost use Rattle.file_tables.specs.Tables.{number_at};

use file_tables::bytes;

/// The byte at an offset, or 0 past the end.
pub fn byte(region: &[u8], at: usize) -> u8
    ensures { result ≡ slice_index region.now at }
{
    if at < region.len() { region[at] } else { 0 }
}

/// The number of two bytes at an offset.
#[tactic(auto, unfolding(file_tables::specs::Bytes::u16_at))]
pub fn two(region: &[u8], at: usize) -> u16
    requires { at < 2 ^ 62 }
    ensures { result ≡ u16_at region.now at }
{
    byte(region, at) as u16 + 256 * byte(region, at + 1) as u16
}

/// The number of four bytes at an offset.
#[tactic(auto, unfolding(file_tables::specs::Bytes::u32_at))]
pub fn four(region: &[u8], at: usize) -> u32
    requires { at < 2 ^ 61 }
    ensures { result ≡ u32_at region.now at }
{
    if region.len() >= 4 && at <= region.len() - 4 {
        bytes::u32_at(region, at)
    } else {
        two(region, at) as u32 + 65536 * two(region, at + 2) as u32
    }
}

/// The number of eight bytes at an offset.
#[tactic(auto, unfolding(file_tables::specs::Bytes::u64_at))]
pub fn eight(region: &[u8], at: usize) -> u64
    requires { at < 2 ^ 60 }
    ensures { result ≡ u64_at region.now at }
{
    four(region, at) as u64 + 0x1_0000_0000 * four(region, at + 4) as u64
}

/// The number of two or four bytes at an offset.
#[tactic(auto, unfolding(file_tables::specs::Tables::number_at))]
pub fn number(region: &[u8], at: usize, width: usize) -> u32
    requires { at < 2 ^ 61 }
    ensures { result ≡ number_at region.now at width }
{
    if width <= 2 {
        two(region, at) as u32
    } else {
        four(region, at)
    }
}

/// The bytes of a range, as far as they are there.
pub fn range(region: &[u8], at: usize, len: usize) -> &[u8]
    requires sizes { at < 2 ^ 62 }
    requires lens { len < 2 ^ 62 }
    ensures { result.now ≡ range_of region.now at len }
{
    let end = region.len().min(at + len);
    let start = region.len().min(at);
    &region[start..end]
}

/// The bytes from an offset on.
pub fn rest(region: &[u8], at: usize) -> &[u8]
    ensures { result.now ≡ drop at region.now }
{
    let start = region.len().min(at);
    let (_, rest) = region.split_at(start);
    rest
}
