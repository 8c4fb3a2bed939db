//! Numbers of two, four and eight bytes, the lowest byte first.

ghost use Rattle.std.specs.Prelude.{◌≡◌, ◌+◌, ◌*◌};

/// The number of two bytes.
pub fn two(low: u8, high: u8) -> u16
    ensures { result ≡ low + 256 * high }
{
    u16::from(low) + 256 * u16::from(high)
}

/// The number of four bytes, of which each half is a number of two.
pub fn four(low: u16, high: u16) -> u32
    ensures { result ≡ low + 65536 * high }
{
    u32::from(low) + 65536 * u32::from(high)
}

/// The number of eight bytes, of which each half is a number of four.
pub fn eight(low: u32, high: u32) -> u64
    ensures { result ≡ low + 4294967296 * high }
{
    u64::from(low) + 4_294_967_296 * u64::from(high)
}
