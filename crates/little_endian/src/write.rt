//! Writing numbers.

ghost use Rattle.std.specs.Prelude.{◌≡◌, ◌+◌, ◌≤◌, length};
ghost use Rattle.byteorder.specs.Endian.{little_bytes};
ghost use Rattle.little_endian.specs.Numbers.{written};

use byteorder::{ByteOrder, LittleEndian};

/// Writes a number of two bytes at a place. All other bytes stay.
pub fn write_u16(bytes: &mut [u8], at: usize, number: u16)
    requires { at + 2 ≤ length bytes.old }
    ensures { bytes.new ≡ written at (little_bytes 2 number) bytes.old }
{
    LittleEndian::write_u16(&mut bytes[at..at + 2], number)
}

/// Writes a number of four bytes at a place. All other bytes stay.
pub fn write_u32(bytes: &mut [u8], at: usize, number: u32)
    requires { at + 4 ≤ length bytes.old }
    ensures { bytes.new ≡ written at (little_bytes 4 number) bytes.old }
{
    LittleEndian::write_u32(&mut bytes[at..at + 4], number)
}

/// Writes a number of eight bytes at a place. All other bytes stay.
pub fn write_u64(bytes: &mut [u8], at: usize, number: u64)
    requires { at + 8 ≤ length bytes.old }
    ensures { bytes.new ≡ written at (little_bytes 8 number) bytes.old }
{
    LittleEndian::write_u64(&mut bytes[at..at + 8], number)
}
