//! Writing a packet.

ghost use Rattle.std.specs.Prelude.{◌≡◌, ◌+◌, ◌*◌, ◌<◌, ◌≤◌, ◌++◌, length, sum};
ghost use Rattle.byteorder.specs.Endian.{little_bytes};
ghost use Rattle.wire_packets.specs.Spelling.{spelling, fields, IsPacket, Spells};
ghost use Rattle.little_endian.specs.Numbers.{AreBytes};

use crate::header::FIELDS_SIZE;
use crate::packet::{MAX_PACKET, Packet, SIGNATURE};
use arrayvec::ArrayVec;

/// The sum of some bytes.
pub(crate) fn byte_sum(bytes: &[u8]) -> u32
    requires { length bytes.now ≤ MAX_PACKET }
    ensures value { result ≡ sum bytes.now }
    ensures bound { result ≤ 255 * length bytes.now }
    ensures bytes { AreBytes bytes.now }
{
    bytes.iter().map(|byte| *byte as u32).sum()
}

/// Appends a number of two bytes.
fn push_u16(out: &mut ArrayVec<u8, FIELDS_SIZE>, number: u16)
    requires { length out.old.items + 2 ≤ FIELDS_SIZE }
    ensures { out.new.items ≡ out.old.items ++ little_bytes 2 number }
{
    out.try_extend_from_slice(&number.to_le_bytes()).unwrap()
}

/// Appends a number of four bytes.
fn push_u32<const N: usize>(out: &mut ArrayVec<u8, N>, number: u32)
    requires { length out.old.items + 4 ≤ N }
    ensures { out.new.items ≡ out.old.items ++ little_bytes 4 number }
{
    out.try_extend_from_slice(&number.to_le_bytes()).unwrap()
}

/// The header behind its check.
fn fields_of(p: &Packet) -> ArrayVec<u8, FIELDS_SIZE>
    ensures value { result.items ≡ fields p.now }
    ensures packet { p.now.flags < 2 → IsPacket p.now }
{
    let mut out = ArrayVec::new();
    let payload = p.payload.as_slice();
    push_u32(&mut out, byte_sum(payload));
    push_u32(&mut out, p.command);
    push_u16(&mut out, p.seq);
    push_u16(&mut out, p.reply_seq);
    push_u32(&mut out, p.flags);
    push_u32(&mut out, payload.len() as u32);
    out
}

/// Writes a packet, a request or a reply, in place of what `out` held. Nothing is allocated.
#[tactic(auto, unfolding(crate::specs::Spelling::spelling))]
pub fn encode(p: &Packet, out: &mut ArrayVec<u8, MAX_PACKET>)
    requires { p.now.flags < 2 }
    ensures written { out.new.items ≡ spelling p.now }
    ensures spells { Spells p.now out.new.items }
{
    let fields = fields_of(p);
    out.clear();
    out.try_extend_from_slice(&SIGNATURE).unwrap();
    push_u32(out, byte_sum(&SIGNATURE) + byte_sum(fields.as_slice()));
    out.try_extend_from_slice(fields.as_slice()).unwrap();
    out.try_extend_from_slice(p.payload.as_slice()).unwrap()
}
