//! Reading what stands at the front of some bytes.

ghost use Rattle.std.specs.Prelude.{◌≡◌, ℕ, ◌+◌, ◌≤◌, ◌↔◌, IsTrue, length, take};
ghost use Rattle.wire_packets.specs.Spelling.{Spells};
ghost use Rattle.wire_packets.specs.declared.packet.Packet.{Packet};
ghost use Rattle.wire_packets.specs.Decoding.{agrees, is_sound, packet, size, decoded, IsShort};

use crate::encoding::byte_sum;
use crate::header::{
    COMMAND, DATA_CHECK, FLAGS, HEADER, HEADER_CHECK, PAYLOAD_SIZE, REPLY_SEQ, SEQ,
};
use crate::packet::{MAX_PAYLOAD, Packet, SIGNATURE};
use arrayvec::ArrayVec;
use little_endian::{u16_at, u32_at};

/// What stands at the front of some bytes.
#[derive(Debug, Drop, PartialEq, Eq)]
pub enum Decoded {
    /// A packet, and how many bytes it has.
    Whole(Packet, u32),
    /// The beginning of a packet, as far as can be told.
    Short,
    /// No packet begins here.
    Damaged,
}

/// Whether the bytes agree with the signature as far as they go.
#[tactic(auto, unfolding(crate::specs::Decoding::agrees))]
fn may_begin(bytes: &[u8]) -> bool
    ensures { result ≡ agrees bytes.now }
{
    SIGNATURE.iter().zip(bytes).all(|(a, b)| *a == *b)
}

/// Whether a sound header stands at the front.
#[tactic(auto, unfolding(crate::specs::Decoding::is_sound))]
fn begins_sound(bytes: &[u8]) -> bool
    requires { HEADER ≤ length bytes.now }
    ensures value { result ≡ is_sound bytes.now }
    ensures size { IsTrue result → size bytes.now ≤ MAX_PAYLOAD }
{
    let check = byte_sum(&bytes[..HEADER_CHECK]) + byte_sum(&bytes[DATA_CHECK..HEADER]);
    may_begin(bytes)
        && u32_at(bytes, HEADER_CHECK) == check
        && u32_at(bytes, FLAGS) < 2
        && u32_at(bytes, PAYLOAD_SIZE) <= MAX_PAYLOAD as u32
}

/// The packet of a header and its payload.
fn packet_of(bytes: &[u8]) -> Packet
    requires long { HEADER ≤ length bytes.now }
    requires fits { size bytes.now ≤ MAX_PAYLOAD }
    requires whole { HEADER + size bytes.now ≤ length bytes.now }
    ensures { result ≡ packet bytes.now }
{
    let size = u32_at(bytes, PAYLOAD_SIZE) as usize;
    let mut payload = ArrayVec::new();
    payload
        .try_extend_from_slice(&bytes[HEADER..HEADER + size])
        .unwrap();
    Packet {
        command: u32_at(bytes, COMMAND),
        seq: u16_at(bytes, SEQ),
        reply_seq: u16_at(bytes, REPLY_SEQ),
        flags: u32_at(bytes, FLAGS),
        payload,
    }
}

/// The answer, computed field by field.
#[tactic(auto, unfolding(crate::specs::Decoding::decoded))]
fn answer(bytes: &[u8]) -> Decoded
    ensures { result ≡ decoded bytes.now }
{
    if bytes.len() < HEADER {
        return if may_begin(bytes) {
            Decoded::Short
        } else {
            Decoded::Damaged
        };
    }
    if !begins_sound(bytes) {
        return Decoded::Damaged;
    }
    let size = u32_at(bytes, PAYLOAD_SIZE);
    if bytes.len() < HEADER + size as usize {
        return Decoded::Short;
    }
    if byte_sum(&bytes[HEADER..HEADER + size as usize]) != u32_at(bytes, DATA_CHECK) {
        return Decoded::Damaged;
    }
    Decoded::Whole(packet_of(bytes), HEADER as u32 + size)
}

/// Tells what stands at the front of some bytes: a packet, where some of the first bytes are its spelling; `Short`,
/// where these bytes may be the beginning of a packet's; `Damaged` in all other cases. Nothing is allocated.
pub fn decode(bytes: &[u8]) -> Decoded
    // A packet exactly where a prefix of the bytes spells it.
    ensures whole { (p : Packet) (n : ℕ) →
        (result ≡ Decoded.Whole p n) ↔ ((n ≤ length bytes.now) × Spells p (take n bytes.now)) }

    ensures short { (result ≡ Decoded.Short) ↔ IsShort bytes.now }
    ensures damaged { (result ≡ Decoded.Damaged) ↔ (¬ IsShort bytes.now ×
        ((p : Packet) (n : ℕ) → n ≤ length bytes.now → ¬ Spells p (take n bytes.now))) }

    // The same as one function of the bytes, by which streams are read.
    ensures exact { result ≡ decoded bytes.now }
{
    answer(bytes)
}
