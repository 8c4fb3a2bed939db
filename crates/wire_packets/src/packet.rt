//! The packet, and sizes of its parts.

ghost use Rattle.std.specs.Prelude.{◌≡◌, ◌≤◌, length};
ghost use Rattle.wire_packets.specs.Made.{packet_with};

use crate::header::HEADER;
use arrayvec::ArrayVec;

/// The most bytes that a payload has.
pub const MAX_PAYLOAD: usize = 1024;

/// The most bytes that a packet has: a header and the longest payload.
pub const MAX_PACKET: usize = HEADER + MAX_PAYLOAD;

/// The first eight bytes of every packet: `MSpktV1` and a zero.
pub const SIGNATURE: [u8; 8] = [0x4D, 0x53, 0x70, 0x6B, 0x74, 0x56, 0x31, 0x00];

/// The flags of a request.
pub const REQUEST: u32 = 0;

/// The flags of a reply.
pub const REPLY: u32 = 1;

/// The last number that a request of a session can have.
pub const LAST_SEQ: u16 = 65_535;

/// A request to the board, or the board's reply to one.
#[derive(Debug, Drop, PartialEq, Eq)]
pub struct Packet {
    /// Which request it is, or which one it answers.
    pub command: u32,
    /// The number of a request in its session; 0 in a reply.
    pub seq: u16,
    /// In a reply the number of the request that it answers.
    pub reply_seq: u16,
    /// [`REQUEST`] or [`REPLY`].
    pub flags: u32,
    pub payload: ArrayVec<u8, MAX_PAYLOAD>,
}

impl Packet {
    /// A packet with this payload.
    pub fn new(command: u32, seq: u16, reply_seq: u16, flags: u32, payload: &[u8]) -> Self
        requires { length payload.now ≤ MAX_PAYLOAD }
        ensures { result ≡ packet_with command seq reply_seq flags payload.now }
    {
        let mut copy = ArrayVec::new();
        copy.try_extend_from_slice(payload).unwrap();
        Packet {
            command,
            seq,
            reply_seq,
            flags,
            payload: copy,
        }
    }

    /// A request.
    pub fn request(command: u32, seq: u16, payload: &[u8]) -> Self
        requires { length payload.now ≤ MAX_PAYLOAD }
        ensures { result ≡ packet_with command seq 0 REQUEST payload.now }
    {
        Packet::new(command, seq, 0, REQUEST, payload)
    }

    /// The same packet once more. Nothing is allocated.
    pub fn copied(&self) -> Self
        ensures { result ≡ self.now }
    {
        Packet::new(
            self.command,
            self.seq,
            self.reply_seq,
            self.flags,
            self.payload.as_slice(),
        )
    }
}
