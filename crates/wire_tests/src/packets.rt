//! Packets with known bytes, streams in pieces, and packets that are none.

use arrayvec::ArrayVec;
use case_text::{Line, bytes_of, lines_of};
use std::process::Abort;
use std::test::Fail;
use wire_packets::packet::MAX_PAYLOAD;
use wire_packets::{Decoded, Packet, decode, encode};

/// Packets and their bytes: what the packet is, its command, the number of the request, and its payload. In their order: Open, the first
/// request of a session; Erase of sector 5, the third; Close, the second; the replies to that Open, 32 sectors of 8,192 bytes, and to that
/// Close.
const KNOWN: &str = "
request | 1 | 1 | | 4D 53 70 6B 74 56 31 00 78 02 00 00 00 00 00 00 01 00 00 00 01 00 00 00 00 00 00 00 00 00 00 00
request | 4 | 3 | 05 00 00 00 | 4D 53 70 6B 74 56 31 00 86 02 00 00 05 00 00 00 04 00 00 00 03 00 00 00 00 00 00 00 04 00 00 00 05 00 00 00
request | 7 | 2 | | 4D 53 70 6B 74 56 31 00 7F 02 00 00 00 00 00 00 07 00 00 00 02 00 00 00 00 00 00 00 00 00 00 00
reply | 1 | 1 | 00 20 00 00 00 00 20 00 00 | 4D 53 70 6B 74 56 31 00 C2 02 00 00 40 00 00 00 01 00 00 00 00 00 01 00 01 00 00 00 09 00 00 00 00 20 00 00 00 00 20 00 00
reply | 7 | 2 | 00 | 4D 53 70 6B 74 56 31 00 81 02 00 00 00 00 00 00 07 00 00 00 00 00 02 00 01 00 00 00 01 00 00 00 00
";

/// The packet has these bytes and is read from them, from no fewer, and not with another last byte.
fn spelt(rt: &impl Abort, p: Packet, bytes: &[u8]) {
    assert!(rt; p.flags < 2);
    let mut out = ArrayVec::new();
    encode(&p, &mut out);
    assert!(rt; out.as_slice() == bytes);
    assert!(rt; out.len() >= 32);
    assert!(rt; decode(&out[..out.len() - 1]) == Decoded::Short);
    let length = out.len() as u32;
    let _ = out.try_push(0x4D);
    assert!(rt; decode(&out) == Decoded::Whole(p, length));
}

/// The packet of a line, a request or a reply.
fn packet_of(rt: &impl Abort, line: &Line<'_>, payload: &[u8]) -> Result<Packet, Fail> {
    assert!(rt; payload.len() <= MAX_PAYLOAD);
    let command = line.number(1)?;
    let number = u16::from(line.byte(2)?);
    Ok(match line.text(0) {
        "request" => Packet::request(command, number, payload),
        _ => Packet::new(command, 0, number, 1, payload),
    })
}

#[test]
fn known_packets(rt: HostRuntime) -> Result<(), Fail> {
    let lines = lines_of(rt.alloc(), KNOWN, '|')?;
    for line in lines.as_slice() {
        let payload = line.bytes(rt.alloc(), 3)?;
        let bytes = line.bytes(rt.alloc(), 4)?;
        let packet = packet_of(&rt, line, payload.as_slice())?;
        spelt(&rt, packet, bytes.as_slice());
    }
    Ok(())
}

/// Bytes, and what they are read as: a sound header but for its size of 1,025 bytes, fronts of packets, and an Erase with another last
/// byte, and with another number.
const DAMAGED: &str = "
4D 53 70 6B 74 56 31 00 7D 02 00 00 00 00 00 00 01 00 00 00 01 00 00 00 00 00 00 00 01 04 00 00 | damaged
4D 53 70 6B 74 56 32 | damaged
4D 53 70 6B 74 56 31 | short
| short
4D 53 70 6B 74 56 31 00 86 02 00 00 05 00 00 00 04 00 00 00 03 00 00 00 00 00 00 00 04 00 00 00 05 00 00 06 | damaged
4D 53 70 6B 74 56 31 00 86 02 00 00 05 00 00 00 04 00 00 00 04 00 00 00 00 00 00 00 04 00 00 00 05 00 00 00 | damaged
";

#[test]
fn damaged_packets(rt: HostRuntime) -> Result<(), Fail> {
    let lines = lines_of(rt.alloc(), DAMAGED, '|')?;
    for line in lines.as_slice() {
        let bytes = line.bytes(rt.alloc(), 0)?;
        let wanted = match line.text(1) {
            "short" => Decoded::Short,
            _ => Decoded::Damaged,
        };
        assert!(rt; decode(bytes.as_slice()) == wanted, "{}", line.text(0));
    }
    Ok(())
}

/// How many packets a stream has that comes in two pieces.
fn count_in_pieces(stream: &[u8], first: usize) -> u32 {
    let mut at: usize = 0;
    let mut count: u32 = 0;
    for end in [first, stream.len()] {
        for _ in 0..200 {
            let Some(front) = stream.get(at..end) else {
                break;
            };
            match decode(front) {
                Decoded::Whole(_, length) => {
                    count = count.saturating_add(1);
                    at = at.saturating_add(length as usize);
                }
                Decoded::Short => break,
                Decoded::Damaged => at = at.saturating_add(1),
            }
        }
    }
    count
}

/// Two bytes and a third that begins a packet, Erase twice, a byte, the reply to Open, and the front of a packet.
const STREAM: &str = "
4D 53 4D
4D 53 70 6B 74 56 31 00 86 02 00 00 05 00 00 00 04 00 00 00 03 00 00 00 00 00 00 00 04 00 00 00 05 00 00 00
4D 53 70 6B 74 56 31 00 86 02 00 00 05 00 00 00 04 00 00 00 03 00 00 00 00 00 00 00 04 00 00 00 05 00 00 00
78
4D 53 70 6B 74 56 31 00 C2 02 00 00 40 00 00 00 01 00 00 00 00 00 01 00 01 00 00 00 09 00 00 00 00 20 00 00 00 00 20 00 00
4D 53 70 6B 74
";

#[test]
fn every_split_of_a_stream(rt: HostRuntime) -> Result<(), Fail> {
    let stream = bytes_of(rt.alloc(), STREAM)?;
    assert!(rt; stream.len() == 3 + 36 + 36 + 1 + 41 + 5);
    for first in 0..=stream.len() {
        assert!(rt; count_in_pieces(stream.as_slice(), first) == 3);
    }
    Ok(())
}
