//! Which replies match, by the bytes that both ends exchange.

use case_text::{Line, lines_of};
use std::process::Abort;
use std::test::Fail;
use wire_packets::Packet;
use wire_packets::packet::MAX_PAYLOAD;
use wire_session::matches;

/// Commands, a request's payload, a reply's payload, and whether the reply matches: Open, Program, Erase, Close, Banks and Hello.
const PLAIN: &str = "
1 | | 00 20 00 00 00 00 20 00 00 | yes
1 | | 00 1F 00 00 00 00 20 00 00 | no
1 | | 00 20 00 00 00 00 20 00 | no
1 | | 03 | yes
3 | 00 00 00 00 01 | 00 | yes
3 | 00 00 00 00 01 | 02 | yes
3 | 00 00 00 00 01 | 02 00 | no
3 | 00 00 00 00 01 | 04 | no
4 | 05 00 00 00 | 00 | yes
4 | 05 00 00 00 | 01 | no
4 | 05 00 00 00 | | no
7 | | 00 | yes
7 | | 00 00 | no
8 | | 00 | no
8 | | 00 00 00 00 00 00 00 00 00 00 00 | yes
8 | | 00 00 00 00 00 00 01 00 00 00 00 | no
8 | | 00 02 00 00 00 00 00 00 00 00 03 | yes
8 | | 00 03 01 00 00 00 FF FF FF FF 03 | yes
8 | | 00 03 02 00 00 00 01 00 00 00 03 | no
8 | | 00 03 00 00 00 00 01 00 00 00 04 | no
8 | | 00 04 00 00 00 00 00 00 00 00 00 | no
9 | | 00 | yes
9 | | 00 00 | no
10 | | 00 | no
17 | 01 00 02 00 05 00 00 00 | 00 | yes
17 | 01 00 02 00 05 00 00 00 | 00 00 | no
";

/// The same of Read and Fetch.
const RANGES: &str = "
2 | 00 00 00 00 02 00 00 00 | 00 07 08 | yes
2 | 00 00 00 00 02 00 00 00 | 00 07 | no
2 | 00 00 00 00 02 00 00 00 | 00 07 08 09 | no
2 | 00 00 00 00 00 00 00 00 | 00 | yes
2 | 00 00 00 00 00 00 00 | 00 | no
6 | 00 00 00 00 01 00 00 00 | 00 07 | yes
6 | 00 00 00 00 01 00 00 00 | 00 | no
6 | 00 00 00 00 01 00 00 00 | 03 | yes
";

/// Of Run and Start.
const ENDS: &str = "
5 | 00 00 00 00 00 00 00 00 00 00 00 00 | 00 0A 40 00 00 00 00 00 00 00 00 00 00 00 09 00 00 00 | yes
5 | 00 00 00 00 00 00 00 00 00 00 00 00 | 03 | yes
5 | 00 00 00 00 00 00 00 00 00 00 00 00 | 00 09 40 00 00 00 00 00 00 00 00 00 00 00 09 00 00 00 | no
5 | 00 00 00 00 00 00 00 00 00 00 00 00 | 00 00 00 00 00 00 00 00 00 00 00 00 00 00 0B 00 41 00 | yes
5 | 00 00 00 00 00 00 00 00 00 00 00 00 | 00 00 00 00 00 00 00 00 00 00 00 00 00 00 0C 00 41 00 | no
16 | 00 00 00 00 00 00 00 00 00 00 00 00 | 00 00 00 00 00 00 00 00 00 00 00 00 00 00 00 00 00 00 | yes
16 | 00 00 00 00 00 00 00 00 00 00 00 00 | 00 00 00 00 00 00 00 00 00 00 00 00 00 00 01 00 00 00 | no
16 | 00 00 00 00 00 00 00 00 00 00 00 00 | 00 0B 01 00 00 00 02 00 00 00 03 00 00 00 00 00 00 00 | yes
16 | 00 00 00 00 00 00 00 00 00 00 00 00 | 00 0C 00 00 00 00 00 00 00 00 00 00 00 00 00 00 00 00 | no
16 | 00 00 00 00 00 00 00 00 00 00 00 00 | 00 | no
";

/// Of Frame and Value.
const SHOWN: &str = "
19 | 00 00 00 00 | 00 01 00 02 00 05 00 00 00 01 00 02 00 03 00 | yes
19 | 00 00 00 00 | 00 01 00 02 00 05 00 00 00 01 00 02 00 03 | no
20 | 00 00 00 00 00 00 00 | 00 00 FF FF FF FF FF FF FF FF 00 00 00 00 | yes
20 | 00 00 00 00 00 00 00 | 00 08 00 00 00 00 00 00 00 00 01 00 02 00 | yes
20 | 00 00 00 00 00 00 00 | 00 09 00 00 00 00 00 00 00 00 01 00 02 00 | no
20 | 00 00 00 00 00 00 00 | 00 00 00 00 00 00 00 00 00 00 00 00 00 | no
";

/// The place of the last Break in hex digits, a reply's payload, and whether it matches a Continue.
const STATES: &str = "
- | 00 00 07 00 00 00 00 00 00 00 02 00 00 00 | yes
5 | 00 00 07 00 00 00 00 00 00 00 02 00 00 00 | yes
FFFFFFFF | 00 00 07 00 00 00 00 00 00 00 02 00 00 00 | no
FFFFFFFF | 00 01 07 00 00 00 00 00 00 00 0B 00 41 00 | yes
- | 00 01 07 00 00 00 00 00 00 00 0C 00 41 00 | no
- | 00 0C 07 00 00 00 00 00 00 00 FF FF FF FF | yes
- | 00 02 07 00 00 00 00 00 00 00 00 00 00 00 | no
- | 00 00 07 00 00 00 00 00 00 00 02 00 00 | no
";

/// Whether a reply to the request number 3 matches it. As a request the same packet never does.
fn answers(rt: &impl Abort, last: Option<u32>, command: u32, payload: &[u8], reply: &[u8]) -> bool {
    assert!(rt; payload.len() <= MAX_PAYLOAD && reply.len() <= MAX_PAYLOAD);
    let request = Packet::request(command, 3, payload);
    assert!(rt; !matches(last, &request, &Packet::new(command, 0, 3, 0, reply)));
    assert!(rt; !matches(last, &request, &Packet::new(command, 0, 4, 1, reply)));
    matches(last, &request, &Packet::new(command, 9, 3, 1, reply))
}

fn rows(rt: &(impl Abort + AllocGlobal), rows: &str) -> Result<(), Fail> {
    let lines = lines_of(rt.alloc(), rows, '|')?;
    for line in lines.as_slice() {
        let payload = line.bytes(rt.alloc(), 1)?;
        let reply = line.bytes(rt.alloc(), 2)?;
        let told = answers(
            rt,
            None,
            line.number(0)?,
            payload.as_slice(),
            reply.as_slice(),
        );
        assert!(rt; told == line.is_yes(3), "{}", line.text(0));
    }
    Ok(())
}

#[test]
fn replies_of_each_command(rt: HostRuntime) -> Result<(), Fail> {
    rows(&rt, PLAIN)?;
    rows(&rt, RANGES)?;
    rows(&rt, ENDS)?;
    rows(&rt, SHOWN)
}

/// The place of the last Break that a line tells.
fn last_of(line: &Line<'_>) -> Result<Option<u32>, Fail> {
    match line.option(0) {
        Some(_) => Ok(Some(line.hex(0)?)),
        None => Ok(None),
    }
}

#[test]
fn states_of_a_started_run(rt: HostRuntime) -> Result<(), Fail> {
    let lines = lines_of(rt.alloc(), STATES, '|')?;
    for line in lines.as_slice() {
        let reply = line.bytes(rt.alloc(), 1)?;
        let told = answers(&rt, last_of(line)?, 18, &[], reply.as_slice());
        assert!(rt; told == line.is_yes(2), "{}", line.text(1));
    }
    Ok(())
}

/// The most bytes that a Read takes.
#[test]
fn lengths_of_reads(rt: HostRuntime) {
    let zeros = [0; 1018];
    assert!(rt;
        answers(
            &rt,
            None,
            2,
            b"\x00\x00\x00\x00\xf8\x03\x00\x00",
            &zeros[..1017]
        )
    );
    assert!(rt; !answers(&rt, None, 2, b"\x00\x00\x00\x00\xf9\x03\x00\x00", &zeros));
}

/// The payload of a reply to Run: this kind of end, two numbers, and a third that is 0.
fn end(kind: u8, a: u8, b: u8) -> [u8; 18] {
    [0, kind, a, 0, 0, 0, b, 0, 0, 0, 0, 0, 0, 0, 9, 0, 0, 0]
}

#[test]
fn kinds_of_ends(rt: HostRuntime) {
    for kind in 0..=255 {
        let plain = matches!(kind, 0 | 9..=12);
        assert!(rt; answers(&rt, None, 5, &[0; 12], &end(kind, 0, 0)) == plain);
        let placed = matches!(kind, 10..=12);
        assert!(rt; answers(&rt, None, 5, &[0; 12], &end(kind, 64, 0)) == placed);
        assert!(rt; answers(&rt, None, 5, &[0; 12], &end(kind, 64, 1)) == (kind == 11));
    }
}
