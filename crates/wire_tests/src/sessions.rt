//! The two ends of a session.

use wire_packets::Packet;
use wire_session::{Act, Answerer, Asker, NumbersSpent};

#[test]
fn numbers_are_spent(rt: HostRuntime) {
    let mut asker = Asker::new();
    assert!(rt; !asker.turn());
    for _ in 0..65_535 {
        assert!(rt; asker.ask(7, &[]).is_ok());
    }
    assert!(rt; asker.ask(7, &[]) == Err(NumbersSpent));
}

#[test]
fn eight_turns_and_a_reply(rt: HostRuntime) {
    let mut asker = Asker::new();
    assert!(rt; asker.ask(4, &[5, 0, 0, 0]) == Ok(Packet::request(4, 1, &[5, 0, 0, 0])));
    for _ in 0..8 {
        assert!(rt; asker.turn());
    }
    assert!(rt; !asker.turn());
    assert!(rt; !asker.take(&Packet::new(4, 0, 2, 1, &[0])));
    assert!(rt; asker.take(&Packet::new(4, 9, 1, 1, &[0])));
    assert!(rt; !asker.take(&Packet::new(4, 9, 1, 1, &[0])));
}

#[test]
fn requests_are_done_once(rt: HostRuntime) {
    let mut answerer = Answerer::new();
    assert!(rt; answerer.kept() == None);
    assert!(rt; answerer.take(&Packet::request(1, 0, &[])) == Act::Ignore);
    assert!(rt; answerer.take(&Packet::new(1, 1, 0, 1, &[])) == Act::Ignore);
    assert!(rt; answerer.take(&Packet::request(1, 1, &[])) == Act::Do);
    let reply = Packet::new(1, 0, 1, 1, &[0, 32, 0, 0, 0, 0, 32, 0, 0]);
    answerer.keep(&reply);
    assert!(rt; answerer.take(&Packet::request(1, 1, &[])) == Act::Resend);
    assert!(rt; answerer.kept() == Some(&reply));
    assert!(rt; answerer.take(&Packet::request(1, 3, &[])) == Act::Ignore);
    assert!(rt; answerer.take(&Packet::request(2, 2, &[])) == Act::Do);
}

/// A session knows its last Break, also after other requests.
#[test]
fn a_break_that_stops_nowhere(rt: HostRuntime) {
    let stopped = [0, 0, 7, 0, 0, 0, 0, 0, 0, 0, 2, 0, 0, 0];
    let mut asker = Asker::new();
    assert!(rt; asker.ask(17, b"\x01\x00\x02\x00\x05\x00\x00\x00").is_ok());
    assert!(rt; asker.ask(18, &[]).is_ok());
    assert!(rt; asker.take(&Packet::new(18, 0, 2, 1, &stopped)));
    assert!(rt; asker.ask(17, b"\x01\x00\x02\x00\xff\xff\xff\xff").is_ok());
    assert!(rt; asker.ask(17, b"\x01\x00\x02\x00\x05\x00\x00").is_ok());
    assert!(rt; asker.ask(18, &[]).is_ok());
    assert!(rt; !asker.take(&Packet::new(18, 0, 5, 1, &stopped)));
}
