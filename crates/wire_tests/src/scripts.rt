//! Words of scripts, and what a script delivers.

use std::test::Fail;
use wire_packets::Packet;
use wire_script::{Delivery, Net, NetRefusal, Wire};

#[test]
fn words_of_scripts(rt: HostRuntime) -> Result<(), Fail> {
    for word in [
        "-",
        ":",
        "*1",
        "*65535",
        "34,2:34",
        ":0",
        "0:",
        "*34;34,2:34;:",
        "65535:0,1",
    ] {
        assert!(rt; Net::parse(rt.alloc(), word).is_ok(), "{word}");
    }
    for word in [
        "", "*", "*0", "*65536", "1", "1:2:3", "01:", "1,:2", ";", ":;", "--", "+1:", "a:",
        "65536:",
    ] {
        let refused = match Net::parse(rt.alloc(), word) {
            Ok(_) => false,
            Err(refusal) => refusal == NetRefusal::NotNet,
        };
        assert!(rt; refused, "{word}");
    }
    Ok(())
}

/// The script goes on over sessions, skips what isn't there, and then delivers the newest.
#[test]
fn deliveries_of_a_script(rt: HostRuntime) -> Result<(), Fail> {
    let net = Net::parse(rt.alloc(), "*1;0,5,0:1,0").map_err(|_| "a script")?;
    let mut wire = Wire::new(rt.alloc(), net);
    let first = Packet::request(1, 1, &[]);
    let second = Packet::request(2, 2, &[]);
    let reply = Packet::new(1, 0, 1, 1, &[0]);
    assert!(rt; wire.next() == Delivery::TurnOver);
    wire.send(&first)?;
    assert!(rt; wire.next() == Delivery::ToBoard(first.copied()));
    wire.reply(&reply)?;
    assert!(rt; wire.next() == Delivery::ToTool(reply.copied()));
    assert!(rt; wire.next() == Delivery::TurnOver);
    wire.send(&second)?;
    assert!(rt; wire.next() == Delivery::ToBoard(first.copied()));
    assert!(rt; wire.next() == Delivery::ToBoard(first));
    assert!(rt; wire.next() == Delivery::ToTool(reply));
    assert!(rt; wire.next() == Delivery::TurnOver);
    wire.clear();
    wire.send(&second)?;
    assert!(rt; wire.next() == Delivery::ToBoard(second));
    assert!(rt; wire.next() == Delivery::TurnOver);
    Ok(())
}
