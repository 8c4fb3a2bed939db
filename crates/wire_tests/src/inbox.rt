//! A packet in two pieces, behind a whole one and a damaged byte.

ghost use Rattle.std.specs.Prelude.{◌≡◌, ◌<◌, true, IfOk, length};
ghost use Rattle.std.specs.List.{list_all};
ghost use Rattle.outside_in_memory.specs.Queued.{has_bytes};

use mf_types::link::{Coming, Got};
use outside_in_memory::memory_link::MemoryLink;
use packet_inbox::Inbox;
use plain_types::fault::NoMemory;
use plain_types::list::Items;
use std::alloc::Global;
use wire_packets::Packet;

/// A damaged byte, Open as the first request, and the first half of Close as the second.
const FIRST: &[u8] =
    b"xMSpktV1\x00\x78\x02\x00\x00\x00\x00\x00\x00\x01\x00\x00\x00\x01\x00\x00\x00\x00\x00\x00\x00\x00\x00\x00\x00MSpktV1\x00\x7f\x02\x00\x00";

/// The second half.
const SECOND: &[u8] =
    b"\x00\x00\x00\x00\x07\x00\x00\x00\x02\x00\x00\x00\x00\x00\x00\x00\x00\x00\x00\x00";

fn piece(alloc: Global, bytes: &[u8]) -> Result<Coming, NoMemory>
    requires { 0 < length bytes.now }
    ensures { IfOk result (λ item. has_bytes item ≡ true) }
{
    Ok(Coming::Piece(Items::from_vec(Vec::from_slice(alloc, bytes)?)))
}

fn script(alloc: Global) -> Result<Vec<Coming>, NoMemory>
    ensures { IfOk result (λ items. list_all has_bytes items.items ≡ true) }
{
    let mut items = Vec::new(alloc);
    items.push(piece(alloc, FIRST)?)?;
    items.push(piece(alloc, SECOND)?)?;
    Ok(items)
}

#[test]
fn packets_come_whole(rt: HostRuntime) -> Result<(), NoMemory> {
    let coming = script(rt.alloc())?;
    let mut link = MemoryLink::new(rt.alloc(), coming, Vec::new(rt.alloc()), 0)?;
    let mut inbox = Inbox::new();
    assert!(rt; inbox.receive(&mut link) == Ok(Got::Bytes(45)));
    assert!(rt; inbox.next() == Some(Packet::request(1, 1, &[])));
    assert!(rt; inbox.next().is_none());
    assert!(rt; inbox.receive(&mut link) == Ok(Got::Bytes(20)));
    assert!(rt; inbox.next() == Some(Packet::request(7, 2, &[])));
    assert!(rt; inbox.next().is_none());
    Ok(())
}
