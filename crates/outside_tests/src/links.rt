//! A link in memory.

ghost use Rattle.std.specs.Prelude.{◌≡◌, true, IsTrue, IfOk, length};
ghost use Rattle.std.specs.List.{list_all};
ghost use Rattle.outside_in_memory.specs.Queued.{has_bytes};

use mf_types::link::{Coming, Got, Link};
use outside_in_memory::MemoryLink;
use plain_types::fault::{Failed, NoMemory};
use plain_types::list::Items;
use std::alloc::Global;

fn long_piece(alloc: Global) -> Result<Coming, NoMemory>
    ensures { IfOk result (λ item. has_bytes item ≡ true) }
{
    let bytes = vec![in alloc; 7; 2049]?;
    Ok(Coming::Piece(Items::from_vec(bytes)))
}

/// A piece of 2,049 bytes, a silence, and then nothing.
fn script(alloc: Global) -> Result<Vec<Coming>, NoMemory>
    ensures { IfOk result (λ items. list_all has_bytes items.items ≡ true) }
{
    let mut items = Vec::new(alloc);
    items.push(long_piece(alloc)?)?;
    items.push(Coming::Silence)?;
    Ok(items)
}

/// Receives four times; tells what each gave, and the last byte of the first.
fn received<L: Link>(link: &mut L, into: &mut [u8]) -> ([Result<Got, Failed>; 4], u8)
    requires ready { IsTrue (L.state link.old).ready }
    requires buffer { length into.old ≡ 2048 }
    requires room { ((L.state link.old).answers ≡ 0) × ((L.state link.old).taken ≡ 0) }
{
    let first = link.receive(into);
    let last = into[2047];
    let second = link.receive(into);
    let third = link.receive(into);
    let fourth = link.receive(into);
    ([first, second, third, fourth], last)
}

/// Sends the pieces one after the other; tells which of the sends worked.
fn sends<L: Link>(link: &mut L) -> [bool; 5]
    requires { IsTrue (L.state link.old).ready }
{
    let first = link.send(b"ab").is_ok();
    let second = link.send(b"c").is_ok();
    let third = link.send(b"d").is_ok();
    let fourth = link.send(b"ef").is_ok();
    let fifth = link.send(b"g").is_ok();
    [first, second, third, fourth, fifth]
}

/// A piece comes as it fits, and a receive that is due to fail leaves what is to come.
#[test]
fn pieces_come_as_they_fit(rt: HostRuntime) -> Result<(), NoMemory> {
    let long = Ok(Got::Bytes(2048));
    let rest = Ok(Got::Bytes(1));
    let silent = Ok(Got::Silent);
    for (due, wanted) in [
        (9, [long, rest, silent, silent]),
        (2, [long, Err(Failed), rest, silent]),
        (1, [Err(Failed), long, rest, silent]),
    ] {
        let coming = script(rt.alloc())?;
        let mut link = MemoryLink::new(rt.alloc(), coming, vec![in rt.alloc(); due]?, 9)?;
        let mut into = [0; 2048];
        let (got, last) = received(&mut link, &mut into);
        assert!(rt; got == wanted);
        assert!(rt; last == if due == 1 { 0 } else { 7 });
    }
    Ok(())
}

/// The second call is due to fail, and the fourth is past the room.
#[test]
fn sends_are_kept_in_order(rt: HostRuntime) -> Result<(), NoMemory> {
    let fails = vec![in rt.alloc(); 2]?;
    let mut link = MemoryLink::new(rt.alloc(), Vec::new(rt.alloc()), fails, 4)?;
    assert!(rt; sends(&mut link) == [true, false, true, false, true]);
    assert!(rt; link.sent() == b"abdg".as_slice());
    Ok(())
}
