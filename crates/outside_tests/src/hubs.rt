//! A hub in memory.

ghost use Rattle.std.specs.Prelude.{◌≡◌, IfOk};
ghost use Rattle.mf_types.specs.LinkCalls.{Unused};

use mf_types::hub::Hub;
use mf_types::link::Link;
use outside_in_memory::{MemoryHub, MemoryLink};
use plain_types::fault::{Failed, NoMemory};
use std::alloc::Global;

/// A hub over a link over which nothing comes, of which the call of this number is due to fail.
fn hub_of(alloc: Global, due: u32) -> Result<MemoryHub, NoMemory>
    ensures { IfOk result (λ hub. (⟦<MemoryHub as Link>⟧.state hub).hub.role ≡ Unused) }
{
    let link = MemoryLink::new(alloc, Vec::new(alloc), Vec::new(alloc), 4)?;
    let hub = MemoryHub::new(link, 5000, vec![in alloc; due]?);
    Ok(hub)
}

/// Starts a board and dials it three times; tells which of the dials worked.
fn dials<H: Hub>(hub: &mut H) -> Result<[bool; 3], Failed>
    requires { (H.state hub.old).hub.role ≡ Unused }
{
    let port = hub.start_board()?;
    let first = hub.dial(port).is_ok();
    let second = hub.post(port).is_ok();
    let third = hub.dial(port).is_ok();
    Ok([first, second, third])
}

/// Listens, accepts, sends and accepts again; tells whether the second time worked.
fn accepts<H: Hub>(hub: &mut H) -> Result<bool, Failed>
    requires { (H.state hub.old).hub.role ≡ Unused }
{
    let _port = hub.listen(0)?;
    hub.accept()?;
    hub.send(b"ab")?;
    Ok(hub.accept().is_ok())
}

/// Listens for datagrams and sends one.
fn posts<H: Hub>(hub: &mut H) -> Result<u16, Failed>
    requires { (H.state hub.old).hub.role ≡ Unused }
{
    let port = hub.post_listen(0)?;
    hub.send(b"cd")?;
    Ok(port)
}

/// Only the call of the named number fails, of those that a hub adds to a link.
#[test]
fn only_the_due_call_of_a_hub_fails(rt: HostRuntime) -> Result<(), NoMemory> {
    for (due, wanted) in [
        (1, Err(Failed)),
        (2, Ok([false, true, true])),
        (3, Ok([true, false, true])),
        (4, Ok([true, true, false])),
        (5, Ok([true, true, true])),
    ] {
        let mut hub = hub_of(rt.alloc(), due)?;
        assert!(rt; dials(&mut hub) == wanted);
    }
    for (due, wanted) in [
        (1, Err(Failed)),
        (2, Err(Failed)),
        (3, Ok(false)),
        (4, Ok(true)),
    ] {
        let mut hub = hub_of(rt.alloc(), due)?;
        assert!(rt; accepts(&mut hub) == wanted);
    }
    Ok(())
}

/// A hub that listens for datagrams is ready at once.
#[test]
fn a_listener_for_datagrams_is_ready(rt: HostRuntime) -> Result<(), NoMemory> {
    let mut hub = hub_of(rt.alloc(), 2)?;
    assert!(rt; posts(&mut hub) == Ok(5000));
    assert!(rt; hub.sent() == b"cd".as_slice());
    Ok(())
}
