//! A hub in memory, for tests.

ghost use Rattle.std.specs.Prelude.{◌≡◌, ◌<◌, Some};
ghost use Rattle.mf_types.specs.LinkCalls.{Unused, sent_bytes};

use crate::calls::Calls;
use crate::memory_link::MemoryLink;
use mf_types::hub::Hub;
use mf_types::link::{Got, Link};
use plain_types::fault::Failed;

/// What a hub in memory is.
#[derive(Clone, Copy, Debug, PartialEq, Eq)]
pub enum Kind {
    Unused,
    Starter,
    /// It was asked to listen at a port, and listens or failed to.
    Listener(u16, bool),
}

/// The newest connection of a hub in memory.
#[derive(Clone, Copy, Debug, PartialEq, Eq)]
pub enum Connection {
    None,
    Bytes,
    Datagrams,
}

/// A hub whose connections are one link in memory. Its calls of these numbers fail, counted from 1 over the calls that
/// a hub adds to a link, and the port that they give is the one it was made with.
#[derive(Debug, Drop)]
pub struct MemoryHub {
    link: MemoryLink,
    port: u16,
    calls: Calls,
    kind: Kind,
    connection: Connection,
    dial_faults: u64,
    start_faults: u64,
    ghost given: { 0 < port },
}

impl MemoryHub {
    ghost use Rattle.outside_in_memory.specs.HubStates.{over_link};

    /// A hub over a link, which isn't ready and has no role yet. The port isn't 0.
    pub fn new(link: MemoryLink, port: u16, fails: Vec<u32>) -> Self
        requires { 0 < port }
        ensures { ⟦<MemoryHub as Link>⟧.state result ≡ over_link (⟦<MemoryLink as Link>⟧.state link) Connection.None 0 (record {
          role = Unused;
          start_faults = 0;
          schedule = Some (record { fails = fails.items; made = 0; room = 0 });
        }) }
    {
        MemoryHub {
            link,
            port,
            calls: Calls::new(fails),
            kind: Kind::Unused,
            connection: Connection::None,
            dial_faults: 0,
            start_faults: 0,
        }
    }

    /// All bytes that were sent, joined.
    pub fn sent(&self) -> &[u8]
        ensures { result.now ≡ sent_bytes (⟦<MemoryHub as Link>⟧.state self.now).sends }
    {
        self.link.sent()
    }
}

impl Link for MemoryHub {
    ghost use Rattle.outside_in_memory.specs.HubStates.{hub_link};

    ghost state = { hub_link };

    fn send(&mut self, bytes: &[u8]) -> Result<(), Failed> {
        self.link.send(bytes)?;
        Ok(())
    }

    fn receive(&mut self, into: &mut [u8]) -> Result<Got, Failed> {
        let got = self.link.receive(into)?;
        Ok(got)
    }
}

impl Hub for MemoryHub {
    fn start_board(&mut self) -> Result<u16, Failed> {
        if self.calls.count(0, 0) {
            self.start_faults = self.start_faults.saturating_add(1);
            return Err(Failed);
        }
        self.kind = Kind::Starter;
        Ok(self.port)
    }

    fn start_post_board(&mut self) -> Result<u16, Failed> {
        let port = self.start_board()?;
        Ok(port)
    }

    fn dial(&mut self, _port: u16) -> Result<(), Failed> {
        if self.calls.count(0, 0) {
            self.dial_faults = self.dial_faults.saturating_add(1);
            return Err(Failed);
        }
        self.connection = Connection::Bytes;
        Ok(())
    }

    fn post(&mut self, _port: u16) -> Result<(), Failed> {
        if self.calls.count(0, 0) {
            self.dial_faults = self.dial_faults.saturating_add(1);
            return Err(Failed);
        }
        self.connection = Connection::Datagrams;
        Ok(())
    }

    fn listen(&mut self, port: u16) -> Result<u16, Failed> {
        if self.calls.count(0, 0) {
            self.dial_faults = self.dial_faults.saturating_add(1);
            self.kind = Kind::Listener(port, false);
            return Err(Failed);
        }
        self.kind = Kind::Listener(port, true);
        Ok(self.port)
    }

    fn post_listen(&mut self, port: u16) -> Result<u16, Failed> {
        let given = self.listen(port)?;
        self.connection = Connection::Datagrams;
        Ok(given)
    }

    fn accept(&mut self) -> Result<(), Failed> {
        if self.calls.count(0, 0) {
            self.dial_faults = self.dial_faults.saturating_add(1);
            return Err(Failed);
        }
        self.connection = Connection::Bytes;
        Ok(())
    }
}
