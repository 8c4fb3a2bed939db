//! A link in memory, for tests.

ghost use Rattle.std.specs.Prelude.{◌≡◌, ◌≤◌, [], Some, IfOk, true, false};
ghost use Rattle.std.specs.List.{list_all};
ghost use Rattle.mf_types.specs.LinkCalls.{LinkState, no_hub, sent_bytes};
ghost use Rattle.outside_in_memory.specs.Queued.{has_bytes};

use crate::calls::Calls;
use crate::queue::Queue;
use crate::send_log::SendLog;
use mf_types::link::{Coming, Got, Link};
use plain_types::fault::{Failed, NoMemory};
use std::alloc::Global;
use std::collections::VecDeque;

/// A link over which these items come, and which keeps what was sent.
#[derive(Debug, Drop)]
pub struct MemoryLink {
    coming: Queue,
    log: SendLog,
    calls: Calls,
    faults: u64,
    silences: u64,
    answers: u64,
    taken: u64,
    ghost counted: { silences ≤ answers },
}

impl MemoryLink {
    /// A link over which these items come, each piece with at least one byte. Its calls of these numbers fail, counted
    /// from 1, and so does one that sends past the room of so many bytes.
    pub fn new(
        alloc: Global,
        coming: Vec<Coming>,
        fails: Vec<u32>,
        room: u32,
    ) -> Result<Self, NoMemory>
        requires { list_all has_bytes coming.items ≡ true }
        ensures { IfOk result (λ link. ⟦<MemoryLink as Link>⟧.state link ≡ record {
          ready = true;
          datagrams = false;
          tells = true;
          sends = [];
          coming = coming.items;
          faults = 0;
          silences = 0;
          answers = 0;
          taken = 0;
          schedule = Some (record { fails = fails.items; made = 0; room = room });
          hub = no_hub;
        }) }
    {
        let log = SendLog::new(alloc, room)?;
        Ok(MemoryLink {
            coming: Queue::new(VecDeque::from_vec(coming)),
            log,
            calls: Calls::new(fails),
            faults: 0,
            silences: 0,
            answers: 0,
            taken: 0,
        })
    }

    /// All bytes that were sent, joined.
    pub fn sent(&self) -> &[u8]
        ensures { result.now ≡ sent_bytes (⟦<MemoryLink as Link>⟧.state self.now).sends }
    {
        self.log.bytes()
    }
}

impl Link for MemoryLink {
    ghost use Rattle.outside_in_memory.specs.LinkStates.{link_of};

    ghost state = { λ l. link_of l };

    fn send(&mut self, bytes: &[u8]) -> Result<(), Failed> {
        if self.calls.count(self.log.spare, bytes.len()) {
            self.faults = self.faults.saturating_add(1);
            return Err(Failed);
        }
        self.log
            .push(bytes, self.taken, self.answers, self.silences);
        Ok(())
    }

    fn receive(&mut self, into: &mut [u8]) -> Result<Got, Failed> {
        if self.calls.count(self.log.spare, 0) {
            self.faults = self.faults.saturating_add(1);
            return Err(Failed);
        }
        let got = self.coming.take(into);
        self.answers += 1;
        match got {
            Got::Bytes(n) => self.taken += n as u64,
            Got::Silent => self.silences += 1,
        }
        Ok(got)
    }
}
