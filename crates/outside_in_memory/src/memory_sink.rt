//! A sink in memory, for tests.

ghost use Rattle.std.specs.Prelude.{◌≡◌, ◌+◌, ◌≤◌, [], Some, IfOk, true, vec_len, vec_capacity};
ghost use Rattle.outside_in_memory.specs.Schedules.{schedule_of};

use crate::calls::Calls;
use mf_types::sink::Sink;
use plain_types::fault::{Failed, NoMemory};
use std::alloc::Global;

/// Bytes in memory, up to a bound.
#[derive(Debug, Drop)]
pub struct MemorySink {
    written: Vec<u8>,
    spare: usize,
    calls: Calls,
    faults: u64,
    ghost reserved: { vec_len written + spare ≤ vec_capacity written },
}

impl MemorySink {
    /// A sink with room for so many bytes, whose calls of these numbers fail, counted from 1. A call past the room
    /// fails too.
    pub fn new(alloc: Global, fails: Vec<u32>, room: u32) -> Result<Self, NoMemory>
        ensures { IfOk result (λ sink. ⟦<MemorySink as Sink>⟧.state sink ≡ record {
          tells = true;
          written = [];
          faults = 0;
          schedule = Some (record { fails = fails.items; made = 0; room = room });
        }) }
    {
        let written = Vec::with_capacity(alloc, room as usize)?;
        Ok(MemorySink {
            written,
            spare: room as usize,
            calls: Calls::new(fails),
            faults: 0,
        })
    }

    /// All bytes written so far.
    pub fn written(&self) -> &[u8]
        ensures { result.now ≡ (⟦<MemorySink as Sink>⟧.state self.now).written }
    {
        self.written.as_slice()
    }
}

impl Sink for MemorySink {
    ghost use Rattle.outside_in_memory.specs.Schedules.{schedule_of};

    ghost state = { λ s. record {
      tells = true;
      written = s.written.items;
      faults = s.faults;
      schedule = Some (schedule_of s.calls s.spare);
    } };

    fn write(&mut self, piece: &[u8]) -> Result<(), Failed> {
        if self.calls.count(self.spare, piece.len()) {
            self.faults = self.faults.saturating_add(1);
            return Err(Failed);
        }
        match self.written.extend_from_slice(piece) {
            Ok(()) => {
                self.spare -= piece.len();
                Ok(())
            }
            Err(_) => unreachable!(),
        }
    }
}
