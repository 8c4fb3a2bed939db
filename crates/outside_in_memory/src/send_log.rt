//! What was sent over a link in memory.

ghost use Rattle.std.specs.Prelude.{◌≡◌, ◌<◌, ◌≤◌, ◌+◌, ◌-◌, ◌++◌, ◌∷◌, [], IfOk, length, vec_len, vec_capacity};
ghost use Rattle.mf_types.specs.LinkCalls.{sent_bytes};
ghost use Rattle.outside_in_memory.specs.SendLog.{sends_of, total};

use plain_types::fault::NoMemory;
use std::alloc::Global;

/// A send: how many bytes it sent, and the counts of the link before it.
#[derive(Clone, Copy, Debug, PartialEq, Eq)]
pub struct Entry {
    pub length: usize,
    pub taken: u64,
    pub answers: u64,
    pub silences: u64,
}

/// The sends of a link, and for how many further bytes there is room.
#[derive(Debug, Drop)]
pub struct SendLog {
    pub bytes: Vec<u8>,
    pub entries: Vec<Entry>,
    pub spare: usize,
    ghost joined: { total entries.items ≡ length bytes.items },
    ghost bytes_reserved: { vec_len bytes + spare ≤ vec_capacity bytes },
    ghost entries_reserved: { vec_len entries + spare ≤ vec_capacity entries },
}

impl SendLog {
    /// A log with room for so many bytes.
    pub fn new(alloc: Global, room: u32) -> Result<Self, NoMemory>
        ensures bytes { IfOk result (λ log. log.bytes.items ≡ []) }
        ensures entries { IfOk result (λ log. log.entries.items ≡ []) }
        ensures spare { IfOk result (λ log. log.spare ≡ room) }
    {
        let bytes = Vec::with_capacity(alloc, room as usize)?;
        let entries = Vec::with_capacity(alloc, room as usize)?;
        Ok(SendLog {
            bytes,
            entries,
            spare: room as usize,
        })
    }

    /// Keeps a send.
    #[tactic(auto, using(crate::proofs::SendLogLemmas::sends_of_push, crate::proofs::SendLogLemmas::total_push))]
    pub fn push(&mut self, sent: &[u8], taken: u64, answers: u64, silences: u64)
        requires some { 0 < length sent.now }
        requires fits { length sent.now ≤ self.old.spare }
        ensures sends { sends_of self.new.entries.items self.new.bytes.items
            ≡ sends_of self.old.entries.items self.old.bytes.items
            ++ (record { bytes = sent.now; taken = taken; answers = answers; silences = silences }) ∷ [] }
        ensures spare { self.new.spare ≡ self.old.spare - length sent.now }
    {
        match self.bytes.extend_from_slice(sent) {
            Ok(()) => {}
            Err(_) => unreachable!(),
        }
        self.entries.push_reserved(Entry {
            length: sent.len(),
            taken,
            answers,
            silences,
        });
        self.spare -= sent.len();
    }

    /// All bytes that were sent, joined.
    #[tactic(auto, using(crate::proofs::SendLogLemmas::sent_joined))]
    pub fn bytes(&self) -> &[u8]
        ensures { result.now ≡ sent_bytes (sends_of self.now.entries.items self.now.bytes.items) }
    {
        self.bytes.as_slice()
    }
}
