//! The flash in memory, for `sim` and for tests.

ghost use Rattle.std.specs.Prelude.{◌≡◌, ◌≢◌, ◌+◌, ◌-◌, ◌<◌, ◌≤◌, ◌∷◌, [], true, IfOk, OnOk, IsTrue, IsErrOf, None, Some, Option, MatchOption, length, vec_len, vec_capacity};
ghost use Rattle.std.specs.Option.{ForSome};
ghost use Rattle.plain_types.specs.Schedule.{MustFail, MustWork};
ghost use Rattle.flash_trait.specs.Flash.{IsPossible, AreBytes, Program, Erase};
ghost use Rattle.flash_trait.specs.FlashCalls.{FlashState, IsDue, Completes, IsCut, IsFailed, counted};
ghost use Rattle.flash_trait.specs.declared.flash.Stop.{Stop};

use crate::change::{Change, Entry};
use flash_trait::flash::{Flash, FlashErr, Stop};
use outside_in_memory::calls::Calls;
use plain_types::fault::NoMemory;
use plain_types::list::Items;
use std::alloc::Global;

/// A flash in memory that tells its record. It has room for a number of operations; one past the room fails, counts
/// and leaves content and record as they were. One inside the room that is due to fail is kept in the record, and
/// leaves what a mask leaves of it: nothing, until [`MemoryFlash::fail_mask`] gives another mask.
#[derive(Debug, Drop)]
pub struct MemoryFlash {
    content: Vec<u8>,
    on: bool,
    armed: Option<Stop>,
    calls: Calls,
    faults: u64,
    stops: u64,
    log: Vec<Entry>,
    spare: usize,
    fail_mask: Items<u8>,
    ghost failing: { 1 ≤ length fail_mask },
    ghost sized: { length content.items ≡ 262144 },
    ghost bytes: { AreBytes content.items },
    ghost masked: { ForSome armed (λ stop. 1 ≤ length stop.mask) },
    ghost reserved: { vec_len log + spare ≤ vec_capacity log },
}

/// Counts an operation towards an armed stop, and gives the stop's mask where this is the operation.
fn count_operation(armed: &mut Option<Stop>) -> Option<Items<u8>>
    ensures armed { armed.new ≡ counted armed.old }
    ensures due { MatchOption result (IsDue armed.old → ⊥)
        (λ mask. (stop : Stop) × (armed.old ≡ Some stop) × (stop.operation ≤ 1) × (mask ≡ stop.mask)) }
{
    match armed.take() {
        None => None,
        Some(stop) => {
            if stop.operation <= 1 {
                return Some(stop.mask);
            }
            *armed = Some(Stop {
                operation: stop.operation - 1,
                mask: stop.mask,
            });
            None
        }
    }
}

impl MemoryFlash {
    ghost use Rattle.block_flash.specs.Change.{operation_of};
    ghost use Rattle.block_flash.specs.History.{Keeps};
    ghost use Rattle.block_flash.specs.State.{state_of, fail_mask_of};
    ghost use Rattle.block_flash.specs.Failing.{FailsByMask};

    /// A flash that holds this content, is on and has no stop armed. Its operations of these numbers fail, counted
    /// from 1, and there is room for so many.
    pub fn new(
        alloc: Global,
        content: Vec<u8>,
        fails: Vec<u32>,
        room: u32,
    ) -> Result<Self, NoMemory>
        requires { length content.items ≡ 262144 }
        ensures state { IfOk result (λ flash. ⟦<MemoryFlash as Flash>⟧.state flash ≡ record {
          content = content.items;
          on = true;
          armed = None;
          faults = 0;
          stops = 0;
          tells = true;
          log = [];
          schedule = Some (record { fails = fails.items; made = 0; room = room });
        }) }
        ensures mask { IfOk result (λ flash. fail_mask_of flash ≡ 0 ∷ []) }
    {
        let log = Vec::with_capacity(alloc, room as usize)?;
        let fail_mask = Items::from_vec(vec![in alloc; 0; 1]?);
        Ok(MemoryFlash {
            content,
            on: true,
            armed: None,
            calls: Calls::new(fails),
            faults: 0,
            stops: 0,
            log,
            spare: room as usize,
            fail_mask,
        })
    }

    /// From now on an operation inside the room that is due to fail leaves what this mask of 1 to 8,192 bytes leaves
    /// of it.
    pub fn fail_mask(&mut self, mask: Vec<u8>)
        requires some { 1 ≤ length mask.items }
        requires few { length mask.items ≤ 8192 }
        ensures mask { fail_mask_of self.new ≡ mask.items }
        ensures state { state_of self.new ≡ state_of self.old }
    {
        self.fail_mask = Items::from_vec(mask);
    }

    /// Keeps in the record what an operation is about to change.
    fn keep(log: &mut Vec<Entry>, content: &[u8], change: &Change)
        requires possible { IsPossible (operation_of change.now) }
        requires whole { length content.now ≡ 262144 }
        requires room { vec_len log.old < vec_capacity log.old }
        ensures kept { Keeps (operation_of change.now) content.now log.old.items log.new.items }
        ensures len { vec_len log.new ≡ vec_len log.old + 1 }
        ensures capacity { vec_capacity log.new ≡ vec_capacity log.old }
    {
        log.push_reserved(change.entry(content));
    }

    /// Makes an operation.
    fn operate(&mut self, change: &Change) -> Result<(), FlashErr>
        requires on { IsTrue (state_of self.old).on }
        requires possible { IsPossible (operation_of change.now) }
        ensures ok { OnOk result (Completes (operation_of change.now) (state_of self.old) (state_of self.new)) }
        ensures cut { IsErrOf result FlashErr.Cut → IsCut (operation_of change.now) (state_of self.old) (state_of self.new) }
        ensures failed { IsErrOf result FlashErr.Failed → IsFailed (operation_of change.now) (state_of self.old) (state_of self.new) }
        ensures fails { MustFail (state_of self.old).schedule 1 → IsErrOf result FlashErr.Failed }
        ensures works { MustWork (state_of self.old).schedule 1 → result ≢ Err FlashErr.Failed }
        ensures failing { IsErrOf result FlashErr.Failed
            → FailsByMask (operation_of change.now) (fail_mask_of self.old) (state_of self.old) (state_of self.new) (state_of self.old).schedule }
        ensures mask { fail_mask_of self.new ≡ fail_mask_of self.old }
    {
        let stop = count_operation(&mut self.armed);
        let fails = self.calls.count(self.spare, 1);
        if self.spare == 0 {
            self.faults = self.faults.saturating_add(1);
            return Err(FlashErr::Failed);
        }
        Self::keep(&mut self.log, &self.content, change);
        self.spare -= 1;
        if fails {
            change.make(&mut self.content, self.fail_mask.as_slice());
            self.faults = self.faults.saturating_add(1);
            return Err(FlashErr::Failed);
        }
        match stop {
            None => {
                change.make_whole(&mut self.content);
                Ok(())
            }
            Some(mask) => {
                change.make(&mut self.content, mask.as_slice());
                self.stops = self.stops.saturating_add(1);
                self.on = false;
                Err(FlashErr::Cut)
            }
        }
    }
}

impl Flash for MemoryFlash {
    ghost use Rattle.block_flash.specs.State.{state_of, fail_mask_of};
    ghost use Rattle.block_flash.specs.Failing.{FailsByMask};

    ghost state = { state_of };

    ghost sized = { λ f. f.sized };

    ghost bytes = { λ f. f.bytes };

    fn map(&self) -> &[u8] {
        self.content.as_slice()
    }

    fn program(&mut self, at: u32, bytes: &[u8]) -> Result<(), FlashErr>
        requires on { IsTrue (state_of self.old).on }
        requires possible { IsPossible (Program at bytes.now) }
        ensures ok { OnOk result (Completes (Program at bytes.now) (state_of self.old) (state_of self.new)) }
        ensures cut { IsErrOf result FlashErr.Cut → IsCut (Program at bytes.now) (state_of self.old) (state_of self.new) }
        ensures failed { IsErrOf result FlashErr.Failed → IsFailed (Program at bytes.now) (state_of self.old) (state_of self.new) }
        ensures fails { MustFail (state_of self.old).schedule 1 → IsErrOf result FlashErr.Failed }
        ensures works { MustWork (state_of self.old).schedule 1 → result ≢ Err FlashErr.Failed }
        ensures failing { IsErrOf result FlashErr.Failed
            → FailsByMask (Program at bytes.now) (fail_mask_of self.old) (state_of self.old) (state_of self.new) (state_of self.old).schedule }
        ensures mask { fail_mask_of self.new ≡ fail_mask_of self.old }
    {
        self.operate(&Change::Program { at, bytes })
    }

    fn erase(&mut self, sector: u32) -> Result<(), FlashErr>
        requires on { IsTrue (state_of self.old).on }
        requires possible { IsPossible (Erase sector) }
        ensures ok { OnOk result (Completes (Erase sector) (state_of self.old) (state_of self.new)) }
        ensures cut { IsErrOf result FlashErr.Cut → IsCut (Erase sector) (state_of self.old) (state_of self.new) }
        ensures failed { IsErrOf result FlashErr.Failed → IsFailed (Erase sector) (state_of self.old) (state_of self.new) }
        ensures fails { MustFail (state_of self.old).schedule 1 → IsErrOf result FlashErr.Failed }
        ensures works { MustWork (state_of self.old).schedule 1 → result ≢ Err FlashErr.Failed }
        ensures failing { IsErrOf result FlashErr.Failed
            → FailsByMask (Erase sector) (fail_mask_of self.old) (state_of self.old) (state_of self.new) (state_of self.old).schedule }
        ensures mask { fail_mask_of self.new ≡ fail_mask_of self.old }
    {
        self.operate(&Change::Erase { sector })
    }

    fn arm(&mut self, stop: Option<Stop>)
        requires operation { ForSome stop (λ s. 1 ≤ s.operation) }
        requires mask { ForSome stop (λ s. (1 ≤ length s.mask) × (length s.mask ≤ 8192)) }
        ensures state { state_of self.new ≡ record (state_of self.old) { armed = stop } }
        ensures mask { fail_mask_of self.new ≡ fail_mask_of self.old }
    {
        self.armed = stop;
    }

    fn is_on(&self) -> bool {
        self.on
    }

    fn power_on(&mut self)
        ensures state { state_of self.new ≡ record (state_of self.old) { on = true; armed = None } }
        ensures mask { fail_mask_of self.new ≡ fail_mask_of self.old }
    {
        self.on = true;
        self.armed = None;
    }
}
