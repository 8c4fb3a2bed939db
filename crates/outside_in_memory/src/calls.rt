//! The numbered calls of an object in memory.

ghost use Rattle.std.specs.Prelude.{◌≡◌, ◌==◌, ◌-◌, ℕ};
ghost use Rattle.std.specs.List.{list_any};
ghost use Rattle.plain_types.specs.Schedule.{fails_next, counted_call};
ghost use Rattle.outside_in_memory.specs.Schedules.{schedule_of};

/// Whether the call of this number is one of those that are to fail.
fn is_due(fails: &[u32], call: u64) -> bool
    ensures { result ≡ list_any (λ due. due == call) fails.now }
{
    fails.iter().any(|due| u64::from(*due) == call)
}

/// The calls of an object: the numbers of those that are to fail, counted from 1, and how many were made.
#[derive(Debug, Drop)]
pub struct Calls {
    pub fails: Vec<u32>,
    pub made: u64,
}

impl Calls {
    /// No call was made yet.
    pub fn new(fails: Vec<u32>) -> Self
        ensures { result ≡ record { fails = fails; made = 0 } }
    {
        Calls { fails, made: 0 }
    }

    /// Counts a call that asks for so much of the room that is left, and tells whether it fails.
    pub fn count(&mut self, room: usize, asked: usize) -> bool
        ensures fails { result ≡ fails_next (schedule_of self.old room) asked }
        ensures counted { schedule_of self.new room ≡ counted_call (schedule_of self.old room) 0 }
        ensures taken { (taken : ℕ) → schedule_of self.new (room - taken) ≡ counted_call (schedule_of self.old room) taken }
    {
        self.made = self.made.saturating_add(1);
        is_due(&self.fails, self.made) || asked > room
    }
}
