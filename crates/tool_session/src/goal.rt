//! What a session is to do, and how it ends.

use arrayvec::ArrayVec;
use wire_packets::packet::MAX_PAYLOAD;

/// The payload of a reply.
pub type Payload = ArrayVec<u8, MAX_PAYLOAD>;

/// What is done before the run.
#[derive(Clone, Copy, Debug)]
pub enum Work<'a> {
    /// This set is deployed.
    DeploysAndRuns { set: &'a [u8] },
    /// Nothing is deployed.
    OnlyRuns,
}

/// What a session is to do: its work, and then a run of what is found, for at most so many steps and over so many cells.
#[derive(Clone, Copy, Debug)]
pub struct Goal<'a> {
    pub work: Work<'a>,
    pub steps: u64,
    pub cells: u32,
}

/// Why a session is over.
#[derive(Clone, Copy, Debug, PartialEq, Eq)]
pub enum Finish {
    /// The run was asked for, its text fetched, and the session closed.
    HasRun,
    /// A reply told that the flash failed.
    FlashFailed,
    /// No number follows the one of the set that is found.
    NumbersSpent,
    /// A reply told that the board had no memory.
    NoMemory,
}

/// What a session has asked for last.
#[derive(Clone, Copy, Debug, PartialEq, Eq)]
pub(crate) enum Stage {
    Deploys,
    Opens,
    Runs,
    Fetches,
    Closes,
    IsOver(Finish),
}

/// How a session stands.
#[derive(Debug, Drop)]
pub enum Ending {
    /// It is over. The end is the payload of the reply to Run, where it has run, and else nothing.
    Over { finish: Finish, end: Payload },
    /// It waits for a reply.
    Waits,
}
