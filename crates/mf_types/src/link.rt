//! A connection that carries bytes.

ghost use Rattle.std.specs.Prelude.{◌≡◌, ◌<◌, IsTrue, IfOk, OnOk, OnErr, IsOk, IsErr, length};
ghost use Rattle.plain_types.specs.Schedule.{MustFail, MustWork};
ghost use Rattle.mf_types.specs.LinkCalls.{LinkState, IsSent, IsSentInPart, HasRoom, FailsToReceive};
ghost use Rattle.mf_types.specs.Received.{Receives};

use plain_types::fault::Failed;
use plain_types::list::Items;

/// How many bytes a receive takes at most.
pub const RECEIVE_SIZE: usize = 2_048;

/// What is still to come over a link.
#[derive(Debug, Drop)]
pub enum Coming {
    /// Some bytes, at least one.
    Piece(Items<u8>),
    /// A time in which nothing comes.
    Silence,
}

/// What a receive got.
#[derive(Clone, Copy, Debug, PartialEq, Eq)]
pub enum Got {
    /// So many bytes, 1 to 2,048, at the front of the buffer.
    Bytes(usize),
    /// Nothing came in time.
    Silent,
}

/// A connection that carries bytes both ways.
pub trait Link {
    /// All that is known of it.
    ghost state: { Self → LinkState };

    /// Sends at least one byte; on a connection of datagrams they are one datagram. After `Failed`, which comes only
    /// where the count of faults rose, a front of the bytes was sent, but not all of them. Where it is known
    /// beforehand which calls fail and how much room there is, no other call fails.
    fn send(&mut self, bytes: &[u8]) -> Result<(), Failed>
        requires ready { IsTrue (state self.old).ready }
        requires some { 0 < length bytes.now }
        ensures ok { OnOk result (IsSent bytes.now (state self.old) (state self.new)) }
        ensures failed { OnErr result (IsSentInPart bytes.now (state self.old) (state self.new)) }
        ensures fails { MustFail (state self.old).schedule (length bytes.now) → IsErr result }
        ensures works { MustWork (state self.old).schedule (length bytes.now) → IsOk result };

    /// Receives 1 to 2,048 bytes into the front of the buffer, or is silent; on a connection of datagrams the bytes
    /// are one datagram. `Failed` comes only where the count of faults rose, as where the peer closed the connection.
    /// Where it is known beforehand which calls fail, no other does.
    fn receive(&mut self, into: &mut [u8]) -> Result<Got, Failed>
        requires ready { IsTrue (state self.old).ready }
        requires buffer { length into.old ≡ 2048 }
        requires room { HasRoom (state self.old) }
        ensures got { IfOk result (λ got. Receives got into.new (state self.old) (state self.new)) }
        ensures failed { OnErr result (FailsToReceive (state self.old) (state self.new)) }
        ensures fails { MustFail (state self.old).schedule 0 → IsErr result }
        ensures works { MustWork (state self.old).schedule 0 → IsOk result };
}
