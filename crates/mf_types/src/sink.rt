//! Where a call writes its text.

ghost use Rattle.std.specs.Prelude.{IsOk, IsErr, OnOk, OnErr, length};
ghost use Rattle.plain_types.specs.Schedule.{MustFail, MustWork};
ghost use Rattle.mf_types.specs.SinkCalls.{SinkState, IsWritten, IsWrittenInPart};

use plain_types::fault::Failed;

/// A place that takes bytes in pieces.
pub trait Sink {
    /// All that is known of it.
    ghost state: { Self → SinkState };

    /// Appends the piece. After `Failed`, which comes only where the count of faults rose, a front of the piece was
    /// appended. Where it is known beforehand which calls fail and how much room there is, no other call fails.
    fn write(&mut self, piece: &[u8]) -> Result<(), Failed>
        ensures ok { OnOk result (IsWritten piece.now (state self.old) (state self.new)) }
        ensures failed { OnErr result (IsWrittenInPart piece.now (state self.old) (state self.new)) }
        ensures fails { MustFail (state self.old).schedule (length piece.now) → IsErr result }
        ensures works { MustWork (state self.old).schedule (length piece.now) → IsOk result };
}
