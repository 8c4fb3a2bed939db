//! Standard output.

ghost use Rattle.std.specs.Prelude.{◌≡◌, [], None, false};

use mf_types::sink::Sink;
use plain_types::fault::Failed;

/// Standard output. What was written isn't told.
#[derive(Drop)]
pub struct StdSink<'r, R: Print> {
    rt: &'r R,
    faults: u64,
}

impl<'r, R: Print> StdSink<'r, R> {
    /// The standard output of a runtime.
    pub fn new(rt: &'r R) -> Self
        ensures { result.faults ≡ 0 }
    {
        StdSink { rt, faults: 0 }
    }
}

impl<R: Print> Sink for StdSink<'_, R> {
    ghost state = { λ s. record { tells = false; written = []; faults = s.faults; schedule = None } };

    fn write(&mut self, piece: &[u8]) -> Result<(), Failed> {
        match self.rt.write_all(piece) {
            Ok(()) => Ok(()),
            Err(_) => {
                self.faults = self.faults.saturating_add(1);
                Err(Failed)
            }
        }
    }
}
