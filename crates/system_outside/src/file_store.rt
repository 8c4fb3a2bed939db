//! Files of the system.

ghost use Rattle.std.specs.Prelude.{◌≡◌, ◌≢◌, Some, None, false};
ghost use Rattle.plain_types.specs.Counts.{Rose};

use mf_types::store::{FailedCall, Store, StoreErr};
use plain_types::list::Text;
use std::alloc::Global;
use std::rt::Files;
use std::{fs, io};

/// The files of the system, by their paths. What they hold isn't told.
#[derive(Drop)]
pub struct FileStore<'r, R: Files + AllocGlobal> {
    rt: &'r R,
    faults: u64,
    failed: Option<FailedCall>,
}

impl<'r, R: Files + AllocGlobal> FileStore<'r, R> {
    /// The store of a runtime's files.
    pub fn new(rt: &'r R) -> Self
        ensures { result.faults ≡ 0 }
    {
        FileStore {
            rt,
            faults: 0,
            failed: None,
        }
    }

    /// Counts a failure, and keeps the call; or no memory, where that was the failure.
    fn fail(&mut self, error: io::Error, call: FailedCall) -> StoreErr
        ensures faults { result ≡ StoreErr.Failed → Rose self.old.faults self.new.faults }
        ensures failed { result ≡ StoreErr.Failed → self.new.failed ≡ Some call }
        ensures no_memory { result ≢ StoreErr.Failed → (self.new.faults ≡ self.old.faults) × (self.new.failed ≡ self.old.failed) }
    {
        if error.kind() == io::ErrorKind::OutOfMemory {
            return StoreErr::NoMemory;
        }
        self.faults = self.faults.saturating_add(1);
        self.failed = Some(call);
        StoreErr::Failed
    }
}

impl<R: Files + AllocGlobal> Store for FileStore<'_, R> {
    ghost state = { λ s. record {
      tells = false;
      held = λ _. None;
      faults = s.faults;
      failed = s.failed;
      schedule = None;
    } };

    fn read(&mut self, alloc: Global, name: &str) -> Result<Vec<u8>, StoreErr> {
        let call = FailedCall::Read(Text::copied(alloc, name)?);
        match fs::read(self.rt, name) {
            Ok(bytes) => Ok(bytes),
            Err(error) => Err(self.fail(error, call)),
        }
    }

    fn put(&mut self, alloc: Global, name: &str, bytes: &[u8]) -> Result<(), StoreErr> {
        let call = FailedCall::Put(Text::copied(alloc, name)?);
        match fs::write(self.rt, name, bytes) {
            Ok(()) => Ok(()),
            Err(error) => Err(self.fail(error, call)),
        }
    }
}
