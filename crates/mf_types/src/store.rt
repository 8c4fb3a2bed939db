//! The files that a call reads and writes.

ghost use Rattle.std.specs.Prelude.{◌≡◌, ◌≢◌, Some, IsTrue, IsNone, IsErr, IfOk, OnOk, IsErrOf};
ghost use Rattle.plain_types.specs.Schedule.{MustFail, MustWork};
ghost use Rattle.mf_types.specs.Files.{FilesStay, OthersStay};
ghost use Rattle.mf_types.specs.StoreCalls.{StoreState, IsFault, IsNoFault};

use plain_types::fault::NoMemory;
use plain_types::list::Text;
use std::alloc::Global;
use thiserror::Error;

/// Why a call of a store didn't do what it was asked.
#[derive(Clone, Copy, Debug, PartialEq, Eq, Error)]
pub enum StoreErr {
    #[error("the store failed")]
    Failed,
    #[error("no memory")]
    NoMemory,
}

impl From<NoMemory> for StoreErr {
    ghost use Rattle.std.specs.Prelude.{◌≡◌};
    ghost use Rattle.mf_types.specs.declared.store.StoreErr.TheVariants as errors;

    ghost from_gives = { λ _ e. e ≡ errors.NoMemory };

    fn from(_error: NoMemory) -> StoreErr {
        StoreErr::NoMemory
    }
}

/// The call that failed last, and its file's name.
#[derive(Debug, Drop)]
pub enum FailedCall {
    Read(Text),
    Put(Text),
}

/// Files by name, outside of the program. Each call returns; that a real one does isn't proved.
pub trait Store {
    /// All that is known of it.
    ghost state: { Self → StoreState };

    /// Reads a file. `Failed` comes only where the count of faults rose, as for a file that isn't there. Where it is
    /// known beforehand which calls fail, no other does, but for a read of such a file.
    fn read(&mut self, alloc: Global, name: &str) -> Result<Vec<u8>, StoreErr>
        ensures bytes { IfOk result (λ bytes. IsTrue (state self.old).tells → (state self.old).held name.now ≡ Some bytes.items) }
        ensures fault { IsErrOf result StoreErr.Failed → IsFault (FailedCall.Read name.now) (state self.old) (state self.new) }
        ensures no_fault { result ≢ Err StoreErr.Failed → IsNoFault (state self.old) (state self.new) }
        ensures files_stay { FilesStay (state self.old).held (state self.new).held }

        ensures fails { MustFail (state self.old).schedule 0 → IsErr result }
        ensures works { MustWork (state self.old).schedule 0 → IsErrOf result StoreErr.Failed → IsNone ((state self.old).held name.now) };

    /// Makes a file hold these bytes. After an error that file is open: it may hold anything. Where it is known
    /// beforehand which calls fail, no other does.
    fn put(&mut self, alloc: Global, name: &str, bytes: &[u8]) -> Result<(), StoreErr>
        ensures bytes { OnOk result (IsTrue (state self.old).tells → (state self.new).held name.now ≡ Some bytes.now) }
        ensures fault { IsErrOf result StoreErr.Failed → IsFault (FailedCall.Put name.now) (state self.old) (state self.new) }
        ensures no_fault { result ≢ Err StoreErr.Failed → IsNoFault (state self.old) (state self.new) }
        ensures others_stay { OthersStay (state self.old).held (state self.new).held name.now }

        ensures fails { MustFail (state self.old).schedule 0 → IsErr result }
        ensures works { MustWork (state self.old).schedule 0 → result ≢ Err StoreErr.Failed };
}
