//! Reading the files of a job.

ghost use Rattle.std.specs.Prelude.{◌≡◌, ◌⊎◌, IfOk, IfErr, OnOk, map};
ghost use Rattle.mf_types.specs.Files.{FilesStay};
ghost use Rattle.mfdeploy_top.specs.Jobs.{AreRead, IsUnreadOf, IsReadOnly};

use mf_types::store::{Store, StoreErr};
use plain_types::fault::NoMemory;
use plain_types::list::Text;
use std::alloc::{AllocFailed, Global};

/// Why the files of a job weren't read.
#[derive(Debug, Drop)]
pub enum Unread {
    /// The first file that couldn't be read.
    File(Text),
    NoMemory,
}

impl<T: Drop> From<AllocFailed<T>> for Unread {
    ghost use Rattle.std.specs.Prelude.{◌≡◌};
    ghost use Rattle.mfdeploy_top.specs.declared.reading.Unread.TheVariants as refusals;

    ghost from_gives = { λ _ e. e ≡ refusals.NoMemory };

    fn from(_error: AllocFailed<T>) -> Unread {
        Unread::NoMemory
    }
}

/// The refusal of a file that couldn't be read.
fn unread_file(alloc: Global, name: &str) -> Unread
    ensures { (result ≡ Unread.File name.now) ⊎ (result ≡ Unread.NoMemory) }
{
    match Text::copied(alloc, name) {
        Ok(name) => Unread::File(name),
        Err(NoMemory) => Unread::NoMemory,
    }
}

/// The bytes of files, which are read in order up to the first that can't be read.
pub fn read_files<S: Store>(
    alloc: Global,
    files: &[Text],
    store: &mut S,
) -> Result<Vec<Vec<u8>>, Unread>
    ensures read { IfOk result (λ all. AreRead (S.state store.old) files.now (map (λ bytes. bytes.items) all.items)) }
    ensures read_only { OnOk result (IsReadOnly (S.state store.old) (S.state store.new)) }
    ensures unread { IfErr result (IsUnreadOf files.now (S.state store.old) (S.state store.new)) }
    ensures files_stay { FilesStay (S.state store.old).held (S.state store.new).held }
{
    let mut all = Vec::new(alloc);
    for file in files {
        match store.read(alloc, file.as_str()) {
            Ok(bytes) => all.push(bytes)?,
            Err(StoreErr::Failed) => return Err(unread_file(alloc, file.as_str())),
            Err(StoreErr::NoMemory) => return Err(Unread::NoMemory),
        }
    }
    Ok(all)
}
