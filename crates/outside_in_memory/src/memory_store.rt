//! A store in memory, for tests.

ghost use Rattle.std.specs.Prelude.{◌≡◌, Some, None, OnOk, true, option_map};
ghost use Rattle.mf_types.specs.Files.{bytes_under, OthersStay};

use crate::calls::Calls;
use mf_types::files::NamedFile;
use mf_types::store::{FailedCall, Store, StoreErr};
use plain_types::fault::NoMemory;
use plain_types::list::{Items, Text};
use std::alloc::Global;

/// Files in memory. Of several files of one name the last one counts.
#[derive(Debug, Drop)]
pub struct MemoryStore {
    files: Vec<NamedFile>,
    calls: Calls,
    faults: u64,
    failed: Option<FailedCall>,
}

/// The last file of a name.
#[tactic(auto, using(crate::proofs::FilesLemmas::bytes_under_this, crate::proofs::FilesLemmas::bytes_under_other))]
fn last_of<'a>(files: &'a [NamedFile], name: &str) -> Option<&'a NamedFile>
    ensures { option_map (λ file. file.now.bytes) result ≡ bytes_under files.now name.now }
{
    let mut found = None;
    for file in files {
        if file.name.as_str() == name {
            found = Some(file);
        }
    }
    found
}

/// Keeps a file behind the others, where it counts.
#[tactic(auto, using(crate::proofs::FilesLemmas::bytes_under_new, crate::proofs::FilesLemmas::bytes_under_others))]
fn keep(files: &mut Vec<NamedFile>, file: NamedFile) -> Result<(), NoMemory>
    ensures kept { OnOk result (bytes_under files.new.items file.name ≡ Some file.bytes) }
    ensures others { OthersStay (bytes_under files.old.items) (bytes_under files.new.items) file.name }
{
    files.push(file)?;
    Ok(())
}

impl MemoryStore {
    /// A store with these files, whose calls of these numbers fail. The calls of `read` and `put` are counted from 1.
    pub fn new(files: Vec<NamedFile>, fails: Vec<u32>) -> Self
        ensures { ⟦<MemoryStore as Store>⟧.state result ≡ record {
          tells = true;
          held = bytes_under files.items;
          faults = 0;
          failed = None;
          schedule = Some (record { fails = fails.items; made = 0; room = 0 });
        } }
    {
        MemoryStore {
            files,
            calls: Calls::new(fails),
            faults: 0,
            failed: None,
        }
    }

    /// The bytes of a file.
    pub fn bytes(&self, name: &str) -> Option<&[u8]>
        ensures { option_map (λ bytes. bytes.now) result ≡ (⟦<MemoryStore as Store>⟧.state self.now).held name.now }
    {
        last_of(&self.files, name).map(|file| file.bytes.as_slice())
    }
}

impl Store for MemoryStore {
    ghost use Rattle.outside_in_memory.specs.Schedules.{schedule_of};

    ghost state = { λ s. record {
      tells = true;
      held = bytes_under s.files.items;
      faults = s.faults;
      failed = s.failed;
      schedule = Some (schedule_of s.calls 0);
    } };

    fn read(&mut self, alloc: Global, name: &str) -> Result<Vec<u8>, StoreErr> {
        let found = if self.calls.count(0, 0) {
            None
        } else {
            last_of(&self.files, name)
        };
        match found {
            Some(file) => {
                Vec::from_slice(alloc, file.bytes.as_slice()).map_err(|_| StoreErr::NoMemory)
            }
            None => {
                let name = Text::copied(alloc, name)?;
                self.faults = self.faults.saturating_add(1);
                self.failed = Some(FailedCall::Read(name));
                Err(StoreErr::Failed)
            }
        }
    }

    fn put(&mut self, alloc: Global, name: &str, bytes: &[u8]) -> Result<(), StoreErr> {
        let fails = self.calls.count(0, 0);
        let name = Text::copied(alloc, name)?;
        if fails {
            self.faults = self.faults.saturating_add(1);
            self.failed = Some(FailedCall::Put(name));
            return Err(StoreErr::Failed);
        }
        let bytes = Vec::from_slice(alloc, bytes).map_err(|_| StoreErr::NoMemory)?;
        let bytes = Items::from_vec(bytes);
        keep(&mut self.files, NamedFile { name, bytes })?;
        Ok(())
    }
}
