//! The jobs of the program.

ghost use Rattle.std.specs.Prelude.{◌≡◌};
ghost use Rattle.mf_front.specs.Jobs.{files_of};

use plain_types::fault::NoMemory;
use plain_types::list::{Items, Text};
use std::slice;

/// What the program is asked to do.
#[derive(Debug, Drop)]
pub enum Job {
    /// Reads one assembly of constants, and runs it for at most so many steps.
    Run1 { file: Text, steps: u64 },
    /// Reads assemblies, and tells the first rule that they break behind the base library, if they do. There are 1 to
    /// 1,000 files.
    Check { files: Items<Text> },
    /// Converts assemblies that break no rule, with the base library, into one set of images, and puts it into the file
    /// `out`. There are 1 to 1,000 files, and `out` may be one of them.
    Convert { out: Text, files: Items<Text> },
}

impl Job {
    /// The files that the job reads, in order.
    pub fn files(&self) -> &[Text]
        ensures { result.now ≡ files_of self.now }
    {
        match self {
            Job::Run1 { file, .. } => slice::from_ref(file),
            Job::Check { files } | Job::Convert { files, .. } => files.as_slice(),
        }
    }
}

/// Why words give no job.
#[derive(Clone, Copy, Debug, PartialEq, Eq)]
pub enum JobRefusal {
    /// The words are no job.
    NoJob,
    NoMemory,
}

impl From<NoMemory> for JobRefusal {
    ghost use Rattle.std.specs.Prelude.{◌≡◌};
    ghost use Rattle.mf_front.specs.declared.jobs.JobRefusal.TheVariants as refusals;

    ghost from_gives = { λ _ e. e ≡ refusals.NoMemory };

    fn from(_error: NoMemory) -> JobRefusal {
        JobRefusal::NoMemory
    }
}
