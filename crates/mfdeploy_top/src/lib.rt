//! The call on which the program stands.
#![tactic(auto)]

ghost use Rattle.std.specs.Prelude.{map};
ghost use Rattle.std.specs.String.{string_bytes};
ghost use Rattle.mf_front.specs.declared.outcome.Outcome.{Outcome};
ghost use Rattle.mf_front.specs.Words.{job_of};
ghost use Rattle.mfdeploy_top.specs.Jobs.{ComesTo, FilesLeft};
ghost use Rattle.mfdeploy_top.specs.Writing.{EndsWith};

mod accept;
mod check;
mod convert;
mod first_path;
mod form;
mod jobs;
mod reading;
mod tell;
mod writing;

use jobs::outcome_of;
use mf_types::sink::Sink;
use mf_types::store::Store;
use std::alloc::Global;
use tell::tell;

/// Does the job that the words after the program's name spell, writes its text to the sink, and gives the status.
///
/// The job `check FILES` reads 1 to 1,000 files, and tells the first rule of 1 to 54 that they break behind the base
/// library, or that they break none. The job `convert OUT FILES` converts files that break none, with the base library,
/// into one set of images, or tells the first limit that they pass, and puts the set into the store as OUT. The job
/// `run1 FILE STEPS` reads one file, and runs its entry method for at most so many steps, where that is an expression of
/// constants. The statuses are 0 done, 1 the words are no job, 2 a file breaks a rule or hasn't the form, 3 a limit is
/// passed, 6 a file couldn't be read, 7 the sink failed, or the store at the put, and 8 no memory.
pub fn mfdeploy<S: Store, K: Sink>(
    alloc: Global,
    words: &[String],
    store: &mut S,
    sink: &mut K,
) -> u8
    // There is an outcome that the job comes to, and the call ends with its status and its text, or with a failing sink.
    ensures ends { (outcome : Outcome)
        × ComesTo (job_of (map string_bytes words.now)) (S.state store.old) (S.state store.new) outcome
        × EndsWith outcome result (K.state sink.old) (K.state sink.new) }

    ensures files_stay { FilesLeft (job_of (map string_bytes words.now)) (S.state store.old) (S.state store.new) }
{
    let outcome = outcome_of(alloc, words, store);
    tell(alloc, &outcome, sink)
}
