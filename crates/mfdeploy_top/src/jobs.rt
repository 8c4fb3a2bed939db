//! The jobs, from their words to what they come to.

ghost use Rattle.std.specs.Prelude.{◌≡◌, ◌≤◌, Some, length, map, slice_get, unwrap_or, []};
ghost use Rattle.std.specs.String.{string_bytes};
ghost use Rattle.mf_front.specs.Jobs.{files_of};
ghost use Rattle.mf_front.specs.Words.{job_of};
ghost use Rattle.mfdeploy_top.specs.Jobs.{ComesTo, ReadEnds, unread_of};

use crate::check::check;
use crate::convert::{converted, put_set};
use crate::first_path::run1;
use crate::reading::{Unread, read_files};
use mf_front::{Job, JobRefusal, Outcome, job};
use mf_types::store::Store;
use plain_types::list::Text;
use std::alloc::Global;

/// The bytes of the first file; none where there is no file.
fn first_bytes(all: &[Vec<u8>]) -> &[u8]
    ensures { result.now ≡ unwrap_or (slice_get (map (λ bytes. bytes.items) all.now) 0) [] }
{
    match all {
        [] => &[],
        [bytes, ..] => bytes.as_slice(),
    }
}

/// Converts the bytes of files, puts the set into the store, and tells what that comes to.
#[tactic(auto, using(crate::proofs::JobLaws::is_put, crate::proofs::JobLaws::is_refused))]
fn convert<S: Store>(
    alloc: Global,
    out: &Text,
    files: &[Text],
    all: Vec<Vec<u8>>,
    store: &mut S,
) -> Outcome
    requires few { length files.now ≤ 1000 }
    requires count { length all.items ≡ length files.now }
    ensures { ReadEnds (Job.Convert out.now files.now) (map (λ bytes. bytes.items) all.items) (S.state store.old) (S.state store.new) result }
{
    match converted(alloc, files, all) {
        Ok(set) => put_set(alloc, out.as_str(), &set, store),
        Err(outcome) => outcome,
    }
}

/// What the bytes of a job's files come to, over the store from which they were read.
#[tactic(auto, using(crate::proofs::JobLaws::is_answer))]
fn answer<S: Store>(alloc: Global, asked: Job, all: Vec<Vec<u8>>, store: &mut S) -> Outcome
    requires few { length (files_of asked) ≤ 1000 }
    requires count { length all.items ≡ length (files_of asked) }
    ensures { ReadEnds asked (map (λ bytes. bytes.items) all.items) (S.state store.old) (S.state store.new) result }
{
    match asked {
        Job::Run1 { file, steps } => run1(alloc, first_bytes(&all), file, steps),
        Job::Check { files } => check(alloc, files.as_slice(), all),
        Job::Convert { out, files } => convert(alloc, &out, files.as_slice(), all, store),
    }
}

/// What files come to that weren't all read.
fn unread(refusal: Unread) -> Outcome
    ensures { result ≡ unread_of refusal }
{
    match refusal {
        Unread::File(file) => Outcome::ReadFault { file },
        Unread::NoMemory => Outcome::NoMemory,
    }
}

/// Reads the files of a job, and tells what they come to.
fn done<S: Store>(alloc: Global, asked: Job, store: &mut S) -> Outcome
    requires { length (files_of asked) ≤ 1000 }
    ensures { ComesTo (Some asked) (S.state store.old) (S.state store.new) result }
{
    match read_files(alloc, asked.files(), store) {
        Ok(all) => answer(alloc, asked, all, store),
        Err(refusal) => unread(refusal),
    }
}

/// What the words come to.
pub fn outcome_of<S: Store>(alloc: Global, words: &[String], store: &mut S) -> Outcome
    ensures { ComesTo (job_of (map string_bytes words.now)) (S.state store.old) (S.state store.new) result }
{
    match job(alloc, words) {
        Ok(asked) => done(alloc, asked, store),
        Err(JobRefusal::NoJob) => Outcome::Usage,
        Err(JobRefusal::NoMemory) => Outcome::NoMemory,
    }
}
