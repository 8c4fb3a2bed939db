//! The jobs that words spell.

ghost use Rattle.std.specs.Prelude.{◌≡◌, ◌≤◌, Some, IfOk, IsErrOf, IsNone, length, map, ◌∷◌, not, nat_le, ◌&&◌};
ghost use Rattle.std.specs.List.{list_all};
ghost use Rattle.std.specs.String.{string_bytes};
ghost use Rattle.mf_front.specs.Jobs.{files_of};
ghost use Rattle.mf_front.specs.Words.{is_option, run1_of, check_of, convert_of, job_of};

use crate::jobs::{Job, JobRefusal};
use numerals::numeral::number;
use plain_types::fault::NoMemory;
use plain_types::list::{Items, Text};
use std::alloc::Global;

/// How many files a job takes, at most.
const MOST_FILES: usize = 1000;

/// Whether a word has two or more characters and begins with a hyphen.
fn is_option(word: &str) -> bool
    ensures { result ≡ is_option word.now }
{
    let bytes = word.as_bytes();
    bytes.len() >= 2 && bytes[0] == b'-'
}

/// Whether a word is no option.
fn is_file(word: &String) -> bool
    ensures { result ≡ not (is_option (string_bytes word.now)) }
{
    !is_option(word.as_str())
}

/// Whether none of the words is an option.
fn are_files(words: &[String]) -> bool
    ensures { result ≡ list_all (λ word. not (is_option (string_bytes word))) words.now }
{
    words.iter().all(|word| is_file(word))
}

/// Whether words are the files of a job: 1 to 1,000.
fn are_job_files(words: &[String]) -> bool
    ensures { result ≡ (nat_le 1 (length words.now) && nat_le (length words.now) 1000 && list_all (λ word. not (is_option (string_bytes word))) words.now) }
{
    1 <= words.len() && words.len() <= MOST_FILES && are_files(words)
}

/// Copies of words.
fn texts(alloc: Global, words: &[String]) -> Result<Items<Text>, NoMemory>
    ensures { IfOk result (λ texts. texts ≡ map string_bytes words.now) }
{
    let mut texts = Vec::new(alloc);
    for word in words {
        texts.push(Text::copied(alloc, word.as_str())?)?;
    }
    Ok(Items::from_vec(texts))
}

/// The job `run1 FILE STEPS` of the words behind the first.
#[tactic(auto, unfolding(crate::specs::Words::run1_of))]
fn run1(alloc: Global, words: &[String]) -> Result<Job, JobRefusal>
    ensures found { IfOk result (λ job. run1_of (map string_bytes words.now) ≡ Some job) }
    ensures few { IfOk result (λ job. length (files_of job) ≤ 1000) }
    ensures none { IsErrOf result JobRefusal.NoJob → IsNone (run1_of (map string_bytes words.now)) }
{
    let [file, steps] = words else {
        return Err(JobRefusal::NoJob);
    };
    if is_option(file.as_str()) {
        return Err(JobRefusal::NoJob);
    }
    match number(steps.as_str(), u64::MAX) {
        Some(steps) => {
            let file = Text::copied(alloc, file.as_str())?;
            Ok(Job::Run1 { file, steps })
        }
        None => Err(JobRefusal::NoJob),
    }
}

/// The job `check FILES` of the words behind the first.
#[tactic(auto, using(crate::proofs::WordLaws::files_found, crate::proofs::WordLaws::no_files))]
fn check(alloc: Global, words: &[String]) -> Result<Job, JobRefusal>
    ensures found { IfOk result (λ job. check_of (map string_bytes words.now) ≡ Some job) }
    ensures few { IfOk result (λ job. length (files_of job) ≤ 1000) }
    ensures none { IsErrOf result JobRefusal.NoJob → IsNone (check_of (map string_bytes words.now)) }
{
    if !are_job_files(words) {
        return Err(JobRefusal::NoJob);
    }
    let files = texts(alloc, words)?;
    Ok(Job::Check { files })
}

/// The job `convert OUT FILES` with these words.
#[tactic(auto, using(crate::proofs::WordLaws::out_found, crate::proofs::WordLaws::no_out, crate::proofs::WordLaws::no_out_files))]
fn convert_into(alloc: Global, out: &str, files: &[String]) -> Result<Job, JobRefusal>
    ensures found { IfOk result (λ job. convert_of (out.now ∷ map string_bytes files.now) ≡ Some job) }
    ensures few { IfOk result (λ job. length (files_of job) ≤ 1000) }
    ensures none { IsErrOf result JobRefusal.NoJob → IsNone (convert_of (out.now ∷ map string_bytes files.now)) }
{
    if is_option(out) {
        return Err(JobRefusal::NoJob);
    }
    if !are_job_files(files) {
        return Err(JobRefusal::NoJob);
    }
    let out = Text::copied(alloc, out)?;
    let files = texts(alloc, files)?;
    Ok(Job::Convert { out, files })
}

/// The job `convert OUT FILES` of the words behind the first.
#[tactic(auto, unfolding(crate::specs::Words::convert_of))]
fn convert(alloc: Global, words: &[String]) -> Result<Job, JobRefusal>
    ensures found { IfOk result (λ job. convert_of (map string_bytes words.now) ≡ Some job) }
    ensures few { IfOk result (λ job. length (files_of job) ≤ 1000) }
    ensures none { IsErrOf result JobRefusal.NoJob → IsNone (convert_of (map string_bytes words.now)) }
{
    match words {
        [] => Err(JobRefusal::NoJob),
        [out, files @ ..] => convert_into(alloc, out.as_str(), files),
    }
}

/// The job that the words after the program's name spell; it has at most 1,000 files. `NoJob` comes only where they
/// spell none.
#[tactic(auto, unfolding(crate::specs::Words::job_of))]
pub fn job(alloc: Global, words: &[String]) -> Result<Job, JobRefusal>
    ensures found { IfOk result (λ job. job_of (map string_bytes words.now) ≡ Some job) }
    ensures few { IfOk result (λ job. length (files_of job) ≤ 1000) }
    ensures none { IsErrOf result JobRefusal.NoJob → IsNone (job_of (map string_bytes words.now)) }
{
    let [command, words @ ..] = words else {
        return Err(JobRefusal::NoJob);
    };
    match command.as_str() {
        "run1" => run1(alloc, words),
        "check" => check(alloc, words),
        "convert" => convert(alloc, words),
        _ => Err(JobRefusal::NoJob),
    }
}
