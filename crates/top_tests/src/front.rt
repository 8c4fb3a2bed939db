//! Words and the jobs that they spell, and outcomes with their statuses and texts.

use case_text::lines_of;
use mf_front::{End, Job, JobRefusal, Outcome, end_line, job, status, text};
use plain_types::fault::{Fault, Limit, NoMemory, Place};
use plain_types::list::Text;
use std::alloc::{AllocError, Global};
use std::test::Fail;

/// Outcomes, each with its status and its line.
const OUTCOMES: &str = "
usage ; 1 ; usage: mfdeploy run1 FILE STEPS | check FILES | convert OUT FILES
refused ; 2 ; refused: rule 2 a.dll table 255 row 0 offset 60
read fault ; 6 ; read fault: b.dll
no memory ; 8 ; no memory
accepted ; 0 ; accepted: 12 files, 3 types, 40 methods
over limit ; 3 ; limit: 13 65536 in Big
converted ; 0 ; converted: 122864 bytes, 32 assemblies
write fault ; 7 ;
returned ; 0 ; end: returned -2147483648
spent ; 0 ; end: steps spent
";

/// A file is refused by rule 2 at offset 60.
fn refused(alloc: Global) -> Result<Outcome, NoMemory> {
    let place = Place {
        file: 0,
        table: 255,
        row: 0,
        offset: 60,
    };
    let fault = Fault { rule: 2, place };
    let file = Text::copied(alloc, "a.dll")?;
    Ok(Outcome::Refused { fault, file })
}

/// The assembly `Big` has a byte of code too many.
fn over_limit(alloc: Global) -> Result<Outcome, NoMemory> {
    let limit = Limit {
        number: 13,
        count: 65_536,
        assembly: 2,
    };
    let assembly = Text::copied(alloc, "Big")?;
    Ok(Outcome::OverLimit { limit, assembly })
}

fn read_fault(alloc: Global) -> Result<Outcome, NoMemory> {
    let file = Text::copied(alloc, "b.dll")?;
    Ok(Outcome::ReadFault { file })
}

fn ran(alloc: Global, end: End) -> Result<Outcome, NoMemory> {
    let text = end_line(alloc, end)?;
    Ok(Outcome::Ran { status: 0, text })
}

/// The outcome of a name.
fn outcome_of(alloc: Global, name: &str) -> Result<Outcome, NoMemory> {
    match name {
        "usage" => Ok(Outcome::Usage),
        "refused" => refused(alloc),
        "read fault" => read_fault(alloc),
        "no memory" => Ok(Outcome::NoMemory),
        "accepted" => Ok(Outcome::Accepted {
            files: 12,
            types: 3,
            methods: 40,
        }),
        "over limit" => over_limit(alloc),
        "converted" => Ok(Outcome::Converted {
            bytes: 122_864,
            assemblies: 32,
        }),
        "write fault" => Ok(Outcome::WriteFault),
        "returned" => ran(alloc, End::Returned(-2147483648)),
        _ => ran(alloc, End::StepsSpent),
    }
}

/// Whether bytes are a line with its end; no bytes where the line is empty.
pub fn is_line(bytes: &[u8], line: &str) -> bool {
    match bytes {
        [front @ .., b'\n'] => front == line.as_bytes(),
        _ => bytes.is_empty() && line == "",
    }
}

/// Each outcome with its status and its line.
#[test]
fn outcomes_have_their_texts(rt: HostRuntime) -> Result<(), Fail> {
    let lines = lines_of(rt.alloc(), OUTCOMES, ';')?;
    for line in lines.as_slice() {
        let outcome = outcome_of(rt.alloc(), line.text(0))?;
        assert_eq!(rt; status(&outcome), line.byte(1)?);
        let text = text(rt.alloc(), &outcome)?;
        assert!(rt; is_line(text.as_slice(), line.text(2)), "{}", line.text(2));
    }
    Ok(())
}

/// Words with blanks between them, and whether they spell a job.
const JOBS: &str = "
run1 a.dll 6 | yes
run1 - 18446744073709551615 | yes
run1 -a 6 | no
run1 a.dll 01 | no
run1 a.dll 18446744073709551616 | no
run1 a.dll | no
run1 a.dll 6 7 | no
check a.dll | yes
check b - b | yes
check | no
check a.dll -x | no
convert o.pe a.dll | yes
convert a.dll a.dll b | yes
convert - - | yes
convert o.pe | no
convert | no
convert -o a.dll | no
convert o.pe -a | no
| no
";

/// Whether a job has the words.
fn has_words(found: &Job, words: &[String]) -> bool {
    match (found, words) {
        (Job::Run1 { file, steps }, [_, name, count]) => {
            file.as_str() == name.as_str() && count.as_str().parse::<u64>().ok() == Some(*steps)
        }
        (Job::Check { files }, [_, names @ ..]) => are_names(files.as_slice(), names),
        (Job::Convert { out, files }, [_, name, names @ ..]) => {
            out.as_str() == name.as_str() && are_names(files.as_slice(), names)
        }
        _ => false,
    }
}

fn are_names(files: &[Text], names: &[String]) -> bool {
    files.len() == names.len()
        && files
            .iter()
            .zip(names)
            .all(|(file, name)| file.as_str() == name.as_str())
}

/// The words of a text.
fn words_of(alloc: Global, text: &str) -> Result<Vec<String>, AllocError> {
    let mut words = Vec::new(alloc);
    for word in text.split_whitespace() {
        words.push(String::from_str(alloc, word)?)?;
    }
    Ok(words)
}

/// Words, and the job that they spell.
#[test]
fn words_are_jobs_or_none(rt: HostRuntime) -> Result<(), Fail> {
    let lines = lines_of(rt.alloc(), JOBS, '|')?;
    for line in lines.as_slice() {
        let words = words_of(rt.alloc(), line.text(0))?;
        match job(rt.alloc(), &words) {
            Ok(found) => assert!(rt; line.is_yes(1) && has_words(&found, words.as_slice())),
            Err(refusal) => {
                assert_eq!(rt; refusal, JobRefusal::NoJob);
                assert!(rt; !line.is_yes(1), "{}", line.text(0));
            }
        }
    }
    Ok(())
}

/// As many files as a job takes, and one more.
#[test]
fn a_thousand_files_are_a_job(rt: HostRuntime) -> Result<(), Fail> {
    let mut words = Vec::new(rt.alloc());
    words.push(String::from_str(rt.alloc(), "check")?)?;
    for _ in 0..1000 {
        words.push(String::from_str(rt.alloc(), "a.dll")?)?;
    }
    assert!(rt; job(rt.alloc(), &words).is_ok());
    words.push(String::from_str(rt.alloc(), "a.dll")?)?;
    assert!(rt; job(rt.alloc(), &words).is_err());
    Ok(())
}
