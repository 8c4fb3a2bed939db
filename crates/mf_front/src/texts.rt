//! The text and the status of each outcome.

ghost use Rattle.std.specs.Prelude.{◌≡◌, ◌++◌, IfOk};
ghost use Rattle.std.specs.Fmt.{decimal};
ghost use Rattle.std.specs.String.{string_bytes};
ghost use Rattle.mf_front.specs.Texts.{place_text, refused_text, accepted_text, limit_text, converted_text, end_text, status_of, text_of};

use crate::outcome::{End, Outcome};
use plain_types::fault::{Fault, Limit, NoMemory, Place};
use plain_types::list::Items;
use std::alloc::{AllocError, Global};

/// The line that tells which words are a job.
const USAGE: &str = "usage: mfdeploy run1 FILE STEPS | check FILES | convert OUT FILES\n";

/// A label and a number behind it.
fn labelled(alloc: Global, label: &str, number: u64) -> Result<String, AllocError>
    ensures { IfOk result (λ text. string_bytes text ≡ label.now ++ decimal number) }
{
    format!(in alloc; "{label}{number}")
}

/// The end of a refusal's line, with the place.
#[tactic(auto, unfolding(crate::specs::Texts::place_text))]
fn placed(alloc: Global, place: &Place) -> Result<String, AllocError>
    ensures { IfOk result (λ text. string_bytes text ≡ place_text place.now) }
{
    let mut text = labelled(alloc, " table ", u64::from(place.table))?;
    let row = labelled(alloc, " row ", u64::from(place.row))?;
    let offset = labelled(alloc, " offset ", u64::from(place.offset))?;
    text.push_str(row.as_str())?;
    text.push_str(offset.as_str())?;
    text.push_str("\n")?;
    Ok(text)
}

/// The line of a refusal.
#[tactic(auto, unfolding(crate::specs::Texts::refused_text))]
fn refused(alloc: Global, fault: &Fault, file: &str) -> Result<String, AllocError>
    ensures { IfOk result (λ text. string_bytes text ≡ refused_text fault.now file.now) }
{
    let mut text = labelled(alloc, "refused: rule ", u64::from(fault.rule))?;
    let place = placed(alloc, &fault.place)?;
    text.push_str(" ")?;
    text.push_str(file)?;
    text.push_str(place.as_str())?;
    Ok(text)
}

/// The line of accepted files.
#[tactic(auto, unfolding(crate::specs::Texts::accepted_text))]
fn accepted(alloc: Global, files: u16, types: u64, methods: u64) -> Result<String, AllocError>
    ensures { IfOk result (λ text. string_bytes text ≡ accepted_text files types methods) }
{
    let mut text = labelled(alloc, "accepted: ", u64::from(files))?;
    let types = labelled(alloc, " files, ", types)?;
    let methods = labelled(alloc, " types, ", methods)?;
    text.push_str(types.as_str())?;
    text.push_str(methods.as_str())?;
    text.push_str(" methods\n")?;
    Ok(text)
}

/// The line of a limit that is passed.
#[tactic(auto, unfolding(crate::specs::Texts::limit_text))]
fn over_limit(alloc: Global, limit: &Limit, assembly: &str) -> Result<String, AllocError>
    ensures { IfOk result (λ text. string_bytes text ≡ limit_text limit.now assembly.now) }
{
    let mut text = labelled(alloc, "limit: ", u64::from(limit.number))?;
    let count = labelled(alloc, " ", limit.count)?;
    text.push_str(count.as_str())?;
    text.push_str(" in ")?;
    text.push_str(assembly)?;
    text.push_str("\n")?;
    Ok(text)
}

/// The line of a set that was converted.
#[tactic(auto, unfolding(crate::specs::Texts::converted_text))]
fn converted(alloc: Global, bytes: u64, assemblies: u16) -> Result<String, AllocError>
    ensures { IfOk result (λ text. string_bytes text ≡ converted_text bytes assemblies) }
{
    let mut text = labelled(alloc, "converted: ", bytes)?;
    let assemblies = labelled(alloc, " bytes, ", u64::from(assemblies))?;
    text.push_str(assemblies.as_str())?;
    text.push_str(" assemblies\n")?;
    Ok(text)
}

/// The line that tells want of memory; it takes none.
#[tactic(auto, unfolding(crate::specs::Texts::text_of))]
pub fn no_memory_text() -> &'static str
    ensures { result.now ≡ text_of Outcome.NoMemory }
{
    "no memory\n"
}

/// The bytes of a text.
fn bytes_of(alloc: Global, text: &str) -> Result<Vec<u8>, AllocError>
    ensures { IfOk result (λ bytes. bytes.items ≡ text.now) }
{
    Vec::from_slice(alloc, text.as_bytes())
}

/// The line of a run's end, a text of its own or the last line behind what the run printed.
#[tactic(auto, unfolding(crate::specs::Texts::end_text))]
pub fn end_line(alloc: Global, end: End) -> Result<Items<u8>, NoMemory>
    ensures { IfOk result (λ line. line ≡ end_text end) }
{
    let line = match end {
        End::Returned(value) => format!(in alloc; "end: returned {value}\n")?,
        End::StepsSpent => String::from_str(alloc, "end: steps spent\n")?,
    };
    Ok(Items::from_vec(bytes_of(alloc, line.as_str())?))
}

/// The text of an outcome. A text ends with a line end, but for that of a run, which is what the run's board tells; so it
/// needn't be UTF-8; and where the store failed at a put, nothing is told.
#[tactic(auto, unfolding(crate::specs::Texts::text_of, crate::specs::Texts::usage_text))]
pub fn text(alloc: Global, outcome: &Outcome) -> Result<Vec<u8>, NoMemory>
    ensures { IfOk result (λ text. text.items ≡ text_of outcome.now) }
{
    Ok(match outcome {
        Outcome::Usage => bytes_of(alloc, USAGE)?,
        Outcome::Refused { fault, file } => {
            bytes_of(alloc, refused(alloc, fault, file.as_str())?.as_str())?
        }
        Outcome::ReadFault { file } => {
            let file = file.as_str();
            bytes_of(alloc, format!(in alloc; "read fault: {file}\n")?.as_str())?
        }
        Outcome::NoMemory => bytes_of(alloc, no_memory_text())?,
        Outcome::Accepted {
            files,
            types,
            methods,
        } => bytes_of(alloc, accepted(alloc, *files, *types, *methods)?.as_str())?,
        Outcome::OverLimit { limit, assembly } => {
            bytes_of(alloc, over_limit(alloc, limit, assembly.as_str())?.as_str())?
        }
        Outcome::Converted { bytes, assemblies } => {
            bytes_of(alloc, converted(alloc, *bytes, *assemblies)?.as_str())?
        }
        Outcome::WriteFault => Vec::new(alloc),
        Outcome::Ran { text, .. } => Vec::from_slice(alloc, text.as_slice())?,
    })
}

/// The status with which the program ends at an outcome.
pub fn status(outcome: &Outcome) -> u8
    ensures { result ≡ status_of outcome.now }
{
    match outcome {
        Outcome::Usage => 1,
        Outcome::Refused { .. } => 2,
        Outcome::ReadFault { .. } => 6,
        Outcome::NoMemory => 8,
        Outcome::Accepted { .. } => 0,
        Outcome::OverLimit { .. } => 3,
        Outcome::Converted { .. } => 0,
        Outcome::WriteFault => 7,
        Outcome::Ran { status, .. } => *status,
    }
}
