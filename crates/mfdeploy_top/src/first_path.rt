//! What the job `run1` makes of its file.

ghost use Rattle.std.specs.Prelude.{◌≡◌, ◌⊎◌};
ghost use Rattle.mf_front.specs.Texts.{end_text};
ghost use Rattle.mfdeploy_top.specs.FirstPath.{run_of};

use crate::form::code_of;
use mf_front::{End, Outcome, end_line};
use plain_types::fault::NoMemory;
use plain_types::list::Text;
use std::alloc::Global;
use tiny_interp::postfix;

/// What a run's end comes to.
fn ran(alloc: Global, end: End) -> Outcome
    ensures { (result ≡ Outcome.Ran 0 (end_text end)) ⊎ (result ≡ Outcome.NoMemory) }
{
    match end_line(alloc, end) {
        Ok(text) => Outcome::Ran { status: 0, text },
        Err(NoMemory) => Outcome::NoMemory,
    }
}

/// What a file's bytes come to, run for at most so many steps.
pub fn run1(alloc: Global, bytes: &[u8], file: Text, steps: u64) -> Outcome
    ensures { (result ≡ run_of bytes.now file steps) ⊎ (result ≡ Outcome.NoMemory) }
{
    match code_of(bytes) {
        Err(fault) => Outcome::Refused { fault, file },
        Ok(code) => match postfix::run1(code, steps) {
            Some(value) => ran(alloc, End::Returned(value)),
            None => ran(alloc, End::StepsSpent),
        },
    }
}
