//! What the job `check` makes of its files.

ghost use Rattle.std.specs.Prelude.{◌≡◌, ◌≤◌, ◌⊎◌, length, map};
ghost use Rattle.mfdeploy_top.specs.Check.{check_of};

use crate::accept::{accepted, behind_base};
use cil_verify::{count_methods, count_types};
use mf_front::Outcome;
use plain_types::fault::NoMemory;
use plain_types::list::Text;
use std::alloc::Global;

/// What the bytes of files come to behind the base library.
#[tactic(auto, using(crate::proofs::CheckLaws::checked, crate::proofs::CheckLaws::not_checked))]
pub fn check(alloc: Global, files: &[Text], bytes: Vec<Vec<u8>>) -> Outcome
    requires few { length files.now ≤ 1000 }
    requires count { length bytes.items ≡ length files.now }
    ensures { (result ≡ check_of files.now (map (λ bytes. bytes.items) bytes.items)) ⊎ (result ≡ Outcome.NoMemory) }
{
    let all = match behind_base(alloc, bytes) {
        Ok(all) => all,
        Err(NoMemory) => return Outcome::NoMemory,
    };
    match accepted(alloc, files, &all) {
        Ok(world) => Outcome::Accepted {
            files: files.len() as u16,
            types: count_types(&world),
            methods: count_methods(&world),
        },
        Err(outcome) => outcome,
    }
}
