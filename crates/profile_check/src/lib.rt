//! The rules of names, types and members of a world (ECMA-335 II.22, II.23): rules 20 to 30 in their order.
#![tactic(auto)]

ghost use Rattle.std.specs.Prelude.{◌≡◌, IfOk};
ghost use Rattle.verdict_rules.specs.Verdict.{profile};

mod chains;

pub use chains::{Chains, read_chains, setting_of};
use cil_world::World;
use plain_types::fault::{Fault, NoMemory};
use profile_order::{profile_fault, read_judge};
use profile_subject::Subject;
use std::alloc::Global;

/// The first rule of 20 to 30 that the files of a world break: in all files those of types, 20 to 26, and then those of
/// signatures and members, 27 to 30; a file's tables and rows in their order.
pub fn check(alloc: Global, world: &World<'_>) -> Result<Option<Fault>, NoMemory>
    ensures { IfOk result (λ fault. fault ≡ profile world.now) }
{
    let table = world.classes();
    let chains = read_chains(alloc, table)?;
    let subject = Subject {
        world,
        setting: setting_of(table, &chains),
    };
    let judge = read_judge(alloc, &subject)?;
    profile_fault(alloc, &judge)
}
