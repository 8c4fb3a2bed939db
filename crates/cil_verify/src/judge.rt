//! The verdict.

ghost use Rattle.std.specs.Prelude.{◌≡◌, ℕ, true, false, List, IfOk};
ghost use Rattle.file_tables.specs.File.{FilePart};
ghost use Rattle.machine.specs.Trace.{is_stuck, trace};
ghost use Rattle.world_rows.specs.World.{ecma_program};
ghost use Rattle.verdict_rules.specs.Verdict.{verdict};
ghost use Rattle.base_rows.specs.Facts.{base};
ghost use Rattle.cil_verify.specs.Seen.{seen};

use crate::outcome::Verdict;
use crate::phases::first_fault;
use cil_world::World;
use plain_types::fault::NoMemory;
use profile_check::{read_chains, setting_of};
use profile_subject::Subject;
use std::alloc::Global;

/// The verdict on a world's files, which keep the rules 1 to 13: the first rule of 20 to 54 that they break. In all files first the
/// rules of types, 20 to 26, then those of signatures and members, 27 to 30 (ECMA-335 II.22, II.23), then 31 of slots (II.12.2), and then
/// those of code, 40 to 54 (II.25.4, III.1.7, III.1.8); a file's tables and rows in their order. Want of memory is the only error.
///
/// It is exact of each world. Behind the base library an accepted program never meets an instruction that has no case, for any number
/// of steps and of cells.
pub fn verdict(alloc: Global, world: &World<'_>) -> Result<Verdict, NoMemory>
    ensures exact { IfOk result (λ v. seen v ≡ verdict world.now) }
    ensures sound { IfOk result (λ v. v ≡ Verdict.Accepted → (xs : List FilePart) → world.now ≡ base xs → (steps most : ℕ) → is_stuck (trace (ecma_program (base xs)) steps most).finish ≡ false) }
{
    let _stand = world.files();
    let table = world.classes();
    let chains = read_chains(alloc, table)?;
    let subject = Subject {
        world,
        setting: setting_of(table, &chains),
    };
    match first_fault(alloc, &subject)? {
        Some(fault) => Ok(Verdict::Refused(fault)),
        None => Ok(Verdict::Accepted),
    }
}
