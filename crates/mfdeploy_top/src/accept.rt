//! Whether files are accepted behind the base library.

ghost use Rattle.std.specs.Prelude.{◌≡◌, ◌≤◌, ◌+◌, ◌⊎◌, ◌++◌, [], Ok, OnOk, IfOk, IfErr, IfSome, IsNone, length, map, slice_get, unwrap_or};
ghost use Rattle.type_names.specs.Opening.{files_opened};
ghost use Rattle.verdict_rules.specs.Verdict.{Accepted, verdict};
ghost use Rattle.assemblies.specs.Closed.{Each};
ghost use Rattle.code_shrink.specs.Lines.{AreBytes};
ghost use Rattle.mfdeploy_top.specs.Accepted.{base_bytes, told_name, judged_by, judged, refused_of, IsRefusal};

use base_tables::library::{MSCORLIB_NAME, NATIVE_NAME};
use cil_verify::{Verdict, verdict};
use cil_world::{World, WorldRefusal};
use mf_front::Outcome;
use plain_types::fault::{Fault, NoMemory};
use plain_types::list::Text;
use std::alloc::Global;

/// Files behind those of the base library.
#[tactic(auto, using(crate::proofs::CheckLaws::joined_count), unfolding(crate::specs::Accepted::base_bytes))]
pub fn behind_base(alloc: Global, files: Vec<Vec<u8>>) -> Result<Vec<Vec<u8>>, NoMemory>
    ensures joined { IfOk result (λ all. map (λ bytes. bytes.items) all.items ≡ base_bytes ++ map (λ bytes. bytes.items) files.items) }
    ensures count { IfOk result (λ all. length all.items ≡ 2 + length files.items) }
{
    let mut all = base_lib::files(alloc)?;
    for file in files {
        all.push(file)?;
    }
    Ok(all)
}

/// The name of a file among those of the job; none where there is no such file.
fn name_at(files: &[Text], number: usize) -> &str
    ensures { result.now ≡ unwrap_or (slice_get files.now number) [] }
{
    match files.get(number) {
        Some(file) => file.as_str(),
        None => "",
    }
}

/// The name that a file of a world is told by.
#[tactic(auto, using(crate::proofs::CheckLaws::told_first, crate::proofs::CheckLaws::told_second, crate::proofs::CheckLaws::told_behind))]
fn told_name(files: &[Text], number: u16) -> &str
    ensures { result.now ≡ told_name files.now number }
{
    match number {
        0 => MSCORLIB_NAME,
        1 => NATIVE_NAME,
        _ => name_at(files, usize::from(number) - 2),
    }
}

/// The refusal of a file.
fn refused(alloc: Global, files: &[Text], fault: Fault) -> Outcome
    ensures { (result ≡ refused_of files.now fault) ⊎ (result ≡ Outcome.NoMemory) }
{
    let name = told_name(files, fault.place.file);
    match Text::copied(alloc, name) {
        Ok(file) => Outcome::Refused { fault, file },
        Err(NoMemory) => Outcome::NoMemory,
    }
}

/// The numbers of bytes are bytes.
fn are_bytes(bytes: &[u8])
    ensures { AreBytes bytes.now }
{}

/// Those of all files are.
#[tactic(auto, using(crate::proofs::CheckLaws::each_more, crate::proofs::CheckLaws::each_of_all))]
fn all_are_bytes(all: &[Vec<u8>])
    ensures { Each AreBytes (map (λ bytes. bytes.items) all.now) }
{
    for bytes in all {
        are_bytes(bytes);
    }
}

/// The world of files of which none breaks one of the rules 1 to 13, or what the first that breaks one comes to.
#[tactic(auto, using(crate::proofs::CheckLaws::is_refusal))]
fn opened<'a>(alloc: Global, files: &[Text], all: &'a [Vec<u8>]) -> Result<World<'a>, Outcome>
    requires few { length files.now ≤ 1000 }
    requires count { length all.now ≡ 2 + length files.now }
    ensures opened { IfOk result (λ world. files_opened (map (λ bytes. bytes.items) all.now) ≡ Ok world) }
    ensures refused { IfErr result (IsRefusal files.now (files_opened (map (λ bytes. bytes.items) all.now))) }
{
    match World::new(alloc, all) {
        Ok(world) => Ok(world),
        Err(WorldRefusal::File(fault)) => Err(refused(alloc, files, fault)),
        Err(WorldRefusal::NoMemory) => Err(Outcome::NoMemory),
    }
}

/// What a world that breaks one of the rules 20 to 54 comes to, or want of memory; none where it is accepted.
#[tactic(auto, using(crate::proofs::CheckLaws::is_accepted, crate::proofs::CheckLaws::is_verdict))]
fn refusal(alloc: Global, files: &[Text], world: &World<'_>) -> Option<Outcome>
    ensures accepted { IsNone result → verdict world.now ≡ Accepted }
    ensures refused { IfSome result (IsRefusal files.now (judged_by world.now (verdict world.now))) }
{
    match verdict(alloc, world) {
        Ok(Verdict::Accepted) => None,
        Ok(Verdict::Refused(fault)) => Some(refused(alloc, files, fault)),
        Err(NoMemory) => Some(Outcome::NoMemory),
    }
}

/// The world of files that are accepted, or what the first rule of 1 to 54 that they break comes to, or want of memory.
#[tactic(auto, using(crate::proofs::CheckLaws::judged_is, crate::proofs::CheckLaws::refused_before, crate::proofs::CheckLaws::refused_by))]
pub fn accepted<'a>(alloc: Global, files: &[Text], all: &'a [Vec<u8>]) -> Result<World<'a>, Outcome>
    requires few { length files.now ≤ 1000 }
    requires count { length all.now ≡ 2 + length files.now }
    ensures accepted { IfOk result (λ world. judged (files_opened (map (λ bytes. bytes.items) all.now)) ≡ Ok world) }
    ensures opened { IfOk result (λ world. files_opened (map (λ bytes. bytes.items) all.now) ≡ Ok world) }
    ensures bytes { OnOk result (Each AreBytes (map (λ bytes. bytes.items) all.now)) }
    ensures verdict { IfOk result (λ world. verdict world ≡ Accepted) }
    ensures refused { IfErr result (IsRefusal files.now (judged (files_opened (map (λ bytes. bytes.items) all.now)))) }
{
    all_are_bytes(all);
    let world = opened(alloc, files, all)?;
    match refusal(alloc, files, &world) {
        Some(outcome) => Err(outcome),
        None => Ok(world),
    }
}
