//! What the job `convert` makes of its files.

ghost use Rattle.std.specs.Prelude.{◌≡◌, ◌≤◌, ◌⊎◌, Ok, IfOk, IfErr, length, map};
ghost use Rattle.mf_types.specs.Files.{OthersStay};
ghost use Rattle.verdict_rules.specs.Verdict.{Accepted, verdict};
ghost use Rattle.convert_kept.specs.Conversion.{AreOpened};
ghost use Rattle.mf_convert.specs.Conversion.{Converts};
ghost use Rattle.mfdeploy_top.specs.Accepted.{IsBased};
ghost use Rattle.mfdeploy_top.specs.Convert.{limit_place, PassLimit, AreRefused, PutEnds, IsSetOf};

use crate::accept::{accepted, behind_base};
use cil_world::World;
use mf_convert::{ConvertRefusal, convert};
use mf_front::Outcome;
use mf_types::store::{Store, StoreErr};
use plain_types::fault::{Limit, NoMemory};
use plain_types::list::Text;
use std::alloc::Global;
use type_names::assembly_key;

/// The first limit that is one of the whole set.
const FIRST_OF_SET: u8 = 17;

/// A set of images, and of how many assemblies they are.
#[derive(Debug, Drop)]
pub struct ImageSet {
    pub bytes: Vec<u8>,
    pub assemblies: u16,
}

/// Where a limit is passed.
#[tactic(auto, unfolding(crate::specs::Convert::limit_place))]
fn limit_place<'a>(world: &World<'a>, limit: &Limit) -> &'a str
    ensures { result.now ≡ limit_place world.now limit.now }
{
    if limit.number >= FIRST_OF_SET {
        "set"
    } else if limit.assembly < world.files() {
        assembly_key(world.tables(limit.assembly)).name
    } else {
        ""
    }
}

/// What files that pass a limit come to.
fn over_limit(alloc: Global, world: &World<'_>, limit: Limit) -> Outcome
    ensures { (result ≡ Outcome.OverLimit limit (limit_place world.now limit)) ⊎ (result ≡ Outcome.NoMemory) }
{
    match Text::copied(alloc, limit_place(world, &limit)) {
        Ok(assembly) => Outcome::OverLimit { limit, assembly },
        Err(NoMemory) => Outcome::NoMemory,
    }
}

/// The bytes that an accepted world is converted into, or what the limit comes to that it passes, or want of memory.
#[tactic(auto, using(crate::proofs::ConvertLaws::passes))]
fn set_of(alloc: Global, world: &World<'_>) -> Result<Vec<u8>, Outcome>
    requires opened { AreOpened world.now }
    requires accepted { verdict world.now ≡ Accepted }
    requires base { IsBased world.now }
    ensures set { IfOk result (λ set. Converts world.now (Ok set.items)) }
    ensures refused { IfErr result (λ outcome. PassLimit world.now outcome ⊎ (outcome ≡ Outcome.NoMemory)) }
{
    match convert(alloc, world) {
        Ok(set) => Ok(set),
        Err(ConvertRefusal::Limit(limit)) => Err(over_limit(alloc, world, limit)),
        Err(ConvertRefusal::NoMemory) => Err(Outcome::NoMemory),
    }
}

/// The set that the bytes of files become behind the base library, or what they come to where they break a rule or pass a limit, or
/// want of memory.
#[tactic(auto, using(crate::proofs::ConvertLaws::is_set, crate::proofs::ConvertLaws::are_opened, crate::proofs::ConvertLaws::are_based, crate::proofs::ConvertLaws::not_accepted, crate::proofs::ConvertLaws::too_large))]
pub fn converted(alloc: Global, files: &[Text], bytes: Vec<Vec<u8>>) -> Result<ImageSet, Outcome>
    requires few { length files.now ≤ 1000 }
    requires count { length bytes.items ≡ length files.now }
    ensures set { IfOk result (λ set. IsSetOf (map (λ bytes. bytes.items) bytes.items) set.bytes.items set.assemblies) }
    ensures refused { IfErr result (λ outcome. AreRefused files.now (map (λ bytes. bytes.items) bytes.items) outcome ⊎ (outcome ≡ Outcome.NoMemory)) }
{
    let all = match behind_base(alloc, bytes) {
        Ok(all) => all,
        Err(NoMemory) => return Err(Outcome::NoMemory),
    };
    let world = accepted(alloc, files, &all)?;
    let set = set_of(alloc, &world)?;
    Ok(ImageSet {
        bytes: set,
        assemblies: world.files(),
    })
}

/// Puts a set into the store, and tells what that comes to.
pub fn put_set<S: Store>(alloc: Global, out: &str, set: &ImageSet, store: &mut S) -> Outcome
    ensures ends { PutEnds out.now set.now.bytes.items set.now.assemblies (S.state store.old) (S.state store.new) result }
    ensures others_stay { OthersStay (S.state store.old).held (S.state store.new).held out.now }
{
    match store.put(alloc, out, &set.bytes) {
        Ok(()) => Outcome::Converted {
            bytes: set.bytes.len() as u64,
            assemblies: set.assemblies,
        },
        Err(StoreErr::Failed) => Outcome::WriteFault,
        Err(StoreErr::NoMemory) => Outcome::NoMemory,
    }
}
