//! Where each name and signature stands first.

ghost use Rattle.std.specs.Prelude.{◌≡◌, ◌≤◌, ◌^◌, IfOk, length};
ghost use Rattle.member_keys.specs.Seen.{FindsMembers};

use crate::keys::MemberKey;
use first_places::first_places;
use plain_types::fault::NoMemory;
use std::alloc::Global;
use std::collections::BTreeMap;

/// The first place of each name and signature.
#[tactic(auto, using(crate::proofs::KeyLaws::members_found))]
pub fn member_places<'a>(
    alloc: Global,
    keys: Vec<MemberKey<'a>>,
) -> Result<BTreeMap<MemberKey<'a>, u32>, NoMemory>
    requires { length keys.items ≤ 2 ^ 32 }
    ensures { IfOk result (FindsMembers keys.entry.items) }
{
    first_places(alloc, keys)
}
