//! Members of a file that stand behind one another, searched one after the other.

ghost use Rattle.std.specs.Prelude.{◌≡◌, ◌<◌, Some, length, slice_get};
ghost use Rattle.std.specs.List.{position};
ghost use Rattle.std.specs.Option.{option_map};
ghost use Rattle.assemblies.specs.Binding.{range};
ghost use Rattle.classes.specs.Queries.{method_signature_eq};
ghost use Rattle.member_keys.specs.Seen.{signature_seen};
ghost use Rattle.member_search.specs.Shown.{Shown, field_shown, method_shown, key_shown, is_shown, members_in};

use crate::keys::{count_members, field_key};
use crate::sort::Sort;
use class_table::{FieldRow, FileRows, MethodRow};
use member_keys::{MemberKey, SignatureKey};
use std::alloc::Global;

/// Whether both signatures have forms and are equal.
#[tactic(auto, using(member_keys::proofs::KeyLaws::same_signature))]
fn is_same_signature(a: &Option<SignatureKey>, b: &Option<SignatureKey>) -> bool
    ensures { result ≡ method_signature_eq (option_map signature_seen a.now) (option_map signature_seen b.now) }
{
    match (a, b) {
        (Some(a), Some(b)) => a == b,
        _ => false,
    }
}

/// Whether a name and a signature are those of a key.
#[tactic(auto, using(member_keys::proofs::KeyLaws::same_bytes))]
fn is_spelt(name: &str, signature: &Option<SignatureKey>, wanted: &MemberKey<'_>) -> bool
    ensures { result ≡ is_shown (key_shown wanted.now) (record { name = name.now; signature = option_map signature_seen signature.now }) }
{
    name == wanted.name && is_same_signature(signature, &wanted.signature)
}

/// Whether a field has a key's name, and the type that is the key's signature.
fn is_field(alloc: Global, field: &FieldRow<'_>, wanted: &MemberKey<'_>) -> bool
    ensures { result ≡ is_shown (key_shown wanted.now) (field_shown field.now) }
{
    let own = field_key(alloc, field);
    is_spelt(own.name, &own.signature, wanted)
}

/// Whether a method has a key's name and signature.
fn is_method(method: &MethodRow<'_>, wanted: &MemberKey<'_>) -> bool
    ensures { result ≡ is_shown (key_shown wanted.now) (method_shown method.now) }
{
    is_spelt(method.name, &method.signature, wanted)
}

/// Whether a member of a file has a key's name and signature.
fn is_member(
    alloc: Global,
    file: &FileRows<'_>,
    sort: Sort,
    n: usize,
    wanted: &MemberKey<'_>,
) -> bool
    requires { n < length (members_in sort file.now) }
    ensures { (m : Shown) → slice_get (members_in sort file.now) n ≡ Some m → result ≡ is_shown (key_shown wanted.now) m }
{
    match sort {
        Sort::Field => is_field(alloc, &file.fields[n], wanted),
        Sort::Method => is_method(&file.methods[n], wanted),
    }
}

/// Where the first member with a key's name and signature stands among some that stand behind one another. In the time of their number.
pub fn scan(
    alloc: Global,
    file: &FileRows<'_>,
    sort: Sort,
    first: u32,
    count: u32,
    wanted: &MemberKey<'_>,
) -> Option<u32>
    ensures { result ≡ position (is_shown (key_shown wanted.now)) (range first count (members_in sort file.now)) }
{
    let start = first as usize;
    let end = (start + count as usize).min(count_members(file, sort));
    for n in start..end {
        if is_member(alloc, file, sort, n, wanted) {
            return Some((n - start) as u32);
        }
    }
    None
}
