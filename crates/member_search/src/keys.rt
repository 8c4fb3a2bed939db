//! Members as keys.

ghost use Rattle.std.specs.Prelude.{◌≡◌, ◌<◌, ◌≤◌, IfOk, Some, length, map, slice_get};
ghost use Rattle.assemblies.specs.Binding.{range};
ghost use Rattle.member_keys.specs.Seen.{signature_seen};
ghost use Rattle.member_search.specs.Shown.{field_shown, method_shown, key_shown, members_in};

use crate::sort::Sort;
use class_table::{FieldRow, FileRows, MethodRow};
use member_keys::{MemberKey, SignatureKey};
use plain_types::fault::NoMemory;
use std::alloc::Global;

/// The same signature.
fn copy_signature(alloc: Global, signature: &SignatureKey) -> Result<SignatureKey, NoMemory>
    ensures { IfOk result (λ copy. signature_seen copy ≡ signature_seen signature.now) }
{
    let mut parameters = Vec::new(alloc);
    for place in &signature.parameters {
        parameters.push(*place)?;
    }
    Ok(SignatureKey {
        has_this: signature.has_this,
        returns: signature.returns,
        parameters,
    })
}

/// The key of a field (ECMA-335 II.22.15): its signature is one of its type as the result, and `None` where it has none.
pub fn field_key<'a>(alloc: Global, field: &FieldRow<'a>) -> MemberKey<'a>
    ensures { key_shown result ≡ field_shown field.now }
{
    let signature = match field.signature {
        Some(of) => Some(SignatureKey {
            has_this: false,
            returns: Some(of),
            parameters: Vec::new(alloc),
        }),
        None => None,
    };
    MemberKey {
        name: field.name,
        signature,
    }
}

/// The key of a method (ECMA-335 II.22.26), with a signature of its own.
pub fn method_key<'a>(alloc: Global, method: &MethodRow<'a>) -> Result<MemberKey<'a>, NoMemory>
    ensures { IfOk result (λ key. key_shown key ≡ method_shown method.now) }
{
    let signature = match &method.signature {
        Some(signature) => Some(copy_signature(alloc, signature)?),
        None => None,
    };
    Ok(MemberKey {
        name: method.name,
        signature,
    })
}

/// How many members a file has.
pub fn count_members(file: &FileRows<'_>, sort: Sort) -> usize
    ensures { result ≡ length (members_in sort file.now) }
{
    match sort {
        Sort::Field => file.fields.len(),
        Sort::Method => file.methods.len(),
    }
}

/// The key of a member.
fn member_key<'a>(
    alloc: Global,
    file: &FileRows<'a>,
    sort: Sort,
    n: usize,
) -> Result<MemberKey<'a>, NoMemory>
    requires { n < length (members_in sort file.now) }
    ensures { IfOk result (λ key. slice_get (members_in sort file.now) n ≡ Some (key_shown key)) }
{
    match sort {
        Sort::Field => Ok(field_key(alloc, &file.fields[n])),
        Sort::Method => method_key(alloc, &file.methods[n]),
    }
}

/// The keys of some members that stand behind one another.
pub fn member_keys<'a>(
    alloc: Global,
    file: &FileRows<'a>,
    sort: Sort,
    first: u32,
    count: u32,
) -> Result<Vec<MemberKey<'a>>, NoMemory>
    ensures keys { IfOk result (λ keys. map key_shown keys.items ≡ range first count (members_in sort file.now)) }
    ensures few { IfOk result (λ keys. length keys.items ≤ count) }
{
    let start = first as usize;
    let end = (start + count as usize).min(count_members(file, sort));
    let mut keys = Vec::new(alloc);
    for n in start..end {
        keys.push(member_key(alloc, file, sort, n)?)?;
    }
    Ok(keys)
}
