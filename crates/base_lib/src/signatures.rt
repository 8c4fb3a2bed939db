//! Signatures (ECMA-335 II.23.2).

ghost use Rattle.std.specs.Prelude.{◌≡◌, ◌++◌, ◌≤◌, ◌+◌, ◌∷◌, IfOk, OnOk, length, sum_by};
ghost use Rattle.cil_layout.specs.Text.{compressed};
ghost use Rattle.cil_layout.specs.Numbers.{type_index};
ghost use Rattle.base_tables.specs.Shape.{items_of, kind_of, kinds_of, signature_of};
ghost use Rattle.base_lib.specs.Keys.{token_of_key, literal_len};
ghost use Rattle.base_lib.specs.Signatures.{kind_bytes, kinds_bytes, method_signature, field_signature, locals_signature};

use crate::keys::token_for;
use base_tables::shape::{Element, Item, Kind, Signature};
use cil_bytes::tokens::type_of;
use cil_bytes::write::{push_bytes, push_compressed};
use plain_types::fault::NoMemory;
use std::alloc::Global;

/// A type that the key of a class or a value type names.
fn push_named(out: &mut Vec<u8>, items: &[Item], first: u8, key: &str) -> Result<(), NoMemory>
    requires few { length items.now ≤ 60000 }
    requires short { sum_by literal_len (items_of items.now) ≤ 1000000 }
    ensures { OnOk result (out.new.items ≡ out.old.items ++ first ∷ compressed (type_index (token_of_key (items_of items.now) key.now))) }
{
    out.push(first)?;
    push_compressed(out, type_of(token_for(items, key)))
}

/// A type.
fn push_kind(out: &mut Vec<u8>, items: &[Item], kind: &Kind) -> Result<(), NoMemory>
    requires few { length items.now ≤ 60000 }
    requires short { sum_by literal_len (items_of items.now) ≤ 1000000 }
    ensures { OnOk result (out.new.items ≡ out.old.items ++ kind_bytes (items_of items.now) (kind_of kind.now)) }
{
    let (element, key) = *kind;
    match element {
        Element::Void => push_bytes(out, &[0x01]),
        Element::Bool => push_bytes(out, &[0x02]),
        Element::Char => push_bytes(out, &[0x03]),
        Element::Int32 => push_bytes(out, &[0x08]),
        Element::Int64 => push_bytes(out, &[0x0A]),
        Element::UInt64 => push_bytes(out, &[0x0B]),
        Element::String => push_bytes(out, &[0x0E]),
        Element::Object => push_bytes(out, &[0x1C]),
        Element::Class => push_named(out, items, 0x12, key),
        Element::Value => push_named(out, items, 0x11, key),
        Element::Chars => push_bytes(out, &[0x1D, 0x03]),
        Element::Strings => push_bytes(out, &[0x1D, 0x0E]),
        Element::Objects => push_bytes(out, &[0x1D, 0x1C]),
    }
}

/// Types one behind the other.
#[tactic(auto, using(crate::proofs::Walks::kinds_step))]
fn push_kinds(out: &mut Vec<u8>, items: &[Item], kinds: &[Kind]) -> Result<(), NoMemory>
    requires few { length items.now ≤ 60000 }
    requires short { sum_by literal_len (items_of items.now) ≤ 1000000 }
    ensures { OnOk result (out.new.items ≡ out.old.items ++ kinds_bytes (items_of items.now) (kinds_of kinds.now)) }
{
    for kind in kinds {
        push_kind(out, items, kind)?;
    }
    Ok(())
}

/// A method's signature.
pub fn method_bytes(
    alloc: Global,
    items: &[Item],
    signature: &Signature,
) -> Result<Vec<u8>, NoMemory>
    requires few { length items.now ≤ 60000 }
    requires short { sum_by literal_len (items_of items.now) ≤ 1000000 }
    requires params { length signature.now.2.now ≤ 1000 }
    ensures { IfOk result (λ bytes. bytes.items ≡ method_signature (items_of items.now) (signature_of signature.now)) }
{
    let mut out = Vec::new(alloc);
    let (this, result, params) = *signature;
    out.push(if this { 0x20 } else { 0 })?;
    push_compressed(&mut out, params.len() as u32)?;
    push_kind(&mut out, items, &result)?;
    push_kinds(&mut out, items, params)?;
    Ok(out)
}

/// A field's signature.
pub fn field_bytes(alloc: Global, items: &[Item], kind: &Kind) -> Result<Vec<u8>, NoMemory>
    requires few { length items.now ≤ 60000 }
    requires short { sum_by literal_len (items_of items.now) ≤ 1000000 }
    ensures { IfOk result (λ bytes. bytes.items ≡ field_signature (items_of items.now) (kind_of kind.now)) }
{
    let mut out = Vec::new(alloc);
    out.push(0x06)?;
    push_kind(&mut out, items, kind)?;
    Ok(out)
}

/// The signature of a method's locals.
pub fn locals_bytes(alloc: Global, items: &[Item], kinds: &[Kind]) -> Result<Vec<u8>, NoMemory>
    requires few { length items.now ≤ 60000 }
    requires short { sum_by literal_len (items_of items.now) ≤ 1000000 }
    requires kinds { length kinds.now ≤ 1000 }
    ensures { IfOk result (λ bytes. bytes.items ≡ locals_signature (items_of items.now) (kinds_of kinds.now)) }
{
    let mut out = Vec::new(alloc);
    out.push(0x07)?;
    push_compressed(&mut out, kinds.len() as u32)?;
    push_kinds(&mut out, items, kinds)?;
    Ok(out)
}
