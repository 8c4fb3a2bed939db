//! Signatures with each token replaced by the class that it names (ECMA-335 II.23.2).

ghost use Rattle.std.specs.Prelude.{◌≡◌, ◌<◌, IfOk, length, map};
ghost use Rattle.std.specs.Option.{option_map};
ghost use Rattle.assemblies.specs.Binding.{all_some};
ghost use Rattle.member_keys.specs.Seen.{element_seen, type_seen, place_seen, signature_seen};
ghost use Rattle.member_reading.specs.Meant.{element_meant, type_meant, place_meant, result_meant, signature_meant, field_type_meant, method_signature_meant};

use cil_sig::{MethodSig, SigFault, SigType, field_sig, method_sig};
use file_tables::schema::Coded;
use member_keys::{ElementKey, PlaceKey, SignatureKey, TypeKey};
use plain_types::elem::Elem;
use plain_types::fault::NoMemory;
use std::alloc::Global;
use type_names::TypeNames;

/// What stands inside the brackets of a type.
#[tactic(auto, using(crate::proofs::SignatureLaws::class_is, crate::proofs::SignatureLaws::value_is, crate::proofs::SignatureLaws::spelt_is))]
fn read_element(names: &TypeNames<'_>, file: u16, elem: Elem, token: u32) -> Option<ElementKey>
    requires { file < length names.now }
    ensures { option_map element_seen result ≡ element_meant names.now file elem token }
{
    match elem {
        Elem::Class => Some(ElementKey::Class(names.find_class(file, Coded::TypeDefOrRef, token)?)),
        Elem::Value => Some(ElementKey::Value(names.find_class(file, Coded::TypeDefOrRef, token)?)),
        _ => Some(ElementKey::Spelt(elem)),
    }
}

/// A type of a signature of a file; `None` exactly where its token names no class of the world.
#[tactic(auto, using(crate::proofs::SignatureLaws::type_is))]
pub fn read_type(names: &TypeNames<'_>, file: u16, of: &SigType) -> Option<TypeKey>
    requires { file < length names.now }
    ensures { option_map type_seen result ≡ type_meant names.now file of.now }
{
    let element = read_element(names, file, of.elem, of.token)?;
    Some(TypeKey {
        ranks: of.ranks,
        element,
    })
}

/// A parameter of a signature.
#[tactic(auto, using(crate::proofs::SignatureLaws::place_is))]
fn read_place(names: &TypeNames<'_>, file: u16, of: &SigType) -> Option<PlaceKey>
    requires { file < length names.now }
    ensures { option_map place_seen result ≡ place_meant names.now file of.now }
{
    let by_ref = of.pointer;
    let of = read_type(names, file, of)?;
    Some(PlaceKey { by_ref, of })
}

/// The parameters of a signature; `None` exactly where one of them is none.
fn read_places(
    alloc: Global,
    names: &TypeNames<'_>,
    file: u16,
    parameters: &[SigType],
) -> Result<Option<Vec<PlaceKey>>, NoMemory>
    requires { file < length names.now }
    ensures { IfOk result (λ places. option_map (λ keys. map place_seen keys.items) places ≡ all_some (place_meant names.now file) parameters.now) }
{
    let mut places = Vec::new(alloc);
    for parameter in parameters {
        match read_place(names, file, parameter) {
            Some(place) => places.push(place)?,
            None => return Ok(None),
        }
    }
    Ok(Some(places))
}

/// The result of a signature: no type where it is void.
#[tactic(auto, using(crate::proofs::SignatureLaws::void_result, crate::proofs::SignatureLaws::typed_result))]
fn read_result(names: &TypeNames<'_>, file: u16, of: &SigType) -> Option<Option<TypeKey>>
    requires { file < length names.now }
    ensures { option_map (option_map type_seen) result ≡ result_meant names.now file of.now }
{
    match of.elem {
        Elem::Void => Some(None),
        _ => Some(Some(read_type(names, file, of)?)),
    }
}

/// The signature of a method of a file; `None` exactly where a token of it names no class of the world.
#[tactic(auto, using(crate::proofs::SignatureLaws::signature_is))]
pub fn read_signature(
    alloc: Global,
    names: &TypeNames<'_>,
    file: u16,
    of: &MethodSig,
) -> Result<Option<SignatureKey>, NoMemory>
    requires { file < length names.now }
    ensures { IfOk result (λ key. option_map signature_seen key ≡ signature_meant names.now file of.now) }
{
    let Some(returns) = read_result(names, file, &of.returns) else {
        return Ok(None);
    };
    let Some(parameters) = read_places(alloc, names, file, of.params.as_slice())? else {
        return Ok(None);
    };
    Ok(Some(SignatureKey {
        has_this: of.this,
        returns,
        parameters,
    }))
}

/// The type that the blob of a field says (ECMA-335 II.23.2.4); `None` where it has no form, or names no class of the world.
#[tactic(auto, using(crate::proofs::SignatureLaws::field_formed, crate::proofs::SignatureLaws::field_faulty))]
pub fn read_field_type(names: &TypeNames<'_>, file: u16, blob: &[u8]) -> Option<TypeKey>
    requires { file < length names.now }
    ensures { option_map type_seen result ≡ field_type_meant names.now file blob.now }
{
    match field_sig(blob) {
        Ok(of) => read_type(names, file, &of),
        Err(_) => None,
    }
}

/// The signature that the blob of a method says (ECMA-335 II.23.2.1); `None` where it has no form, or names no class of the world.
#[tactic(auto, using(crate::proofs::SignatureLaws::method_formed, crate::proofs::SignatureLaws::method_faulty))]
pub fn read_method_signature(
    alloc: Global,
    names: &TypeNames<'_>,
    file: u16,
    blob: &[u8],
) -> Result<Option<SignatureKey>, NoMemory>
    requires { file < length names.now }
    ensures { IfOk result (λ key. option_map signature_seen key ≡ method_signature_meant names.now file blob.now) }
{
    match method_sig(alloc, blob) {
        Ok(of) => read_signature(alloc, names, file, &of),
        Err(SigFault::NoMemory) => Err(NoMemory),
        Err(SigFault::Bad { .. }) => Ok(None),
    }
}
