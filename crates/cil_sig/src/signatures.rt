//! Whole signatures.

ghost use Rattle.std.specs.Prelude.{◌≡◌, ◌+◌, ◌-◌, ◌^◌, ◌<◌, ◌≤◌, length, List, Result, Ok, Err, IfOk};
ghost use Rattle.cil_sig.specs.declared.sig.MethodSig.{MethodSig};
ghost use Rattle.cil_sig.specs.declared.sig.SigType.{SigType};
ghost use Rattle.cil_sig.specs.Reading.{answer, Answers, whole_type, whole_field, whole_spec, whole_locals, whole_method};
ghost use Rattle.cil_sig.specs.Seen.{Gives, Reaches};
ghost use Rattle.cil_sig.specs.Spelling.{IsMethod, IsField, IsSpec, AreLocals};

use crate::elements::{ARRAY, FIELD, LOCALS};
use crate::reading::{Slot, count, ended, marked, plain_type, result_type, slot_types, this_mark};
use crate::sig::{MethodSig, SigFault, SigType};
use crate::stop::{NoCase, Stop};
use plain_types::list::Items;
use std::alloc::Global;

#[tactic(auto, unfolding(crate::specs::Reading::whole_type))]
fn lone_type(bytes: &[u8]) -> Result<SigType, NoCase>
    ensures { Gives (λ of. of) result (whole_type bytes.now) }
{
    let (of, rest) = plain_type(bytes)?;
    ended(rest)?;
    Ok(of)
}

#[tactic(auto, unfolding(crate::specs::Reading::whole_field))]
fn field(blob: &[u8]) -> Result<SigType, NoCase>
    ensures { Gives (λ of. of) result (whole_field blob.now) }
{
    let rest = marked(FIELD, blob)?;
    lone_type(rest)
}

#[tactic(auto, unfolding(crate::specs::Reading::whole_spec))]
fn array_spec(blob: &[u8]) -> Result<SigType, NoCase>
    ensures { Gives (λ of. of) result (whole_spec blob.now) }
{
    marked(ARRAY, blob)?;
    lone_type(blob)
}

#[tactic(auto, unfolding(crate::specs::Reading::whole_locals))]
fn locals(alloc: Global, blob: &[u8]) -> Result<Items<SigType>, Stop>
    ensures { Reaches (λ types. types) result (whole_locals blob.now) }
{
    let rest = marked(LOCALS, blob)?;
    let (count, rest) = count(rest)?;
    let (types, rest) = slot_types(alloc, Slot::Local, count, rest)?;
    ended(rest)?;
    Ok(Items::from_vec(types))
}

#[tactic(auto, unfolding(crate::specs::Reading::whole_method))]
fn method(alloc: Global, blob: &[u8]) -> Result<MethodSig, Stop>
    ensures { Reaches (λ sig. sig) result (whole_method blob.now) }
{
    let (this, rest) = this_mark(blob)?;
    let (count, rest) = count(rest)?;
    let (returns, rest) = result_type(rest)?;
    let (params, rest) = slot_types(alloc, Slot::Parameter, count, rest)?;
    ended(rest)?;
    Ok(MethodSig {
        this,
        returns,
        params: Items::from_vec(params),
    })
}

/// Tells where the grammar has no case.
fn bad(blob: &[u8], no_case: NoCase) -> SigFault
    requires inside { no_case.left ≤ length blob.now }
    requires near { length blob.now < no_case.left + 2 ^ 32 }
    ensures { result ≡ SigFault.Bad (length blob.now - no_case.left) }
{
    let offset = (blob.len() - no_case.left) as u32;
    SigFault::Bad { offset }
}

/// The signature of a field (II.23.2.4): `06` and a type.
pub fn field_sig(blob: &[u8]) -> Result<SigType, SigFault>
    // What is read is spelled so, and what is spelled so is read.
    ensures found { IfOk result (λ of. IsField blob.now of) }
    ensures only { (of : SigType) → IsField blob.now of → result ≡ Ok of }
    // Else the first offset at which the grammar has no case is told.
    ensures exact { result ≡ answer blob.now (whole_field blob.now) }
{
    match field(blob) {
        Ok(of) => Ok(of),
        Err(no_case) => Err(bad(blob, no_case)),
    }
}

/// The signature of a TypeSpec (II.23.2.14): an array type.
pub fn spec_sig(blob: &[u8]) -> Result<SigType, SigFault>
    // What is read is spelled so, and what is spelled so is read.
    ensures found { IfOk result (λ of. IsSpec blob.now of) }
    ensures only { (of : SigType) → IsSpec blob.now of → result ≡ Ok of }
    // Else the first offset at which the grammar has no case is told.
    ensures exact { result ≡ answer blob.now (whole_spec blob.now) }
{
    match array_spec(blob) {
        Ok(of) => Ok(of),
        Err(no_case) => Err(bad(blob, no_case)),
    }
}

/// The signature of locals (II.23.2.6): `07`, their count, at most 65,535, and their types.
pub fn locals_sig(alloc: Global, blob: &[u8]) -> Result<Items<SigType>, SigFault>
    // What is read is spelled so, and what is spelled so is read, unless memory runs out.
    ensures found { IfOk result (λ types. AreLocals blob.now types) }
    ensures only { (types : List SigType) → AreLocals blob.now types → Answers result (Ok types) }
    // Else the first offset at which the grammar has no case is told.
    ensures exact { Answers result (answer blob.now (whole_locals blob.now)) }
{
    match locals(alloc, blob) {
        Ok(types) => Ok(types),
        Err(Stop::NoMemory) => Err(SigFault::NoMemory),
        Err(Stop::NoCase(no_case)) => Err(bad(blob, no_case)),
    }
}

/// The signature of a method (II.23.2.1): `00`, or `20` with `this`, the count of its parameters, at most 65,535, its
/// result and its parameters.
pub fn method_sig(alloc: Global, blob: &[u8]) -> Result<MethodSig, SigFault>
    // What is read is spelled so, and what is spelled so is read, unless memory runs out.
    ensures found { IfOk result (λ sig. IsMethod blob.now sig) }
    ensures only { (sig : MethodSig) → IsMethod blob.now sig → Answers result (Ok sig) }
    // Else the first offset at which the grammar has no case is told.
    ensures exact { Answers result (answer blob.now (whole_method blob.now)) }
{
    match method(alloc, blob) {
        Ok(sig) => Ok(sig),
        Err(Stop::NoMemory) => Err(SigFault::NoMemory),
        Err(Stop::NoCase(no_case)) => Err(bad(blob, no_case)),
    }
}
