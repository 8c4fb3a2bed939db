//! Whole signatures: where one has no form, or the first type that doesn't fit.

ghost use Rattle.std.specs.Prelude.{◌≡◌, ◌≢◌, ◌<◌, ◌^◌, Err, IfOk, length};
ghost use Rattle.cil_sig.specs.declared.sig.SigFault.TheVariants as faults;
ghost use Rattle.cil_sig.specs.Reading.{whole_field, whole_spec, whole_locals, whole_method};
ghost use Rattle.verdict_rules.specs.Members.{wrong_at, first_wrong, in_field, in_spec, in_locals, in_method};
ghost use Rattle.profile_subject.specs.Subject.{IsSubject};
ghost use Rattle.signature_tests.specs.Fits.{admits, fits_at};

use crate::fits::Handles;
use crate::walk::{Listed, list_wrong, type_wrong};
use cil_sig::{MethodSig, Position, SigFault, field_sig, locals_sig, method_sig, spec_sig};
use plain_types::fault::NoMemory;
use profile_subject::Subject;
use std::alloc::Global;

/// The offset at which a signature that was read without memory has no form.
pub fn fault_offset(fault: SigFault) -> u32
    requires { fault ≢ faults.NoMemory }
    ensures { fault ≡ SigFault.Bad result }
{
    match fault {
        SigFault::Bad { offset } => offset,
        SigFault::NoMemory => unreachable!(),
    }
}

/// Where the signature of a field that is referred to is wrong (ECMA-335 II.23.2.4).
pub fn field_blob_wrong(subject: &Subject<'_, '_>, file: u16, blob: &[u8]) -> Option<u32>
    requires subject { IsSubject subject.now }
    requires file { file < length subject.now.world.now }
    ensures { result ≡ wrong_at blob.now (whole_field blob.now) in_field (fits_at subject.now.world.now file (admits Handles.Refused)) }
{
    match field_sig(blob) {
        Ok(of) => type_wrong(subject, file, Handles::Refused, Position::Field, &of, blob),
        Err(fault) => Some(fault_offset(fault)),
    }
}

/// Where the signature of a TypeSpec is wrong (ECMA-335 II.23.2.14).
pub fn spec_blob_wrong(subject: &Subject<'_, '_>, file: u16, blob: &[u8]) -> Option<u32>
    requires subject { IsSubject subject.now }
    requires file { file < length subject.now.world.now }
    ensures { result ≡ wrong_at blob.now (whole_spec blob.now) in_spec (fits_at subject.now.world.now file (admits Handles.Refused)) }
{
    match spec_sig(blob) {
        Ok(of) => type_wrong(subject, file, Handles::Refused, Position::Spec, &of, blob),
        Err(fault) => Some(fault_offset(fault)),
    }
}

/// Where a signature of locals is wrong (ECMA-335 II.23.2.6).
pub fn locals_blob_wrong(
    alloc: Global,
    subject: &Subject<'_, '_>,
    file: u16,
    blob: &[u8],
) -> Result<Option<u32>, NoMemory>
    requires subject { IsSubject subject.now }
    requires file { file < length subject.now.world.now }
    ensures { IfOk result (λ wrong. wrong ≡ wrong_at blob.now (whole_locals blob.now) in_locals (fits_at subject.now.world.now file (admits Handles.Refused))) }
{
    match locals_sig(alloc, blob) {
        Ok(types) => Ok(list_wrong(
            subject,
            file,
            Handles::Refused,
            Listed::Locals,
            types.as_slice(),
            blob,
        )),
        Err(SigFault::Bad { offset }) => Ok(Some(offset)),
        Err(SigFault::NoMemory) => Err(NoMemory),
    }
}

/// Where the first type of a method's signature that doesn't fit is told.
fn method_types_wrong(
    subject: &Subject<'_, '_>,
    file: u16,
    handles: Handles,
    of: &MethodSig,
    blob: &[u8],
) -> Option<u32>
    requires subject { IsSubject subject.now }
    requires file { file < length subject.now.world.now }
    requires few { length of.now.params < 2 ^ 32 }
    requires short { length blob.now < 2 ^ 32 }
    ensures { result ≡ first_wrong blob.now (fits_at subject.now.world.now file (admits handles)) (in_method of.now) }
{
    match type_wrong(
        subject,
        file,
        handles,
        Position::Returned,
        &of.returns,
        blob,
    ) {
        Some(offset) => Some(offset),
        None => list_wrong(
            subject,
            file,
            handles,
            Listed::Parameters,
            of.params.as_slice(),
            blob,
        ),
    }
}

/// Where the signature of a method is wrong (ECMA-335 II.23.2.1).
pub fn method_blob_wrong(
    alloc: Global,
    subject: &Subject<'_, '_>,
    file: u16,
    handles: Handles,
    blob: &[u8],
) -> Result<Option<u32>, NoMemory>
    requires subject { IsSubject subject.now }
    requires file { file < length subject.now.world.now }
    ensures { IfOk result (λ wrong. wrong ≡ wrong_at blob.now (whole_method blob.now) in_method (fits_at subject.now.world.now file (admits handles))) }
{
    match method_sig(alloc, blob) {
        Ok(of) => Ok(method_types_wrong(subject, file, handles, &of, blob)),
        Err(SigFault::Bad { offset }) => Ok(Some(offset)),
        Err(SigFault::NoMemory) => Err(NoMemory),
    }
}
