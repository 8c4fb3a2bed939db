//! The types of a signature from left to right, with their places.

ghost use Rattle.std.specs.Prelude.{◌≡◌, ◌<◌, ◌^◌, [], ◌∷◌, length, unwrap_or};
ghost use Rattle.cil_sig.specs.Places.{place_of};
ghost use Rattle.verdict_rules.specs.Members.{spelling, first_wrong};
ghost use Rattle.profile_subject.specs.Subject.{IsSubject};
ghost use Rattle.signature_tests.specs.Fits.{admits, fits_at};
ghost use Rattle.signature_tests.specs.Lists.{position_in, in_list};

use crate::fits::{Handles, fits};
use cil_sig::{Position, SigType, element_place};
use profile_subject::Subject;

/// What stands behind a count.
#[derive(Clone, Copy)]
pub enum Listed {
    Parameters,
    Locals,
}

/// The position of a type behind a count, from 0.
fn position_in(listed: Listed, k: u32) -> Position
    ensures { result ≡ position_in listed k }
{
    match listed {
        Listed::Parameters => Position::Parameter(k),
        Listed::Locals => Position::Local(k),
    }
}

/// The offset at which a type that doesn't fit is told.
pub fn place(position: Position, blob: &[u8]) -> u32
    requires { length blob.now < 2 ^ 32 }
    ensures { result ≡ unwrap_or (place_of position blob.now) 0 }
{
    match element_place(position, blob) {
        Some(place) => place as u32,
        None => 0,
    }
}

/// Where a type of a signature is told; `None` where it fits.
pub fn type_wrong(
    subject: &Subject<'_, '_>,
    file: u16,
    handles: Handles,
    position: Position,
    of: &SigType,
    blob: &[u8],
) -> Option<u32>
    requires subject { IsSubject subject.now }
    requires file { file < length subject.now.world.now }
    requires short { length blob.now < 2 ^ 32 }
    ensures { result ≡ first_wrong blob.now (fits_at subject.now.world.now file (admits handles)) (spelling position of.now ∷ []) }
{
    if fits(subject, file, handles, position, of) {
        None
    } else {
        Some(place(position, blob))
    }
}

/// Where the first type behind a count that doesn't fit is told; `None` where each fits.
pub fn list_wrong(
    subject: &Subject<'_, '_>,
    file: u16,
    handles: Handles,
    listed: Listed,
    types: &[SigType],
    blob: &[u8],
) -> Option<u32>
    requires subject { IsSubject subject.now }
    requires file { file < length subject.now.world.now }
    requires few { length types.now < 2 ^ 32 }
    requires short { length blob.now < 2 ^ 32 }
    ensures { result ≡ first_wrong blob.now (fits_at subject.now.world.now file (admits handles)) (in_list listed 0 types.now) }
{
    for (k, of) in types.iter().enumerate() {
        let position = position_in(listed, k as u32);
        if let Some(offset) = type_wrong(subject, file, handles, position, of, blob) {
            return Some(offset);
        }
    }
    None
}
