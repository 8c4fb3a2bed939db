//! Whether a type may stand where it does in a signature (ECMA-335 II.23.2.10 to II.23.2.13).

ghost use Rattle.std.specs.Prelude.{◌≡◌, ◌<◌, length};
ghost use Rattle.world_rows.specs.Signatures as signatures;
ghost use Rattle.member_keys.specs.Seen.{type_seen};
ghost use Rattle.member_reading.specs.Meant.{type_meant};
ghost use Rattle.class_rules.specs.Rules.{holds_some};
ghost use Rattle.verdict_rules.specs.Members.{spelling};
ghost use Rattle.profile_subject.specs.Subject.{IsSubject};
ghost use Rattle.signature_tests.specs.Fits.{admits, admits_type, fits_at};

use cil_sig::{Position, SigType};
use class_checks::{is_handle, sig_fits};
use member_keys::TypeKey;
use member_reading::read_type;
use plain_types::elem::Elem;
use profile_subject::Subject;

/// Whether parameters may be a System.RuntimeFieldHandle.
#[derive(Clone, Copy)]
pub enum Handles {
    Admitted,
    Refused,
}

/// Handles are admitted.
fn admits(handles: Handles) -> bool
    ensures { result ≡ admits handles }
{
    matches!(handles, Handles::Admitted)
}

/// Whether a type that is found may stand in a signature.
fn admits_type(subject: &Subject<'_, '_>, handles: Handles, of: TypeKey) -> bool
    requires { IsSubject subject.now }
    ensures { result ≡ admits_type subject.now.world.now (admits handles) (type_seen of) }
{
    sig_fits(subject.setting.table, of) || (admits(handles) && is_handle(&subject.setting, of))
}

/// Whether a type is found and may stand in a signature.
fn is_admitted(subject: &Subject<'_, '_>, file: u16, handles: Handles, of: &SigType) -> bool
    requires subject { IsSubject subject.now }
    requires file { file < length subject.now.world.now }
    ensures { result ≡ holds_some (type_meant subject.now.world.now file of.now) (admits_type subject.now.world.now (admits handles)) }
{
    match read_type(subject.world.names(), file, of) {
        Some(of) => admits_type(subject, handles, of),
        None => false,
    }
}

/// A method gives nothing.
fn is_void(elem: Elem) -> bool
    ensures { result ≡ signatures.is_void elem }
{
    matches!(elem, Elem::Void)
}

/// Whether a type may stand at a position of a signature of a file: a result may be void, a parameter a handle where those are admitted.
#[tactic(auto, using(crate::proofs::FitLaws::result_is, crate::proofs::FitLaws::parameter_is, crate::proofs::FitLaws::field_is, crate::proofs::FitLaws::spec_is, crate::proofs::FitLaws::local_is))]
pub fn fits(
    subject: &Subject<'_, '_>,
    file: u16,
    handles: Handles,
    position: Position,
    of: &SigType,
) -> bool
    requires subject { IsSubject subject.now }
    requires file { file < length subject.now.world.now }
    ensures { result ≡ fits_at subject.now.world.now file (admits handles) (spelling position of.now) }
{
    match position {
        Position::Returned => {
            is_void(of.elem) || is_admitted(subject, file, Handles::Refused, of)
        }
        Position::Parameter(_) => is_admitted(subject, file, handles, of),
        Position::Field | Position::Spec | Position::Local(_) => {
            is_admitted(subject, file, Handles::Refused, of)
        }
    }
}
