//! One image of a set, and what its tokens of types name.

ghost use Rattle.std.specs.Prelude.{◌≡◌};
ghost use Rattle.std.specs.Option.{option_map};
ghost use Rattle.machine.specs.Throw.{on_some};
ghost use Rattle.member_keys.specs.Seen.{class_seen};
ghost use Rattle.tiny_members.specs.Rows.{token_seen};
ghost use Rattle.set_table.specs.Subject.{IsSubject, class_in};

use member_keys::ClassId;
use msspot_read::Image;
use set_names::Names;
use set_signatures::{Tokens, class_of};
use tiny_members::TypeToken;

/// One image of a set, with what its references to types name.
#[derive(Drop)]
pub struct Subject<'s, 'w, 'a> {
    pub names: &'s Names<'w, 'a>,
    pub image: &'w Image<'a>,
    pub tokens: Tokens<'s>,
}

/// The class that a token of the image names (ECMA-335 II.22.37, II.22.38); `None` where there is none, and for a type
/// specification.
#[tactic(auto, using(crate::proofs::SubjectLaws::class_is))]
pub fn find_named(subject: &Subject<'_, '_, '_>, token: TypeToken) -> Option<ClassId>
    requires { IsSubject subject.now }
    ensures { option_map class_seen result ≡ class_in subject.now (token_seen token) }
{
    class_of(&subject.tokens, token.0)
}

/// The class that a type extends; `None` where it extends none, or none that is there.
pub fn find_superclass(subject: &Subject<'_, '_, '_>, extends: Option<TypeToken>) -> Option<ClassId>
    requires { IsSubject subject.now }
    ensures { option_map class_seen result ≡ on_some (option_map token_seen extends) (class_in subject.now) }
{
    match extends {
        Some(token) => find_named(subject, token),
        None => None,
    }
}
