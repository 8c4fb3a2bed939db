//! The refusal of a row.

ghost use Rattle.std.specs.Prelude.{◌≡◌, [], ◌∷◌};
ghost use Rattle.verdict_rules.specs.Order.{first_fault, test_at};

use plain_types::fault::{Fault, Place};

/// The refusal at a place by a rule, unless the rule is kept.
pub fn unless_kept(is_kept: bool, rule: u8, place: Place) -> Option<Fault>
    ensures { result ≡ first_fault place.file place.table place.row (test_at rule place.offset is_kept ∷ []) }
{
    if is_kept {
        None
    } else {
        Some(Fault { rule, place })
    }
}
