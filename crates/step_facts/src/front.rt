//! What falls into an instruction (ECMA-335 III.1.7.5).

ghost use Rattle.std.specs.Prelude.{◌≡◌, true, None, is_some, map, nat_eq};
ghost use Rattle.std.specs.List.{list_all, position};
ghost use Rattle.cil_code.specs.declared.clause.Clause.{Clause};
ghost use Rattle.cil_code.specs.Walk.{instructions_of, starts_of};
ghost use Rattle.classes.specs.Clauses.{is_proper};
ghost use Rattle.code_rules.specs.Verdict.{falls_in_well};
ghost use Rattle.code_places.specs.Among.{is_among};
ghost use Rattle.code_places.specs.Clauses.{clause_seen};
ghost use Rattle.pass_steps.specs.Listed.{in_front};
ghost use Rattle.step_facts.specs.Parts.{IsFront};

use code_places::{Listing, handler_at, may_go};

/// The nearest offset below another at which an instruction starts, found in as many steps as there are bytes between.
fn start_before(listing: &Listing<'_>, at: u32) -> Option<u32>
    ensures { IsFront listing.now.code at result }
{
    let mut k = at;
    'back: while k > 0 {
        k -= 1;
        if listing.is_start(k) {
            return Some(k);
        }
    }
    None
}

/// Whether a handler begins at an offset.
fn begins_handler(listing: &Listing<'_>, at: u32) -> bool
    ensures { result ≡ is_some (position (λ (c : Clause). nat_eq c.start at) listing.now.clauses) }
{
    handler_at(listing.clauses(), at).is_some()
}

/// Whether control may fall into the instruction at an offset from the one in front of it; the first one may stand where no handler
/// begins.
pub fn falls_well(listing: &Listing<'_>, at: u32) -> bool
    ensures { is_among (starts_of listing.now.code) at ≡ true → list_all is_proper (map clause_seen listing.now.clauses) ≡ true → result ≡ falls_in_well (map clause_seen listing.now.clauses) (in_front None (instructions_of listing.now.code) at) at }
{
    match start_before(listing, at) {
        Some(before) => may_go(listing.clauses(), before, at),
        None => !begins_handler(listing, 0),
    }
}
