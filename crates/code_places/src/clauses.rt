//! What exception clauses say of offsets (ECMA-335 II.19, I.12.4.2, III.1.7.5).

ghost use Rattle.std.specs.Prelude.{◌≡◌, ◌&&◌, map, nat_eq, not};
ghost use Rattle.std.specs.List.{list_all, list_any, position};
ghost use Rattle.cil_code.specs.declared.clause.Clause.{Clause};
ghost use Rattle.classes.specs.Listed.{in_try, in_handler, is_catch_kind, is_finally_kind};
ghost use Rattle.classes.specs.Clauses as lie;
ghost use Rattle.code_places.specs.Clauses.{clause_seen, regions_of};

use cil_code::Clause;
use clause_regions::{Region, Regions, is_within};

/// The regions of a clause.
fn regions(clause: &Clause) -> Regions
    ensures { result ≡ regions_of clause.now }
{
    Regions {
        attempt: Region {
            from: clause.try_start,
            to: clause.try_end,
        },
        handler: Region {
            from: clause.start,
            to: clause.end,
        },
    }
}

/// No region of a clause is empty, and its try and its handler don't overlap.
pub fn is_proper(clause: &Clause) -> bool
    ensures { result ≡ lie.is_proper (clause_seen clause.now) }
{
    clause_regions::is_proper(regions(clause))
}

/// Whether a clause lies well against one behind it (ECMA-335 II.19).
pub fn lies_well(before: &Clause, clause: &Clause) -> bool
    ensures { result ≡ lie.lies_well (clause_seen before.now) (clause_seen clause.now) }
{
    clause_regions::lies_well(regions(before), regions(clause))
}

/// Whether each of the clauses lies well against one behind them.
pub fn lies_behind(before: &[Clause], clause: &Clause) -> bool
    ensures { result ≡ list_all (λ b. lie.lies_well b (clause_seen clause.now)) (map clause_seen before.now) }
{
    for other in before {
        if !lies_well(other, clause) {
            return false;
        }
    }
    true
}

/// Whether a place is in the try of a clause.
fn in_try(clause: &Clause, at: u32) -> bool
    ensures { result ≡ in_try (clause_seen clause.now) at }
{
    is_within(regions(clause).attempt, at)
}

/// Whether a place is in the handler of a clause.
fn in_handler(clause: &Clause, at: u32) -> bool
    ensures { result ≡ in_handler (clause_seen clause.now) at }
{
    is_within(regions(clause).handler, at)
}

/// The clause is a catch.
fn is_catch(clause: &Clause) -> bool
    ensures { result ≡ is_catch_kind (clause_seen clause.now).kind }
{
    clause.kind == 0
}

/// The clause is a finally.
fn is_finally(clause: &Clause) -> bool
    ensures { result ≡ is_finally_kind (clause_seen clause.now).kind }
{
    clause.kind == 2
}

/// Whether a place is in the handler of a clause that is a catch.
fn in_catch(clause: &Clause, at: u32) -> bool
    ensures { result ≡ (is_catch_kind (clause_seen clause.now).kind && in_handler (clause_seen clause.now) at) }
{
    is_catch(clause) && in_handler(clause, at)
}

/// Whether a place is in the handler of a clause that is a finally.
fn in_finally(clause: &Clause, at: u32) -> bool
    ensures { result ≡ (is_finally_kind (clause_seen clause.now).kind && in_handler (clause_seen clause.now) at) }
{
    is_finally(clause) && in_handler(clause, at)
}

/// Whether a place is neither in the try nor in the handler of a clause.
fn in_neither(clause: &Clause, at: u32) -> bool
    ensures { result ≡ (not (in_try (clause_seen clause.now) at) && not (in_handler (clause_seen clause.now) at)) }
{
    !in_try(clause, at) && !in_handler(clause, at)
}

/// Whether control that goes from one place to another may, by one region: whether it is there, whether it comes there, and whether
/// that is where the region begins.
fn is_kept(is_there: bool, comes_there: bool, begins: bool) -> bool
    ensures { result ≡ lie.is_kept is_there comes_there begins }
{
    if is_there {
        comes_there
    } else {
        !comes_there || begins
    }
}

/// The same for a `leave`: what isn't the handler of a finally may be left.
fn is_kept_or_left(is_final: bool, is_there: bool, comes_there: bool, begins: bool) -> bool
    ensures { result ≡ lie.is_kept_or_left is_final is_there comes_there begins }
{
    if is_there {
        comes_there || !is_final
    } else {
        !comes_there || begins
    }
}

/// Whether control may go from one place to another by a clause.
fn clause_keeps(clause: &Clause, from: u32, to: u32) -> bool
    ensures { result ≡ lie.clause_keeps from to (clause_seen clause.now) }
{
    let tries = is_kept(
        in_try(clause, from),
        in_try(clause, to),
        clause.try_start == to,
    );
    let handles = is_kept(in_handler(clause, from), in_handler(clause, to), false);
    tries && handles
}

/// Whether control may leave one place for another by a clause.
fn clause_lets(clause: &Clause, from: u32, to: u32) -> bool
    ensures { result ≡ lie.clause_lets from to (clause_seen clause.now) }
{
    let begins = clause.try_start == to;
    let tries = is_kept_or_left(false, in_try(clause, from), in_try(clause, to), begins);
    let handles = is_kept_or_left(
        is_finally(clause),
        in_handler(clause, from),
        in_handler(clause, to),
        false,
    );
    tries && handles
}

/// Whether a branch, a switch or falling through may go from one offset to another (ECMA-335 III.1.7.5): no region is left,
/// and none entered but a try at its start.
pub fn may_go(clauses: &[Clause], from: u32, to: u32) -> bool
    ensures { result ≡ lie.may_go (map clause_seen clauses.now) from to }
{
    for clause in clauses {
        if !clause_keeps(clause, from, to) {
            return false;
        }
    }
    true
}

/// Whether each clause lets control leave one offset for another.
fn all_let(clauses: &[Clause], from: u32, to: u32) -> bool
    ensures { result ≡ list_all (lie.clause_lets from to) (map clause_seen clauses.now) }
{
    for clause in clauses {
        if !clause_lets(clause, from, to) {
            return false;
        }
    }
    true
}

/// Whether an offset is in the handler of a catch.
pub fn stands_in_catch(clauses: &[Clause], at: u32) -> bool
    ensures { result ≡ lie.stands_in_catch (map clause_seen clauses.now) at }
{
    for clause in clauses {
        if in_catch(clause, at) {
            return true;
        }
    }
    false
}

/// Whether an offset is in the handler of a finally.
pub fn stands_in_finally(clauses: &[Clause], at: u32) -> bool
    ensures { result ≡ lie.stands_in_finally (map clause_seen clauses.now) at }
{
    for clause in clauses {
        if in_finally(clause, at) {
            return true;
        }
    }
    false
}

/// Whether an offset is in a try.
fn stands_in_try(clauses: &[Clause], at: u32) -> bool
    ensures { result ≡ lie.stands_in_try (map clause_seen clauses.now) at }
{
    for clause in clauses {
        if in_try(clause, at) {
            return true;
        }
    }
    false
}

/// Whether an offset is in no try and in no handler.
pub fn stands_in_none(clauses: &[Clause], at: u32) -> bool
    ensures { result ≡ lie.stands_in_none (map clause_seen clauses.now) at }
{
    for clause in clauses {
        if !in_neither(clause, at) {
            return false;
        }
    }
    true
}

/// Whether a `leave` may go from one offset to another (ECMA-335 III.3.46): out of a try or of a catch, and not out of a finally.
pub fn may_leave(clauses: &[Clause], from: u32, to: u32) -> bool
    ensures { result ≡ lie.may_leave (map clause_seen clauses.now) from to }
{
    (stands_in_try(clauses, from) || stands_in_catch(clauses, from)) && all_let(clauses, from, to)
}

/// Whether a try begins at an offset.
pub fn begins_try(clauses: &[Clause], at: u32) -> bool
    ensures { result ≡ list_any (λ (c : Clause). nat_eq c.try_start at) clauses.now }
{
    for clause in clauses {
        if clause.try_start == at {
            return true;
        }
    }
    false
}

/// The number of the first clause whose handler begins at an offset, counted from 0.
pub fn handler_at(clauses: &[Clause], at: u32) -> Option<usize>
    ensures { result ≡ position (λ (c : Clause). nat_eq c.start at) clauses.now }
{
    clauses.iter().position(|clause| clause.start == at)
}
