//! Whether an instruction may go where it goes (ECMA-335 III.1.7.5, III.3.46).

ghost use Rattle.std.specs.Prelude.{◌≡◌, true, Ok, map};
ghost use Rattle.std.specs.List.{list_all};
ghost use Rattle.cil_code.specs.Instructions.{instruction_at};
ghost use Rattle.code_places.specs.Places.{goes_well, targets_at};
ghost use Rattle.code_places.specs.Clauses.{clause_seen};
ghost use Rattle.pass_steps.specs.Listed.{shape_stands};
ghost use Rattle.step_facts.specs.Parts.{lets};

use crate::place::target_of;
use cil_code::{Clause, Instr};
use cil_opcodes::shape::Shape;
use code_places::{
    Listing, may_go, may_leave, stands_in_catch, stands_in_finally, stands_in_none, target_count,
};

/// Whether control may go from one offset to another, by a `leave` or by a branch.
fn lets(clauses: &[Clause], leaves: bool, from: u32, to: u32) -> bool
    ensures { result ≡ lets (map clause_seen clauses.now) leaves from to }
{
    if leaves {
        may_leave(clauses, from, to)
    } else {
        may_go(clauses, from, to)
    }
}

/// Whether control may go to each target of the instruction at an offset.
fn all_let(listing: &Listing<'_>, at: u32, instr: &Instr, leaves: bool) -> bool
    requires { instruction_at listing.now.code at ≡ Ok instr.now }
    ensures { goes_well listing.now.code (record { at = at; instr = instr.now }) ≡ true → result ≡ list_all (lets (map clause_seen listing.now.clauses) leaves at) (targets_at listing.now.code (record { at = at; instr = instr.now })) }
{
    for k in 0..target_count(instr) {
        if !lets(
            listing.clauses(),
            leaves,
            at,
            target_of(listing, at, instr, k),
        ) {
            return false;
        }
    }
    true
}

/// Whether the instruction at an offset keeps rule 45 by itself: a return stands outside of every region, the end of a handler and a
/// rethrow inside the handlers that they are of, and no other transfer leaves or enters a region where it may not. It is said of an
/// instruction that goes where instructions start.
pub fn stands(listing: &Listing<'_>, at: u32, instr: &Instr, shape: Shape) -> bool
    requires { instruction_at listing.now.code at ≡ Ok instr.now }
    ensures { goes_well listing.now.code (record { at = at; instr = instr.now }) ≡ true → result ≡ shape_stands (map clause_seen listing.now.clauses) at shape (targets_at listing.now.code (record { at = at; instr = instr.now })) }
{
    match shape {
        Shape::Return => stands_in_none(listing.clauses(), at),
        Shape::EndFinally => stands_in_finally(listing.clauses(), at),
        Shape::Rethrow => stands_in_catch(listing.clauses(), at),
        Shape::Leave => all_let(listing, at, instr, true),
        _ => all_let(listing, at, instr, false),
    }
}
