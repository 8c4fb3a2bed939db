//! Rule 44, clause by clause in the order of the sections (ECMA-335 II.25.4.6).

ghost use Rattle.std.specs.Prelude.{◌≡◌, ◌<◌, Some, false, length, slice_get, slice_index_or};
ghost use Rattle.code_tests.specs.Tests.{clause_keeps, first_wrong};

use cil_code::Clause;
use code_places::Listing;

/// Whether a clause of a number, counted from 0, keeps rule 44: what it takes, and how it lies.
fn clause_keeps(handled: &[bool], listing: &Listing<'_>, n: usize, clause: &Clause) -> bool
    requires { slice_get listing.now.clauses n ≡ Some clause.now }
    ensures { result ≡ clause_keeps handled.now listing.now n clause.now }
{
    n < handled.len() && handled[n] && listing.clause_stands(n)
}

/// Where the try of the first clause begins that breaks rule 44.
pub fn clause_wrong(handled: &[bool], listing: &Listing<'_>) -> Option<u32>
    ensures { result ≡ first_wrong (clause_keeps handled.now listing.now) 0 listing.now.clauses }
{
    let clauses = listing.clauses();
    for n in 0..clauses.len() {
        let clause = &clauses[n];
        if !clause_keeps(handled, listing, n, clause) {
            return Some(clause.try_start);
        }
    }
    None
}
