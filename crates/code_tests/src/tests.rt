//! Rules 41 to 44 in their order.

ghost use Rattle.std.specs.Prelude.{◌≡◌, ℕ, map};
ghost use Rattle.std.specs.Option.{option_map};
ghost use Rattle.file_tables.specs.File.{FilePart};
ghost use Rattle.machine.specs.Program.{Method};
ghost use Rattle.verdict_rules.specs.World.{World};
ghost use Rattle.code_tests.specs.Tests.{first_broken, handles_well, test_of, tests_before};

use crate::clauses::clause_wrong;
use cil_code::{CodeFault, first_fault};
use code_places::Listing;

/// The rule that an instruction breaks which goes where none starts.
const ASTRAY: u8 = 43;
/// The rule that an exception clause breaks.
const CLAUSE: u8 = 44;

/// The first of rules 41 to 44 that the code of a method of a file breaks: 41 and 42 where the walk over the instructions meets them, then
/// 43 at the first instruction that goes where none starts (ECMA-335 III.1.7.5), then 44 at the try of the first exception clause that takes
/// no class of exceptions, or lies ill against itself or those before it (II.19, I.12.4.2). Whether each clause is a finally or a catch that
/// may take its class is told by `handled`, in their order.
pub fn first_broken(listing: &Listing<'_>, handled: &[bool]) -> Option<CodeFault>
    ensures { (w : World) (file : ℕ) (x : FilePart) (m : Method) → handled.now ≡ map (handles_well w file x) listing.now.clauses → option_map test_of result ≡ first_broken (tests_before w file x m listing.now) }
{
    let _few = listing.body().code_size();
    if let Some(fault) = first_fault(listing.body().code()) {
        return Some(fault);
    }
    if let Some(offset) = listing.first_astray() {
        return Some(CodeFault {
            rule: ASTRAY,
            offset,
        });
    }
    let offset = clause_wrong(handled, listing)?;
    Some(CodeFault {
        rule: CLAUSE,
        offset,
    })
}
