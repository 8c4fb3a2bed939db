//! Rules 41 to 44 in their order.

ghost use Rattle.std.specs.Prelude.{◌≡◌, ◌<◌, IfOk, Some, length, slice_get};
ghost use Rattle.std.specs.Option.{option_map};
ghost use Rattle.file_tables.specs.File.{FilePart};
ghost use Rattle.machine.specs.Program.{Method};
ghost use Rattle.member_keys.specs.Seen.{class_seen};
ghost use Rattle.verdict_rules.specs.World.{world_of, exception_of};
ghost use Rattle.profile_subject.specs.Subject.{IsSubject};
ghost use Rattle.code_tests.specs.Tests.{first_broken, test_of, tests_before};

use crate::catches::read_handled;
use cil_code::CodeFault;
use code_places::Listing;
use member_keys::ClassId;
use plain_types::fault::NoMemory;
use profile_subject::Subject;
use std::alloc::Global;

/// The first of rules 41 to 44 that the code of a method of a file breaks: 41 and 42 where the walk over the instructions meets them, then
/// 43 at the first instruction that goes where none starts (ECMA-335 III.1.7.5), then 44 at the try of the first exception clause that is
/// neither a finally nor a catch of System.Object or of System.Exception or a class below it, or that lies ill against itself or those
/// before it (II.19, I.12.4.2). `exception` is System.Exception.
pub fn first_broken(
    alloc: Global,
    subject: &Subject<'_, '_>,
    exception: ClassId,
    file: u16,
    listing: &Listing<'_>,
) -> Result<Option<CodeFault>, NoMemory>
    requires subject { IsSubject subject.now }
    requires exception { class_seen exception ≡ exception_of (world_of subject.now.world.now) }
    requires file { file < length subject.now.world.now }
    ensures { IfOk result (λ broken. (x : FilePart) (m : Method) → slice_get subject.now.world.now file ≡ Some x → option_map test_of broken ≡ first_broken (tests_before (world_of subject.now.world.now) file x m listing.now)) }
{
    let handled = read_handled(alloc, subject, exception, file, listing.clauses())?;
    Ok(code_tests::first_broken(listing, &handled))
}
