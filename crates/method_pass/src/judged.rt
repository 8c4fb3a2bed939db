//! The pass over a method of judged files.

ghost use Rattle.std.specs.Prelude.{◌≡◌, ◌<◌, IfOk, List, None, Some, length, slice_get, true, ℕ};
ghost use Rattle.file_tables.specs.File.{FilePart};
ghost use Rattle.file_tables.specs.Metadata.{rows_of};
ghost use Rattle.machine.specs.Data.{ClassOf};
ghost use Rattle.machine.specs.Program.{Method};
ghost use Rattle.world_rows.specs.Tokens.{methods};
ghost use Rattle.member_keys.specs.Seen.{class_seen};
ghost use Rattle.code_rules.specs.Judgement.{lattice_of};
ghost use Rattle.code_rules.specs.Verdict.{passed};
ghost use Rattle.profile_subject.specs.Subject.{IsSubject};
ghost use Rattle.judged_classes.specs.Judged.{IsJudged};
ghost use Rattle.verdict_rules.specs.Code.{body_of, is_code, method_here};
ghost use Rattle.verdict_rules.specs.World.{exception_of, world_of};
ghost use Rattle.code_tests.specs.Tests.{code_meant, first_broken, tests_before};
ghost use Rattle.forward_pass.specs.Answer.{told};

use crate::code::pass_over;
use crate::law::judged_methods_are_known;
use code_places::Listing;
use forward_pass::Broken;
use member_keys::ClassId;
use plain_types::fault::NoMemory;
use profile_subject::Subject;
use std::alloc::Global;
use world_lattice::WorldLattice;

/// The first offset of a method's code at which a rule of 45 to 54 is broken, in bytes from the start of the code, and the lowest rule
/// there (ECMA-335 III.1.7.5, III.1.8).
///
/// The method is told by its file and its row among the file's methods, both from 0; `exception` is System.Exception. It is said of
/// methods whose code keeps rules 41 to 44, in files that keep the rules 20 to 31.
///
/// # Errors
///
/// [`NoMemory`] where the host has none left.
pub fn first_broken(
    alloc: Global,
    subject: &Subject<'_, '_>,
    lattice: &WorldLattice<'_, '_>,
    exception: ClassId,
    file: u16,
    row: u32,
    listing: &Listing<'_>,
) -> Result<Option<Broken>, NoMemory>
    requires subject { IsSubject subject.now }
    requires lattice { lattice.now ≡ subject.now.setting.table.now }
    requires exception { class_seen exception ≡ exception_of (world_of subject.now.world.now) }
    requires file { file < length subject.now.world.now }
    ensures { IfOk result (λ broken. (x : FilePart) (columns : List ℕ) (m : Method) → IsJudged subject.now.world.now → slice_get subject.now.world.now file ≡ Some x → slice_get (rows_of x.metadata methods) row ≡ Some columns → method_here (world_of subject.now.world.now) file x row ≡ Some m → is_code m.body ≡ true → body_of x columns ≡ Some listing.now → first_broken (tests_before (world_of subject.now.world.now) file x m listing.now) ≡ None → broken ≡ told (passed (world_of subject.now.world.now).sources (lattice_of (world_of subject.now.world.now).sources) (ClassOf (exception_of (world_of subject.now.world.now))) m (code_meant (world_of subject.now.world.now) file x listing.now))) }
{
    judged_methods_are_known();
    pass_over(alloc, subject.world, lattice, exception, file, row, listing)
}
