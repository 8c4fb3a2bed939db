//! The order in which the code of methods is looked at: files, and in each the rows of its methods.

ghost use Rattle.std.specs.Prelude.{◌≡◌, ◌<◌, IfOk, length};
ghost use Rattle.member_keys.specs.Seen.{class_seen};
ghost use Rattle.verdict_rules.specs.Order.{phase_fault};
ghost use Rattle.verdict_rules.specs.World.{world_of, exception_of};
ghost use Rattle.verdict_rules.specs.Code.{code_rules};
ghost use Rattle.profile_subject.specs.Subject.{IsSubject};
ghost use Rattle.judged_classes.specs.Judged.{IsJudged};
ghost use Rattle.code_order.specs.Told.{methods_in, file_told};
ghost use Rattle.code_order.specs.Judge.{IsCodeJudge};

use crate::judge::CodeJudge;
use crate::method::row_fault;
use file_tables::numbers::METHOD_DEF;
use member_keys::ClassId;
use plain_types::fault::{Fault, NoMemory};
use profile_subject::Subject;
use std::alloc::Global;
use world_lattice::WorldLattice;

/// How many methods a file has.
fn count_methods(subject: &Subject<'_, '_>, file: u16) -> u32
    requires { file < length subject.now.world.now }
    ensures { result ≡ methods_in subject.now.world.now file }
{
    let tables = subject.world.tables(file);
    tables.rows(METHOD_DEF)
}

/// What is told of a file: of its first method with code that breaks a rule.
fn file_fault(
    alloc: Global,
    judge: &CodeJudge<'_, '_, '_, '_, '_>,
    file: u16,
) -> Result<Option<Fault>, NoMemory>
    requires judge { IsCodeJudge judge.now }
    requires file { file < length judge.now.subject.now.world.now }
    ensures { IfOk result (λ fault. IsJudged judge.now.subject.now.world.now → fault ≡ file_told judge.now.subject.now.world.now file) }
{
    let count = count_methods(judge.subject, file);
    let world = judge.subject.world;
    let mut sections = world.pe(file).cursor();
    for n in 0..count {
        match row_fault(alloc, judge, &mut sections, file, n)? {
            Some(fault) => return Ok(Some(fault)),
            None => {}
        }
    }
    Ok(None)
}

/// The first rule of 40 to 54 that a method of a world's files breaks, by file and row, told at the method's row of table 6 and the
/// offset in its code: 40 where the body isn't sound (ECMA-335 II.25.4), 41 to 44 where its instructions and exception clauses break
/// them (II.19, III.1.7), and then the lowest of 45 to 54 at the first offset where the forward pass finds one broken (III.1.8). A
/// method without a signature or whose body isn't code is passed over. Asked of files that keep the rules before; `lattice` is the
/// order of the subject's types, `exception` is System.Exception. Want of memory is the only error.
pub fn first_fault(
    alloc: Global,
    subject: &Subject<'_, '_>,
    lattice: &WorldLattice<'_, '_>,
    exception: ClassId,
) -> Result<Option<Fault>, NoMemory>
    requires subject { IsSubject subject.now }
    requires lattice { lattice.now ≡ subject.now.setting.table.now }
    requires exception { class_seen exception ≡ exception_of (world_of subject.now.world.now) }
    ensures { let files = subject.now.world.now in IfOk result (λ fault. IsJudged files → fault ≡ phase_fault (code_rules (world_of files)) files) }
{
    let judge = CodeJudge {
        subject,
        lattice,
        exception,
    };
    for file in 0..subject.world.files() {
        match file_fault(alloc, &judge, file)? {
            Some(fault) => return Ok(Some(fault)),
            None => {}
        }
    }
    Ok(None)
}
