//! The phases of the verdict one after another.

ghost use Rattle.std.specs.Prelude.{◌≡◌, None, IfOk};
ghost use Rattle.member_search.specs.declared.sort.Sort.TheVariants.{Method};
ghost use Rattle.verdict_rules.specs.Order.{phase_fault};
ghost use Rattle.verdict_rules.specs.World.{world_of};
ghost use Rattle.verdict_rules.specs.Code.{code_rules};
ghost use Rattle.verdict_rules.specs.Verdict.{profile};
ghost use Rattle.profile_subject.specs.Subject.{IsSubject};
ghost use Rattle.judged_classes.specs.Judged.{IsJudged};
ghost use Rattle.cil_verify.specs.Seen.{PhasesTold};

use catch_tests::find_exception;
use class_order::order_of;
use member_search::MemberIndex;
use plain_types::fault::{Fault, NoMemory};
use profile_order::{profile_fault, read_judge};
use profile_subject::Subject;
use slot_tests::first_unfilled;
use std::alloc::Global;
use world_lattice::WorldLattice;

/// The first rule of 40 to 54 that a method of files breaks that keep the rules before.
fn code_fault(alloc: Global, subject: &Subject<'_, '_>) -> Result<Option<Fault>, NoMemory>
    requires subject { IsSubject subject.now }
    requires profile { profile subject.now.world.now ≡ None }
    ensures { let files = subject.now.world.now in IfOk result (λ fault. IsJudged files → fault ≡ phase_fault (code_rules (world_of files)) files) }
{
    let _base = subject.world.files();
    let table = subject.setting.table;
    let order = order_of(table);
    let lattice = WorldLattice::new(&order);
    code_order::first_fault(alloc, subject, &lattice, find_exception(table))
}

/// The first rule of 31 and 40 to 54 that files break that keep the rules before: slots in all files come before code.
fn later_fault<'a>(
    alloc: Global,
    subject: &Subject<'_, 'a>,
    methods: &MemberIndex<'_, 'a>,
) -> Result<Option<Fault>, NoMemory>
    requires subject { IsSubject subject.now }
    requires index { methods.now ≡ record { sort = Method; table = subject.now.setting.table.now } }
    requires profile { profile subject.now.world.now ≡ None }
    ensures { IfOk result (PhasesTold subject.now.world.now) }
{
    let _stand = subject.world.files();
    match first_unfilled(alloc, subject, methods)? {
        Some(fault) => Ok(Some(fault)),
        None => code_fault(alloc, subject),
    }
}

/// The first rule of 20 to 54 that a world's files break, by the phases: types in all files, members, slots, and code.
pub fn first_fault(alloc: Global, subject: &Subject<'_, '_>) -> Result<Option<Fault>, NoMemory>
    requires { IsSubject subject.now }
    ensures { IfOk result (PhasesTold subject.now.world.now) }
{
    let judge = read_judge(alloc, subject)?;
    match profile_fault(alloc, &judge)? {
        Some(fault) => Ok(Some(fault)),
        None => later_fault(alloc, subject, &judge.methods),
    }
}
