//! The first class whose slots lack a body.

ghost use Rattle.std.specs.Prelude.{◌≡◌, ◌<◌, ◌+◌, ◌^◌, None, IfOk, length};
ghost use Rattle.member_search.specs.declared.sort.Sort.TheVariants.{Method};
ghost use Rattle.verdict_rules.specs.Order.{phase_fault};
ghost use Rattle.verdict_rules.specs.World.{world_of};
ghost use Rattle.verdict_rules.specs.Code.{slot_rules};
ghost use Rattle.verdict_rules.specs.Verdict.{profile};
ghost use Rattle.profile_subject.specs.Subject.{IsSubject};
ghost use Rattle.slot_tests.specs.Told.{types_in, row_told, file_told, IsIndexOf};

use crate::added::{all_add, count_types};
use class_queries::find_class;
use class_slots::slots_filled;
use file_tables::numbers::TYPE_DEF;
use member_keys::ClassId;
use member_search::MemberIndex;
use plain_types::fault::{Fault, NoMemory, Place};
use profile_subject::Subject;
use std::alloc::Global;
use type_tests::unless_kept;

/// What is told of a type, which counts from 0.
fn row_fault<'a>(
    alloc: Global,
    subject: &Subject<'_, 'a>,
    methods: &MemberIndex<'_, 'a>,
    file: u16,
    n: u32,
) -> Result<Option<Fault>, NoMemory>
    requires subject { IsSubject subject.now }
    requires methods { IsIndexOf subject.now methods.now }
    requires file { file < length subject.now.world.now }
    requires row { n < types_in subject.now.world.now file }
    requires few { n + 1 < 2 ^ 32 }
    ensures { IfOk result (λ fault. fault ≡ row_told subject.now.world.now file n) }
{
    let class = ClassId {
        file: u32::from(file),
        row: n,
    };
    match find_class(subject.setting.table, class) {
        Some(row) => {
            let is_filled = slots_filled(alloc, methods, class, row)?;
            let place = Place {
                file,
                table: TYPE_DEF,
                row: n + 1,
                offset: 0,
            };
            Ok(unless_kept(is_filled, 31, place))
        }
        None => Ok(None),
    }
}

/// What is told of a file: of its first type whose slots lack a body.
fn file_fault<'a>(
    alloc: Global,
    subject: &Subject<'_, 'a>,
    methods: &MemberIndex<'_, 'a>,
    file: u16,
) -> Result<Option<Fault>, NoMemory>
    requires subject { IsSubject subject.now }
    requires methods { IsIndexOf subject.now methods.now }
    requires file { file < length subject.now.world.now }
    ensures { IfOk result (λ fault. fault ≡ file_told subject.now.world.now file) }
{
    let count = count_types(subject, file);
    for n in 0..count {
        match row_fault(alloc, subject, methods, file, n)? {
            Some(fault) => return Ok(Some(fault)),
            None => {}
        }
    }
    Ok(None)
}

/// What is told of a world: of the first type, by file and row, whose slots lack a body.
fn world_fault<'a>(
    alloc: Global,
    subject: &Subject<'_, 'a>,
    methods: &MemberIndex<'_, 'a>,
) -> Result<Option<Fault>, NoMemory>
    requires subject { IsSubject subject.now }
    requires methods { IsIndexOf subject.now methods.now }
    ensures { IfOk result (λ fault. fault ≡ phase_fault (slot_rules (world_of subject.now.world.now)) subject.now.world.now) }
{
    for file in 0..subject.world.files() {
        match file_fault(alloc, subject, methods, file)? {
            Some(fault) => return Ok(Some(fault)),
            None => {}
        }
    }
    Ok(None)
}

/// The first class, by file and row, that is neither an interface nor abstract and on whose objects an abstract method or one
/// of an interface finds no body: rule 31 (ECMA-335 II.12.2), asked of files that keep the rules 20 to 30. Where there is
/// none, in the time of what each class adds to the nearest class above it of which objects are made: its own methods, those of
/// its own interfaces and of what these implement, and the same of abstract classes between, with a search up the superclasses
/// for each of these methods, as far as to its class, or of an interface's method to the class that has the body. So classes
/// below many abstract ones that stand one above the other take the time of all these, each of them. Where there is one, the
/// classes in front of it take the time of all that they reach, with a search up their superclasses for each method.
pub fn first_unfilled<'a>(
    alloc: Global,
    subject: &Subject<'_, 'a>,
    methods: &MemberIndex<'_, 'a>,
) -> Result<Option<Fault>, NoMemory>
    requires subject { IsSubject subject.now }
    requires index { methods.now ≡ record { sort = Method; table = subject.now.setting.table.now } }
    requires profile { profile subject.now.world.now ≡ None }
    ensures { IfOk result (λ fault. fault ≡ phase_fault (slot_rules (world_of subject.now.world.now)) subject.now.world.now) }
{
    let _stand = subject.world.files();
    let all = all_add(alloc, subject, methods)?;
    if all {
        Ok(None)
    } else {
        world_fault(alloc, subject, methods)
    }
}
