//! What is told of one method.

ghost use Rattle.std.specs.Prelude.{◌≡◌, ℕ, suc, ◌+◌, ◌<◌, ◌^◌, false, Some, IfOk, length, slice_get};
ghost use Rattle.std.specs.Option.{option_map};
ghost use Rattle.file_tables.specs.File.{FilePart};
ghost use Rattle.world_rows.specs.Tokens.{methods};
ghost use Rattle.verdict_rules.specs.Order.{fault_of, test_at};
ghost use Rattle.judged_classes.specs.Judged.{IsJudged};
ghost use Rattle.code_order.specs.Told.{methods_in, row_told, BodyTold, CodeTold, PassTold};
ghost use Rattle.code_order.specs.Judge.{IsCodeJudge};

use crate::judge::CodeJudge;
use crate::rows::{has_code, method_body};
use cil_code::FAULTY_BODY;
use code_places::Listing;
use file_tables::numbers::METHOD_DEF;
use member_keys::ClassId;
use pe_reader::SectionCursor;
use plain_types::fault::{Fault, NoMemory, Place};
use std::alloc::Global;

/// The refusal of a method, which counts from 0, by a rule that is broken at an offset of its code.
fn refusal(file: u16, n: u32, rule: u8, offset: u32) -> Fault
    requires { n + 1 < 2 ^ 32 }
    ensures { result ≡ fault_of file methods (suc n) (test_at rule offset false) }
{
    Fault {
        rule,
        place: Place {
            file,
            table: METHOD_DEF,
            row: n + 1,
            offset,
        },
    }
}

/// What is told of the forward pass over a method's code.
fn pass_fault(
    alloc: Global,
    judge: &CodeJudge<'_, '_, '_, '_, '_>,
    file: u16,
    n: u32,
    listing: &Listing<'_>,
) -> Result<Option<Fault>, NoMemory>
    requires judge { IsCodeJudge judge.now }
    requires file { file < length judge.now.subject.now.world.now }
    requires few { n + 1 < 2 ^ 32 }
    ensures { IfOk result (PassTold judge.now.subject.now.world.now file n listing.now) }
{
    let broken = method_pass::first_broken(
        alloc,
        judge.subject,
        judge.lattice,
        judge.exception,
        file,
        n,
        listing,
    )?;
    match broken {
        Some(broken) => Ok(Some(refusal(file, n, broken.rule, broken.offset))),
        None => Ok(None),
    }
}

/// What is told of a method with a sound body: by its instructions and clauses, and then by the forward pass.
fn listing_fault(
    alloc: Global,
    judge: &CodeJudge<'_, '_, '_, '_, '_>,
    file: u16,
    n: u32,
    listing: &Listing<'_>,
) -> Result<Option<Fault>, NoMemory>
    requires judge { IsCodeJudge judge.now }
    requires file { file < length judge.now.subject.now.world.now }
    requires few { n + 1 < 2 ^ 32 }
    ensures { IfOk result (BodyTold judge.now.subject.now.world.now file n listing.now) }
{
    match catch_tests::first_broken(alloc, judge.subject, judge.exception, file, listing)? {
        Some(fault) => Ok(Some(refusal(file, n, fault.rule, fault.offset))),
        None => pass_fault(alloc, judge, file, n, listing),
    }
}

/// What is told of a method with code.
fn method_fault<'a>(
    alloc: Global,
    judge: &CodeJudge<'_, '_, '_, '_, '_>,
    sections: &mut SectionCursor<'a>,
    file: u16,
    n: u32,
) -> Result<Option<Fault>, NoMemory>
    requires judge { IsCodeJudge judge.now }
    requires file { file < length judge.now.subject.now.world.now }
    requires row { n < methods_in judge.now.subject.now.world.now file }
    requires few { n + 1 < 2 ^ 32 }
    requires sections { option_map (λ (x : FilePart). x.pe) (slice_get judge.now.subject.now.world.now file) ≡ Some sections.old }
    ensures told { IfOk result (CodeTold judge.now.subject.now.world.now file n) }
    ensures same { sections.new ≡ sections.old }
{
    let world = judge.subject.world;
    let tables = world.tables(file);
    match method_body(sections, tables, n) {
        Some(body) => {
            let listing = Listing::new(alloc, body)?;
            listing_fault(alloc, judge, file, n, &listing)
        }
        None => Ok(Some(refusal(file, n, FAULTY_BODY, 0))),
    }
}

/// What is told of a method, which counts from 0.
pub fn row_fault<'a>(
    alloc: Global,
    judge: &CodeJudge<'_, '_, '_, '_, '_>,
    sections: &mut SectionCursor<'a>,
    file: u16,
    n: u32,
) -> Result<Option<Fault>, NoMemory>
    requires judge { IsCodeJudge judge.now }
    requires file { file < length judge.now.subject.now.world.now }
    requires row { n < methods_in judge.now.subject.now.world.now file }
    requires few { n + 1 < 2 ^ 32 }
    requires sections { option_map (λ (x : FilePart). x.pe) (slice_get judge.now.subject.now.world.now file) ≡ Some sections.old }
    ensures told { IfOk result (λ fault. IsJudged judge.now.subject.now.world.now → fault ≡ row_told judge.now.subject.now.world.now file n) }
    ensures same { sections.new ≡ sections.old }
{
    let method = ClassId {
        file: u32::from(file),
        row: n,
    };
    let subject = judge.subject;
    if has_code(subject.setting.table, method) {
        method_fault(alloc, judge, sections, file, n)
    } else {
        Ok(None)
    }
}
