//! What is told of one row.

ghost use Rattle.std.specs.Prelude.{◌≡◌, ℕ, suc, ◌+◌, ◌<◌, ◌^◌, false, List, [], ◌∷◌, Some, None, IfOk, length, slice_get, slice_index, unwrap_or, if◌then◌else◌};
ghost use Rattle.file_tables.specs.File.{FilePart};
ghost use Rattle.world_rows.specs.Tokens.{member_refs, type_specs, bytes_at};
ghost use Rattle.verdict_rules.specs.Order.{first_fault, test, unless_at};
ghost use Rattle.verdict_rules.specs.World.{World, world_of};
ghost use Rattle.verdict_rules.specs.Types.{refused};
ghost use Rattle.verdict_rules.specs.Members.{reference_wrong, spec_wrong};
ghost use Rattle.signature_tests.specs.Rows.{TellsRow};
ghost use Rattle.profile_order.specs.Tables.{number_of, tests_of};
ghost use Rattle.profile_order.specs.Told.{row_told, IsRow};
ghost use Rattle.profile_order.specs.Judge.{IsJudge};

use crate::judge::{Judge, columns};
use crate::tables::ProfileTable;
use member_tests::{field_apart, field_well, method_apart, method_well};
use plain_types::fault::{Fault, NoMemory, Place};
use signature_tests::{field_wrong, locals_wrong, method_wrong, reference_wrong, spec_wrong};
use std::alloc::Global;
use type_tests::{assembly_fault, interface_fault, type_fault};

/// The place of a row, which counts from 0.
fn place_of(file: u16, table: ProfileTable, n: u32) -> Place
    requires { n + 1 < 2 ^ 32 }
    ensures { result ≡ record { file = file; table = number_of table; row = suc n; offset = 0 } }
{
    Place {
        file,
        table: table.number(),
        row: n + 1,
        offset: 0,
    }
}

/// The refusal of a row that has to be missing.
fn refuse(place: Place, rule: u8) -> Option<Fault>
    requires { place.offset ≡ 0 }
    ensures { result ≡ first_fault place.file place.table place.row (test rule false ∷ []) }
{
    Some(Fault { rule, place })
}

/// The refusal of a signature, told where it is wrong.
fn refuse_signature(place: Place, wrong: Option<u32>) -> Option<Fault>
    ensures { result ≡ first_fault place.file place.table place.row (unless_at 27 wrong ∷ []) }
{
    let offset = wrong?;
    Some(Fault {
        rule: 27,
        place: Place { offset, ..place },
    })
}

/// The refusal of a member: by its signature, by the rule of its kind, or since an earlier one has its name.
fn refuse_member(
    place: Place,
    wrong: Option<u32>,
    rule: u8,
    is_well: bool,
    is_apart: bool,
) -> Option<Fault>
    requires { place.offset ≡ 0 }
    ensures { result ≡ first_fault place.file place.table place.row (unless_at 27 wrong ∷ test rule is_well ∷ test 30 is_apart ∷ []) }
{
    if let Some(offset) = wrong {
        return Some(Fault {
            rule: 27,
            place: Place { offset, ..place },
        });
    }
    if !is_well {
        return Some(Fault { rule, place });
    }
    if !is_apart {
        return Some(Fault { rule: 30, place });
    }
    None
}

/// What is told of a type.
fn type_row(judge: &Judge<'_, '_, '_>, file: u16, n: u32) -> Result<Option<Fault>, NoMemory>
    requires judge { IsJudge judge.now }
    requires row { IsRow judge.now.subject.now.world.now file ProfileTable.TypeDefs n }
    ensures { IfOk result (λ fault. fault ≡ row_told judge.now.subject.now.world.now file ProfileTable.TypeDefs n) }
{
    let columns = columns(judge, file);
    Ok(type_fault(judge.subject, &columns.types, file, n))
}

/// What is told of an interface that a type names.
fn interface_row(judge: &Judge<'_, '_, '_>, file: u16, n: u32) -> Result<Option<Fault>, NoMemory>
    requires judge { IsJudge judge.now }
    requires row { IsRow judge.now.subject.now.world.now file ProfileTable.InterfaceImpls n }
    ensures { IfOk result (λ fault. fault ≡ row_told judge.now.subject.now.world.now file ProfileTable.InterfaceImpls n) }
{
    Ok(interface_fault(judge.subject, file, n))
}

/// What is told of an assembly.
fn assembly_row(judge: &Judge<'_, '_, '_>, file: u16, n: u32) -> Result<Option<Fault>, NoMemory>
    requires judge { IsJudge judge.now }
    requires row { IsRow judge.now.subject.now.world.now file ProfileTable.Assemblies n }
    ensures { IfOk result (λ fault. fault ≡ row_told judge.now.subject.now.world.now file ProfileTable.Assemblies n) }
{
    Ok(assembly_fault(judge.subject, &judge.names, file, n))
}

/// What is told of a field.
fn field_row(
    alloc: Global,
    judge: &Judge<'_, '_, '_>,
    file: u16,
    n: u32,
) -> Result<Option<Fault>, NoMemory>
    requires judge { IsJudge judge.now }
    requires row { IsRow judge.now.subject.now.world.now file ProfileTable.Fields n }
    ensures { IfOk result (λ fault. fault ≡ row_told judge.now.subject.now.world.now file ProfileTable.Fields n) }
{
    let wrong = field_wrong(judge.subject, file, n);
    let is_well = field_well(judge.subject, file, n);
    let is_apart = field_apart(alloc, judge.subject, &judge.fields, file, n);
    let place = place_of(file, ProfileTable::Fields, n);
    Ok(refuse_member(place, wrong, 28, is_well, is_apart))
}

/// What is told of a method.
fn method_row(
    alloc: Global,
    judge: &Judge<'_, '_, '_>,
    file: u16,
    n: u32,
) -> Result<Option<Fault>, NoMemory>
    requires judge { IsJudge judge.now }
    requires row { IsRow judge.now.subject.now.world.now file ProfileTable.Methods n }
    ensures { IfOk result (λ fault. fault ≡ row_told judge.now.subject.now.world.now file ProfileTable.Methods n) }
{
    let wrong = method_wrong(alloc, judge.subject, file, n)?;
    let is_well = method_well(alloc, judge.subject, file, n);
    let is_apart = method_apart(alloc, judge.subject, &judge.methods, file, n)?;
    let place = place_of(file, ProfileTable::Methods, n);
    Ok(refuse_member(place, wrong, 29, is_well, is_apart))
}

/// The bit of a row; false where there is none.
fn bit_at(bits: &[bool], n: u32) -> bool
    ensures { result ≡ unwrap_or (slice_get bits.now n) false }
{
    bits.get(n as usize).copied().unwrap_or(false)
}

/// Where the signature of a reference is wrong, if the file looks at it.
fn reference_place(
    alloc: Global,
    judge: &Judge<'_, '_, '_>,
    file: u16,
    n: u32,
    is_looked_at: bool,
) -> Result<Option<u32>, NoMemory>
    requires judge { IsJudge judge.now }
    requires file { file < length judge.now.subject.now.world.now }
    ensures { IfOk result (TellsRow judge.now.subject.now.world.now file member_refs n (λ m row. if is_looked_at then reference_wrong (world_of judge.now.subject.now.world.now) file m row else None)) }
{
    if is_looked_at {
        reference_wrong(alloc, judge.subject, file, n)
    } else {
        Ok(None)
    }
}

/// What is told of a reference to a member.
fn reference_row(
    alloc: Global,
    judge: &Judge<'_, '_, '_>,
    file: u16,
    n: u32,
) -> Result<Option<Fault>, NoMemory>
    requires judge { IsJudge judge.now }
    requires row { IsRow judge.now.subject.now.world.now file ProfileTable.MemberRefs n }
    ensures { IfOk result (λ fault. fault ≡ row_told judge.now.subject.now.world.now file ProfileTable.MemberRefs n) }
{
    let columns = columns(judge, file);
    let is_looked_at = bit_at(columns.looked.members.as_slice(), n);
    let wrong = reference_place(alloc, judge, file, n, is_looked_at)?;
    let place = place_of(file, ProfileTable::MemberRefs, n);
    Ok(refuse_signature(place, wrong))
}

/// What is told of a signature of locals.
fn locals_row(
    alloc: Global,
    judge: &Judge<'_, '_, '_>,
    file: u16,
    n: u32,
) -> Result<Option<Fault>, NoMemory>
    requires judge { IsJudge judge.now }
    requires row { IsRow judge.now.subject.now.world.now file ProfileTable.LocalsSignatures n }
    ensures { IfOk result (λ fault. fault ≡ row_told judge.now.subject.now.world.now file ProfileTable.LocalsSignatures n) }
{
    let wrong = locals_wrong(alloc, judge.subject, file, n)?;
    let place = place_of(file, ProfileTable::LocalsSignatures, n);
    Ok(refuse_signature(place, wrong))
}

/// Where a TypeSpec is wrong, if the file looks at it.
fn spec_place(
    judge: &Judge<'_, '_, '_>,
    file: u16,
    n: u32,
    is_looked_at: bool,
) -> Result<Option<u32>, NoMemory>
    requires judge { IsJudge judge.now }
    requires file { file < length judge.now.subject.now.world.now }
    ensures { IfOk result (TellsRow judge.now.subject.now.world.now file type_specs n (λ m row. if is_looked_at then spec_wrong (world_of judge.now.subject.now.world.now) file m (bytes_at m (slice_index row 0)) else None)) }
{
    if is_looked_at {
        Ok(spec_wrong(judge.subject, file, n))
    } else {
        Ok(None)
    }
}

/// What is told of a TypeSpec.
fn spec_row(judge: &Judge<'_, '_, '_>, file: u16, n: u32) -> Result<Option<Fault>, NoMemory>
    requires judge { IsJudge judge.now }
    requires row { IsRow judge.now.subject.now.world.now file ProfileTable.TypeSpecs n }
    ensures { IfOk result (λ fault. fault ≡ row_told judge.now.subject.now.world.now file ProfileTable.TypeSpecs n) }
{
    let columns = columns(judge, file);
    let is_looked_at = bit_at(columns.looked.specs.as_slice(), n);
    let wrong = spec_place(judge, file, n, is_looked_at)?;
    let place = place_of(file, ProfileTable::TypeSpecs, n);
    Ok(refuse_signature(place, wrong))
}

/// What is told of a row of a table that has to be empty.
fn refused_row(
    judge: &Judge<'_, '_, '_>,
    table: ProfileTable,
    file: u16,
    n: u32,
    rule: u8,
) -> Option<Fault>
    requires row { IsRow judge.now.subject.now.world.now file table n }
    requires refused { (w : World) (f : ℕ) (x : FilePart) → tests_of w f x table ≡ refused rule }
    ensures { result ≡ row_told judge.now.subject.now.world.now file table n }
{
    let _judge = judge;
    refuse(place_of(file, table, n), rule)
}

/// What is told of a row.
pub fn row_fault(
    alloc: Global,
    judge: &Judge<'_, '_, '_>,
    table: ProfileTable,
    file: u16,
    n: u32,
) -> Result<Option<Fault>, NoMemory>
    requires judge { IsJudge judge.now }
    requires row { IsRow judge.now.subject.now.world.now file table n }
    ensures { IfOk result (λ fault. fault ≡ row_told judge.now.subject.now.world.now file table n) }
{
    match table {
        ProfileTable::TypeDefs => type_row(judge, file, n),
        ProfileTable::InterfaceImpls => interface_row(judge, file, n),
        ProfileTable::Assemblies => assembly_row(judge, file, n),
        ProfileTable::MethodImpls => Ok(refused_row(judge, table, file, n, 21)),
        ProfileTable::GenericParams => Ok(refused_row(judge, table, file, n, 20)),
        ProfileTable::MethodSpecs => Ok(refused_row(judge, table, file, n, 20)),
        ProfileTable::GenericConstraints => Ok(refused_row(judge, table, file, n, 20)),
        ProfileTable::Fields => field_row(alloc, judge, file, n),
        ProfileTable::Methods => method_row(alloc, judge, file, n),
        ProfileTable::MemberRefs => reference_row(alloc, judge, file, n),
        ProfileTable::LocalsSignatures => locals_row(alloc, judge, file, n),
        ProfileTable::TypeSpecs => spec_row(judge, file, n),
    }
}
