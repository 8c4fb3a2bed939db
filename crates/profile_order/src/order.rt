//! The order in which rules are looked at: phases, in each the files, in each its tables, in each its rows.

ghost use Rattle.std.specs.Prelude.{◌≡◌, ◌<◌, ◌+◌, ◌^◌, IfOk, length};
ghost use Rattle.verdict_rules.specs.Verdict.{profile};
ghost use Rattle.profile_order.specs.Judge.{IsJudge};
ghost use Rattle.profile_order.specs.Told.{rows_in, table_told, tables_told, whole_told, file_told, phase_told};

use crate::judge::Judge;
use crate::rows::row_fault;
use crate::tables::{Phase, ProfileTable};
use library_tests::library_fault;
use plain_types::fault::{Fault, NoMemory};
use std::alloc::Global;
use type_tests::entry_fault;

/// How many rows a table of a file has.
fn count_rows(judge: &Judge<'_, '_, '_>, table: ProfileTable, file: u16) -> u32
    requires { file < length judge.now.subject.now.world.now }
    ensures { result ≡ rows_in judge.now.subject.now.world.now file table }
{
    let world = judge.subject.world;
    world.tables(file).rows(table.number())
}

/// What is told of a table of a file: by its first row that breaks a rule.
fn table_fault(
    alloc: Global,
    judge: &Judge<'_, '_, '_>,
    table: ProfileTable,
    file: u16,
) -> Result<Option<Fault>, NoMemory>
    requires judge { IsJudge judge.now }
    requires file { file < length judge.now.subject.now.world.now }
    ensures { IfOk result (λ fault. fault ≡ table_told judge.now.subject.now.world.now file table) }
{
    let count = count_rows(judge, table, file);
    for n in 0..count {
        match row_fault(alloc, judge, table, file, n)? {
            Some(fault) => return Ok(Some(fault)),
            None => {}
        }
    }
    Ok(None)
}

/// What is told of tables of a file: by the first that has such a row.
fn tables_fault(
    alloc: Global,
    judge: &Judge<'_, '_, '_>,
    tables: &[ProfileTable],
    file: u16,
) -> Result<Option<Fault>, NoMemory>
    requires judge { IsJudge judge.now }
    requires file { file < length judge.now.subject.now.world.now }
    ensures { IfOk result (λ fault. fault ≡ tables_told judge.now.subject.now.world.now file tables.now) }
{
    for table in tables {
        match table_fault(alloc, judge, *table, file)? {
            Some(fault) => return Ok(Some(fault)),
            None => {}
        }
    }
    Ok(None)
}

/// What is told of a file itself.
fn whole_fault(
    alloc: Global,
    judge: &Judge<'_, '_, '_>,
    phase: Phase,
    file: u16,
) -> Result<Option<Fault>, NoMemory>
    requires judge { IsJudge judge.now }
    requires file { file < length judge.now.subject.now.world.now }
    ensures { IfOk result (λ fault. fault ≡ whole_told judge.now.subject.now.world.now file phase) }
{
    match phase {
        Phase::Types => Ok(entry_fault(judge.subject, &judge.entries, file)),
        Phase::Members => Ok(library_fault(alloc, judge.subject, file)?),
    }
}

/// What is told of a file in a phase: of its tables, and at last of the file itself.
fn file_fault(
    alloc: Global,
    judge: &Judge<'_, '_, '_>,
    phase: Phase,
    file: u16,
) -> Result<Option<Fault>, NoMemory>
    requires judge { IsJudge judge.now }
    requires file { file < length judge.now.subject.now.world.now }
    ensures { IfOk result (λ fault. fault ≡ file_told judge.now.subject.now.world.now file phase) }
{
    match tables_fault(alloc, judge, phase.tables(), file)? {
        Some(fault) => Ok(Some(fault)),
        None => whole_fault(alloc, judge, phase, file),
    }
}

/// What is told in a phase: of the first file of which something is.
fn phase_fault(
    alloc: Global,
    judge: &Judge<'_, '_, '_>,
    phase: Phase,
) -> Result<Option<Fault>, NoMemory>
    requires { IsJudge judge.now }
    ensures { IfOk result (λ fault. fault ≡ phase_told judge.now.subject.now.world.now phase) }
{
    for file in 0..judge.subject.world.files() {
        match file_fault(alloc, judge, phase, file)? {
            Some(fault) => return Ok(Some(fault)),
            None => {}
        }
    }
    Ok(None)
}

/// The first of the rules 20 to 30 that is broken: types in all files come before members.
pub fn profile_fault(alloc: Global, judge: &Judge<'_, '_, '_>) -> Result<Option<Fault>, NoMemory>
    requires { IsJudge judge.now }
    ensures { IfOk result (λ fault. fault ≡ profile judge.now.subject.now.world.now) }
{
    match phase_fault(alloc, judge, Phase::Types)? {
        Some(fault) => Ok(Some(fault)),
        None => phase_fault(alloc, judge, Phase::Members),
    }
}
