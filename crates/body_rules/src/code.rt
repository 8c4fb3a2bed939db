//! What code names (ECMA-335 II.25.4, III.1.9).

ghost use Rattle.std.specs.Prelude.{◌≡◌, ◌^◌, ◌<◌, ℕ, List, OnOk, length};
ghost use Rattle.std.specs.List.{flat_map};
ghost use Rattle.std.specs.Option.{option_map};
ghost use Rattle.kept_rules.specs.Row.{in_option, in_type, in_operand, in_line, in_clause, in_code};
ghost use Rattle.file_tables.specs.Metadata.{column_of};
ghost use Rattle.world_rows.specs.Tokens.{locals_signatures, number_of};
ghost use Rattle.world_rows.specs.Lines.{raw_operand, raw_line, raw_clause, raw_code, lines_of, locals_of};
ghost use Rattle.row_rules.specs.Links.{row_at, keeps_each, Adds};
ghost use Rattle.body_rules.specs.References.{all_before};

use crate::tokens::{field_row, method_row, type_row};
use cil_code::{Body, Clause, Instr, instruction};
use cil_opcodes::{Operand, row};
use cil_rows::{StandAloneSigRow, find_row};
use cil_tables::Tables;
use plain_types::fault::NoMemory;
use row_rules::{RowPlace, RowRules, keep_locals};
use std::alloc::Global;

/// Adds that a row keeps the row that an operand names, if it names one.
fn keep_operand(
    rules: &mut RowRules,
    place: RowPlace,
    tables: &Tables<'_>,
    counts: &[u32],
    kind: Operand,
    operand: i64,
) -> Result<(), NoMemory>
    requires { counts.now ≡ all_before tables.now }
    ensures { OnOk result ((code : List ℕ) (at next : ℕ) → Adds (keeps_each (row_at place) (in_operand place.file (raw_operand tables.now code at next kind operand))) rules.old rules.new) }
{
    let token = operand.unsigned_abs();
    match kind {
        Operand::TypeToken => rules.keep(place, type_row(tables, place.file, token)),
        Operand::FieldToken | Operand::AnyToken => {
            rules.keep(place, field_row(tables, counts, place.file, token))
        }
        Operand::MethodToken => rules.keep(place, method_row(tables, counts, place.file, token)),
        _ => Ok(()),
    }
}

/// Adds that a row keeps the row that an instruction names, if it names one.
fn keep_line(
    rules: &mut RowRules,
    place: RowPlace,
    tables: &Tables<'_>,
    counts: &[u32],
    instr: &Instr,
) -> Result<(), NoMemory>
    requires { counts.now ≡ all_before tables.now }
    ensures { OnOk result ((code : List ℕ) (at : ℕ) → Adds (keeps_each (row_at place) (in_option (in_line place.file) (raw_line tables.now code (record { at = at; instr = instr.now })))) rules.old rules.new) }
{
    match row(instr.op) {
        Some(row) => keep_operand(rules, place, tables, counts, row.operand, instr.operand),
        None => Ok(()),
    }
}

/// Adds that a row keeps the rows that the instructions of code name. Each is read once.
fn keep_lines(
    rules: &mut RowRules,
    place: RowPlace,
    tables: &Tables<'_>,
    counts: &[u32],
    code: &[u8],
) -> Result<(), NoMemory>
    requires counts { counts.now ≡ all_before tables.now }
    requires few { length code.now < 2 ^ 32 }
    ensures { OnOk result (Adds (keeps_each (row_at place) (flat_map (in_line place.file) (lines_of tables.now code.now))) rules.old rules.new) }
{
    let mut at: u32 = 0;
    'walk: while (at as usize) < code.len() {
        let instr = match instruction(code, at) {
            Ok(instr) => instr,
            Err(_) => return Ok(()),
        };
        keep_line(rules, place, tables, counts, &instr)?;
        at += instr.length;
    }
    Ok(())
}

/// Adds that a row keeps the class that a clause catches, if it catches one.
fn keep_clause(
    rules: &mut RowRules,
    place: RowPlace,
    tables: &Tables<'_>,
    clause: &Clause,
) -> Result<(), NoMemory>
    ensures { OnOk result (Adds (keeps_each (row_at place) (in_clause place.file (raw_clause tables.now clause.now))) rules.old rules.new) }
{
    if clause.kind != 0 {
        return Ok(());
    }
    rules.keep(place, type_row(tables, place.file, u64::from(clause.token)))
}

/// Adds that a row keeps the classes that clauses catch.
fn keep_clauses(
    rules: &mut RowRules,
    place: RowPlace,
    tables: &Tables<'_>,
    clauses: &[Clause],
) -> Result<(), NoMemory>
    ensures { OnOk result (Adds (keeps_each (row_at place) (flat_map (λ c. in_clause place.file (raw_clause tables.now c)) clauses.now)) rules.old rules.new) }
{
    for clause in clauses {
        keep_clause(rules, place, tables, clause)?;
    }
    Ok(())
}

/// Where the signature of a token of locals stands; that of no row of StandAloneSig stands at 0 (ECMA-335 II.22.36).
fn locals_blob(tables: &Tables<'_>, token: u32) -> u32
    ensures { result ≡ column_of tables.now locals_signatures (number_of token) 0 }
{
    match find_row::<StandAloneSigRow>(tables, token % 0x100_0000) {
        Some(row) => row.signature,
        None => 0,
    }
}

/// Adds that a row keeps the types of locals. Token 0 is that of none.
fn keep_places(
    alloc: Global,
    rules: &mut RowRules,
    place: RowPlace,
    tables: &Tables<'_>,
    token: u32,
) -> Result<(), NoMemory>
    ensures { OnOk result (Adds (keeps_each (row_at place) (flat_map (in_type place.file) (locals_of tables.now token))) rules.old rules.new) }
{
    if token == 0 {
        return Ok(());
    }
    let blob = tables.blob(locals_blob(tables, token)).unwrap_or(&[]);
    keep_locals(alloc, rules, place, tables, blob)
}

/// Adds that a row keeps the rows that a body names.
fn keep_body(
    alloc: Global,
    rules: &mut RowRules,
    place: RowPlace,
    tables: &Tables<'_>,
    counts: &[u32],
    body: &Body<'_>,
) -> Result<(), NoMemory>
    requires { counts.now ≡ all_before tables.now }
    ensures { OnOk result (Adds (keeps_each (row_at place) (in_code place.file (raw_code tables.now body.now))) rules.old rules.new) }
{
    let _few = body.code_size();
    let clauses = body.clauses(alloc)?;
    keep_places(alloc, rules, place, tables, body.locals_token())?;
    keep_clauses(rules, place, tables, clauses.as_slice())?;
    keep_lines(rules, place, tables, counts, body.code())
}

/// Adds that a row keeps the rows that a body names, if there is one.
pub fn keep_code(
    alloc: Global,
    rules: &mut RowRules,
    place: RowPlace,
    tables: &Tables<'_>,
    counts: &[u32],
    body: &Option<Body<'_>>,
) -> Result<(), NoMemory>
    requires { counts.now ≡ all_before tables.now }
    ensures { OnOk result (Adds (keeps_each (row_at place) (in_option (in_code place.file) (option_map (raw_code tables.now) body.now))) rules.old rules.new) }
{
    match body {
        Some(body) => keep_body(alloc, rules, place, tables, counts, body),
        None => Ok(()),
    }
}
