//! The tokens that instructions and clauses name (ECMA-335 II.25.4.6, III.1.9).

ghost use Rattle.std.specs.Prelude.{◌≡◌, ◌^◌, ◌<◌, OnOk, false, length};
ghost use Rattle.std.specs.List.{flat_map};
ghost use Rattle.std.specs.Option.{option_map_or};
ghost use Rattle.cil_opcodes.specs.Rows.{row_of};
ghost use Rattle.cil_code.specs.Walk.{instructions_of};
ghost use Rattle.world_rows.specs.Looked.{is_named_by, named_by_clause, named_by_line, named_by_body};
ghost use Rattle.looked_rows.specs.Looked.{Looks};

use crate::looked::Looked;
use cil_code::{Body, Clause, Instr, instruction};
use cil_opcodes::{Operand, row};
use plain_types::fault::NoMemory;
use std::alloc::Global;

/// The operand is the token of a row.
fn is_token(operand: Operand) -> bool
    ensures { result ≡ is_named_by operand }
{
    matches!(
        operand,
        Operand::TypeToken | Operand::FieldToken | Operand::MethodToken | Operand::AnyToken
    )
}

/// The instruction names a row by its operand.
fn names_row(op: u16) -> bool
    ensures { result ≡ option_map_or (λ row. is_named_by row.operand) (row_of op) false }
{
    match row(op) {
        Some(row) => is_token(row.operand),
        None => false,
    }
}

/// Marks the row that an instruction names, if it names one.
fn mark_line(looked: &mut Looked, instr: &Instr)
    ensures { Looks (named_by_line (record { at = 0; instr = instr.now })) looked.old looked.new }
{
    if names_row(instr.op) {
        looked.mark(instr.operand.unsigned_abs());
    }
}

/// Marks the rows that the instructions of code name.
fn mark_lines(looked: &mut Looked, code: &[u8])
    requires { length code.now < 2 ^ 32 }
    ensures { Looks (flat_map named_by_line (instructions_of code.now)) looked.old looked.new }
{
    let mut at: u32 = 0;
    'walk: while (at as usize) < code.len() {
        let instr = match instruction(code, at) {
            Ok(instr) => instr,
            Err(_) => return,
        };
        mark_line(looked, &instr);
        at += instr.length;
    }
}

/// Marks the class that a clause catches.
fn mark_clause(looked: &mut Looked, clause: &Clause)
    ensures { Looks (named_by_clause clause.now) looked.old looked.new }
{
    if clause.kind == 0 {
        looked.mark(u64::from(clause.token));
    }
}

/// Marks the rows that clauses name.
fn mark_clauses(looked: &mut Looked, clauses: &[Clause])
    ensures { Looks (flat_map named_by_clause clauses.now) looked.old looked.new }
{
    for clause in clauses {
        mark_clause(looked, clause);
    }
}

/// Marks the rows that a body names, if there is one.
pub fn mark_body(
    alloc: Global,
    looked: &mut Looked,
    body: &Option<Body<'_>>,
) -> Result<(), NoMemory>
    ensures { OnOk result (Looks (named_by_body body.now) looked.old looked.new) }
{
    let Some(body) = body else {
        return Ok(());
    };
    let _few = body.code_size();
    let clauses = body.clauses(alloc)?;
    mark_clauses(looked, clauses.as_slice());
    mark_lines(looked, body.code());
    Ok(())
}
