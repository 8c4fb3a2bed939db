//! One instruction's effect on the types on the stack.

ghost use Rattle.std.specs.Prelude.{◌≡◌, ◌≤◌, ◌++◌, Bool, false, IfOk, IsSome, length};
ghost use Rattle.std.specs.List.{list_any};
ghost use Rattle.cil_opcodes.specs.Rows.{row_of};
ghost use Rattle.machine.specs.Data.{CliType};
ghost use Rattle.machine.specs.Program.{Program};
ghost use Rattle.place_types.specs.Types.{Agrees, from_top};
ghost use Rattle.verify_ops.specs.Effects.{Gives, Leaves, effect_of, shape_of, is_never as is_never_type};
ghost use Rattle.verify_ops.specs.Acts.{Chosen, Judged, deeper, is_left as is_left_there, passes_max, kept_below};
ghost use Rattle.stack_acts.specs.Acts.{IsSpelt, types_given};

use crate::facts::{Facts, OpRefusal};
use crate::table::row_for;
use cil_code::instructions::Instr;
use cil_opcodes::table::row;
use ecma_types::lattice::Lattice;
use ecma_types::stack::StackType;
use plain_types::fault::NoMemory;
use stack_acts::given::gives;
use stack_acts::row::{Given, Rest, Row};
use std::alloc::Global;

/// Too few types are on the stack.
const TOO_FEW: u8 = 50;
/// More are there than the method's max stack.
const TOO_MANY: u8 = 51;
/// A type is wrong.
const WRONG_TYPE: u8 = 53;
/// The stack isn't empty where it has to be.
const NOT_EMPTY: u8 = 54;

/// Whether so many types behind an instruction are too many.
fn is_deeper(rest: Rest, most: usize, count: usize) -> bool
    ensures { result ≡ deeper rest most count }
{
    match rest {
        Rest::Keeps => count > most,
        Rest::Drops | Rest::WantsNone => false,
    }
}

/// Whether more types are there than the method's max stack, before the instruction or behind it.
fn is_too_deep(row: &Row<'_>, max_stack: u16, stack: &[StackType]) -> bool
    requires { row.now.pops ≤ length stack.now }
    ensures { result ≡ passes_max row.now max_stack (length stack.now) }
{
    let most = usize::from(max_stack);
    let behind = usize::from(row.pushes) + (stack.len() - row.pops);
    stack.len() > most || is_deeper(row.rest, most, behind)
}

/// Whether a type is given that no value has.
fn is_never(given: &Given) -> bool
    ensures { result ≡ list_any is_never_type (types_given given.now) }
{
    matches!(given, Given::Single(None))
}

/// Whether types are left where none may be.
fn is_left(rest: Rest, below: usize) -> bool
    ensures { result ≡ is_left_there rest below }
{
    match rest {
        Rest::Keeps | Rest::Drops => false,
        Rest::WantsNone => below > 0,
    }
}

/// What a row gives over a stack whose last type is the topmost one, or the lowest rule that is broken.
fn judge<T: Lattice>(
    alloc: Global,
    row: &Row<'_>,
    max_stack: u16,
    stack: &[StackType],
    lattice: &T,
) -> Result<Given, OpRefusal>
    requires { IsSpelt row.now.act }
    ensures exact { (p : Program) → Agrees (T.is_assignable lattice.now) p.fits → Judged p row.now max_stack stack.now result }
    ensures enough { IfOk result (λ given. row.now.pops ≤ length stack.now) }
    ensures known { IfOk result (λ given. list_any is_never_type (types_given given) ≡ false) }
{
    if stack.len() < row.pops {
        return Err(OpRefusal::Broken(TOO_FEW));
    }
    if is_too_deep(row, max_stack, stack) {
        return Err(OpRefusal::Broken(TOO_MANY));
    }
    let below = stack.len() - row.pops;
    let Some(given) = gives(alloc, &row.act, &stack[below..], lattice)? else {
        return Err(OpRefusal::Broken(WRONG_TYPE));
    };
    if is_left(row.rest, below) {
        return Err(OpRefusal::Broken(NOT_EMPTY));
    }
    if is_never(&given) {
        return Err(OpRefusal::Broken(WRONG_TYPE));
    }
    Ok(given)
}

/// The types that are left below.
fn kept(row: &Row<'_>, depth: usize) -> usize
    requires { row.now.pops ≤ depth }
    ensures { result ≡ kept_below row.now depth }
{
    match row.rest {
        Rest::Keeps => depth - row.pops,
        Rest::Drops | Rest::WantsNone => 0,
    }
}

/// The given types are pushed.
fn push_given(stack: &mut Vec<StackType>, given: Given) -> Result<(), NoMemory>
    requires { list_any is_never_type (types_given given) ≡ false }
    ensures { IfOk result (λ done. from_top stack.new.items ≡ types_given given ++ from_top stack.old.items) }
{
    match given {
        Given::Nothing | Given::Single(None) => {}
        Given::Single(Some(of)) => stack.push(of)?,
        Given::Twice(of) => {
            stack.push(of)?;
            stack.push(of)?;
        }
    }
    Ok(())
}

/// The instruction's row, or the rule that it breaks whatever lies on the stack.
fn chosen_row<'a>(op: Instr, facts: &Facts<'a>) -> Result<Row<'a>, u8>
    requires { IsSome (row_of op.op) }
    ensures { Chosen facts.now (shape_of op.op) op.operand result }
{
    let Some(line) = row(op.op) else {
        unreachable!()
    };
    row_for(line.shape, op.operand, facts)
}

/// The effect in place: the types on the stack, the topmost one last, become those that the instruction leaves.
///
/// A rule that is broken leaves them as they were; want of memory leaves nothing that is said.
pub fn apply<T: Lattice>(
    alloc: Global,
    op: &Instr,
    facts: &Facts<'_>,
    stack: &mut Vec<StackType>,
    lattice: &T,
) -> Result<(), OpRefusal>
    requires { IsSome (row_of op.now.op) }
    ensures { (fits : CliType → CliType → Bool) → Agrees (T.is_assignable lattice.now) fits → Leaves result stack.old.items stack.new.items (effect_of fits op.now facts.now stack.old.items) }
{
    let row = match chosen_row(*op, facts) {
        Ok(row) => row,
        Err(rule) => return Err(OpRefusal::Broken(rule)),
    };
    let given = match judge(alloc, &row, facts.max_stack, stack.as_slice(), lattice) {
        Ok(given) => given,
        Err(refusal) => return Err(refusal),
    };
    stack.truncate(kept(&row, stack.len()));
    push_given(stack, given)?;
    Ok(())
}

/// What an instruction makes of the types on the stack, the topmost one last.
///
/// The opcode is one of the table's. The facts are those of its method and operand. The refusal is the lowest of rules 46 (the
/// operand's token), 47 (the number of an argument or local), 50 (too few types), 51 (too many), 53 (a wrong type) and 54 (a
/// stack that isn't empty) that the instruction breaks by itself.
pub fn effect<T: Lattice>(
    alloc: Global,
    op: &Instr,
    facts: &Facts<'_>,
    stack: &[StackType],
    lattice: &T,
) -> Result<Vec<StackType>, OpRefusal>
    requires { IsSome (row_of op.now.op) }
    ensures { (fits : CliType → CliType → Bool) → Agrees (T.is_assignable lattice.now) fits → Gives (λ us. us.items) result (effect_of fits op.now facts.now stack.now) }
{
    let mut types = Vec::new(alloc);
    if types.extend_from_slice(stack).is_err() {
        return Err(OpRefusal::NoMemory);
    }
    match apply(alloc, op, facts, &mut types, lattice) {
        Ok(()) => Ok(types),
        Err(refusal) => Err(refusal),
    }
}
