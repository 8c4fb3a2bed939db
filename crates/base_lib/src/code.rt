//! Bodies in CIL (ECMA-335 II.25.4).

ghost use Rattle.std.specs.Prelude.{◌≡◌, ◌++◌, ◌≤◌, ◌+◌, IfOk, OnOk, length, sum_by};
ghost use Rattle.base_tables.specs.Shape.{items_of, line_of, lines_of};
ghost use Rattle.base_lib.specs.Keys.{literal_len};
ghost use Rattle.base_lib.specs.Code.{op_bytes, line_length, label_from, is_label, distance, line_bytes, code_from, body_bytes};

use crate::keys::token_for;
use base_tables::op::Op;
use base_tables::shape::{Form, Item, Line};
use cil_bytes::write::{push_bytes, push_four, push_two};
use plain_types::fault::NoMemory;
use std::alloc::Global;

/// An opcode.
fn push_op(out: &mut Vec<u8>, op: Op) -> Result<(), NoMemory>
    ensures { OnOk result (out.new.items ≡ out.old.items ++ op_bytes op.0) }
{
    if op.0 < 256 {
        out.push(op.0 as u8)?;
    } else {
        push_bytes(out, &[0xFE, (op.0 % 256) as u8])?;
    }
    Ok(())
}

/// The bytes of an opcode.
fn op_len(op: Op) -> u8
    ensures { result ≡ length (op_bytes op.0) }
{
    if op.0 < 256 { 1 } else { 2 }
}

/// The bytes of a line.
fn line_len(line: &Line) -> u8
    ensures length { result ≡ line_length (line_of line.now) }
    ensures short { result ≤ 6 }
{
    let (form, op, ..) = *line;
    match form {
        Form::At => 0,
        Form::Do => op_len(op),
        Form::Small => op_len(op) + 1,
        Form::Jump => op_len(op) + 1,
        Form::Name => op_len(op) + 4,
    }
}

/// Whether a line is a label's.
fn is_label_line(label: &str, line: &Line) -> bool
    ensures { result ≡ is_label label.now (line_of line.now) }
{
    let (form, _, _, name) = *line;
    match form {
        Form::At => name == label,
        Form::Do | Form::Small | Form::Jump | Form::Name => false,
    }
}

/// The place of a label, modulo 256.
#[tactic(auto, using(crate::proofs::Walks::label_found, crate::proofs::Walks::label_step, crate::proofs::Walks::label_none))]
fn place_of_label(lines: &[Line], label: &str) -> u8
    ensures { result ≡ label_from 0 (lines_of lines.now) label.now }
{
    let mut at: u8 = 0;
    for line in lines {
        if is_label_line(label, line) {
            return at;
        }
        at = at.wrapping_add(line_len(line));
    }
    0
}

/// The distance of a short branch.
fn distance_to(end: u8, target: u8) -> u8
    ensures { result ≡ distance end target }
{
    ((u16::from(target) + (256 - u16::from(end))) % 256) as u8
}

/// A line that begins at a place, among all lines of its body.
fn push_line(
    out: &mut Vec<u8>,
    items: &[Item],
    lines: &[Line],
    at: u8,
    line: &Line,
) -> Result<(), NoMemory>
    requires few { length items.now ≤ 60000 }
    requires short { sum_by literal_len (items_of items.now) ≤ 1000000 }
    ensures { OnOk result (out.new.items ≡ out.old.items ++ line_bytes (items_of items.now) (lines_of lines.now) at (line_of line.now)) }
{
    let (form, op, number, name) = *line;
    match form {
        Form::At => Ok(()),
        Form::Do => push_op(out, op),
        Form::Small => {
            push_op(out, op)?;
            push_bytes(out, &[number])
        }
        Form::Jump => {
            push_op(out, op)?;
            let end = at.wrapping_add(line_len(line));
            push_bytes(out, &[distance_to(end, place_of_label(lines, name))])
        }
        Form::Name => {
            push_op(out, op)?;
            push_four(out, token_for(items, name))
        }
    }
}

/// The lines of a body.
#[tactic(auto, using(crate::proofs::Walks::code_step, crate::proofs::Walks::code_done))]
fn push_lines(out: &mut Vec<u8>, items: &[Item], lines: &[Line]) -> Result<(), NoMemory>
    requires few { length items.now ≤ 60000 }
    requires short { sum_by literal_len (items_of items.now) ≤ 1000000 }
    ensures { OnOk result (out.new.items ≡ out.old.items ++ code_from (items_of items.now) (lines_of lines.now) 0 (lines_of lines.now)) }
{
    let mut at: u8 = 0;
    for line in lines {
        push_line(out, items, lines, at, line)?;
        at = at.wrapping_add(line_len(line));
    }
    Ok(())
}

/// A body with a fat header, which states the most values on its stack.
#[tactic(auto, using(crate::proofs::Walks::code_le), unfolding(crate::specs::Code::body_bytes))]
pub fn body(
    alloc: Global,
    items: &[Item],
    max_stack: u16,
    locals: u32,
    lines: &[Line],
) -> Result<Vec<u8>, NoMemory>
    requires few { length items.now ≤ 60000 }
    requires short { sum_by literal_len (items_of items.now) ≤ 1000000 }
    requires lines { length lines.now ≤ 1000 }
    ensures { IfOk result (λ bytes. bytes.items ≡ body_bytes (items_of items.now) max_stack locals (lines_of lines.now)) }
{
    let mut code = Vec::new(alloc);
    push_lines(&mut code, items, lines)?;
    let mut out = Vec::new(alloc);
    push_bytes(&mut out, &[0x13, 0x30])?;
    push_two(&mut out, max_stack)?;
    push_four(&mut out, code.len() as u32)?;
    push_four(&mut out, locals)?;
    push_bytes(&mut out, code.as_slice())?;
    Ok(out)
}
