//! What an instruction breaks whatever lies on the stack: the rule of its operand, and that of its number.

ghost use Rattle.std.specs.Prelude.{◌≡◌, Some, not};
ghost use Rattle.class_rules.specs.Rules.{holds_some};
ghost use Rattle.cil_opcodes.specs.declared.shape.Row.{Row};
ghost use Rattle.cil_opcodes.specs.Rows.{row_of};
ghost use Rattle.place_types.specs.Held.{has_arrays};
ghost use Rattle.code_rules.specs.Verdict.{numbered};
ghost use Rattle.verify_ops.specs.Facts.{instruction_by, is_abstract, is_callable, is_data_field, is_instance_field, is_new, is_static_field, method_by, method_named, field_named, names_element, names_number, names_plain, names_text, number_or, operand_fits, typed_access};
ghost use Rattle.operand_rules.specs.Numbers.{counts, lowest_of_two};

use crate::members::{
    has_body, is_callable, is_data_field, is_instance_field, is_new, is_static_field,
};
use cil_code::instructions::Instr;
use cil_opcodes::shape::{Access, Shape};
use cil_opcodes::table::row;
use ecma_types::stack::PlaceType;
use place_types::types::{array_of, is_number, is_plain};
use verify_ops::facts::{Facts, Operand};
use verify_ops::table::{OUT_OF_RANGE, WRONG_OPERAND};

/// Whether a literal text is named.
fn names_text(operand: &Operand<'_>) -> bool
    ensures { result ≡ names_text operand.now }
{
    matches!(operand, Operand::Text)
}

/// Whether a method is named that has a body.
fn names_body(operand: &Operand<'_>) -> bool
    ensures { result ≡ holds_some (method_named operand.now) (λ m. not (is_abstract m)) }
{
    match operand {
        Operand::Method(method) => has_body(method),
        _ => false,
    }
}

/// Whether a method is named that `callvirt` takes.
fn names_callable(operand: &Operand<'_>) -> bool
    ensures { result ≡ holds_some (method_named operand.now) is_callable }
{
    match operand {
        Operand::Method(method) => is_callable(method),
        _ => false,
    }
}

/// Whether a constructor is named that `newobj` takes.
fn names_new(operand: &Operand<'_>) -> bool
    ensures { result ≡ holds_some (method_named operand.now) is_new }
{
    match operand {
        Operand::Method(method) => is_new(method),
        _ => false,
    }
}

/// Whether an instance field of a class is named.
fn names_instance_field(operand: &Operand<'_>) -> bool
    ensures { result ≡ holds_some (field_named operand.now) is_instance_field }
{
    match operand {
        Operand::Field(field) => is_instance_field(field),
        _ => false,
    }
}

/// Whether a static field is named that is neither a literal nor a data field.
fn names_static_field(operand: &Operand<'_>) -> bool
    ensures { result ≡ holds_some (field_named operand.now) is_static_field }
{
    match operand {
        Operand::Field(field) => is_static_field(field),
        _ => false,
    }
}

/// Whether a field with data in the file is named.
fn names_data_field(operand: &Operand<'_>) -> bool
    ensures { result ≡ holds_some (field_named operand.now) is_data_field }
{
    match operand {
        Operand::Field(field) => is_data_field(field),
        _ => false,
    }
}

/// Whether a primitive, an enum or a reference type is named.
fn names_plain(operand: &Operand<'_>) -> bool
    ensures { result ≡ names_plain operand.now }
{
    match operand {
        Operand::OfType(of) => is_plain(of),
        _ => false,
    }
}

/// Whether a primitive or an enum is named.
fn names_number(operand: &Operand<'_>) -> bool
    ensures { result ≡ names_number operand.now }
{
    match operand {
        Operand::OfType(of) => is_number(of),
        _ => false,
    }
}

/// Whether there are arrays of a type.
fn has_arrays(of: &PlaceType) -> bool
    ensures { result ≡ has_arrays of.now }
{
    array_of(of).is_some()
}

/// Whether a type is named of which there are arrays.
fn names_element(operand: &Operand<'_>) -> bool
    ensures { result ≡ names_element operand.now }
{
    match operand {
        Operand::OfType(of) => is_plain(of) && has_arrays(of),
        _ => false,
    }
}

/// Whether an access takes the operand, by whether it takes a type.
fn is_typed_well(access: Access, test: bool) -> bool
    ensures { result ≡ typed_access access test }
{
    match access {
        Access::Typed => test,
        Access::Integer(_) | Access::Reference => true,
    }
}

/// Whether an instruction of a shape takes the operand.
fn operand_fits(shape: Shape, operand: &Operand<'_>) -> bool
    ensures { result ≡ operand_fits shape operand.now }
{
    match shape {
        Shape::LoadString => names_text(operand),
        Shape::Call => names_body(operand),
        Shape::CallVirtual => names_callable(operand),
        Shape::NewObject => names_new(operand),
        Shape::LoadField | Shape::LoadFieldAddress | Shape::StoreField => {
            names_instance_field(operand)
        }
        Shape::LoadStatic | Shape::LoadStaticAddress | Shape::StoreStatic => {
            names_static_field(operand)
        }
        Shape::LoadToken => names_data_field(operand),
        Shape::CastClass | Shape::IsInstance | Shape::UnboxAny => names_plain(operand),
        Shape::NewArray | Shape::LoadElementAddress => names_element(operand),
        Shape::Box | Shape::Unbox => names_number(operand),
        Shape::LoadIndirect(access) | Shape::StoreIndirect(access) => {
            is_typed_well(access, names_plain(operand))
        }
        Shape::LoadElement(access) | Shape::StoreElement(access) => {
            is_typed_well(access, names_element(operand))
        }
        _ => true,
    }
}

/// The number in the opcode, or the operand.
fn own_or(own: Option<u8>, operand: i64) -> u64
    ensures { result ≡ number_or own operand }
{
    match own {
        Some(number) => u64::from(number),
        None => operand.unsigned_abs(),
    }
}

/// Whether an instruction of a shape, with the number of its operand, is of an argument or a local that there is.
fn counts(shape: Shape, number: i64, facts: &Facts<'_>) -> bool
    ensures { result ≡ counts facts.now shape number }
{
    let arguments = facts.arguments.len() as u64;
    let locals = facts.locals.len() as u64;
    match shape {
        Shape::LoadArgument(own) => own_or(own, number) < arguments,
        Shape::LoadArgumentAddress | Shape::StoreArgument => number.unsigned_abs() < arguments,
        Shape::LoadLocal(own) | Shape::StoreLocal(own) => own_or(own, number) < locals,
        Shape::LoadLocalAddress => number.unsigned_abs() < locals,
        _ => true,
    }
}

/// The rule that an instruction breaks whatever lies on the stack: 46 by its operand, else 47 by the number of an argument or local.
///
/// The opcode is one of the table's. The facts are those of its method and operand.
pub fn broken(op: &Instr, facts: &Facts<'_>) -> Option<u8>
    ensures { (row : Row) → row_of op.now.op ≡ Some row → result ≡ lowest_of_two (operand_fits row.shape facts.now.operand) (numbered (method_by facts.now) (instruction_by row.shape op.now.operand facts.now.operand)) }
{
    let line = row(op.op)?;
    if !operand_fits(line.shape, &facts.operand) {
        Some(WRONG_OPERAND)
    } else if !counts(line.shape, op.operand, facts) {
        Some(OUT_OF_RANGE)
    } else {
        None
    }
}
