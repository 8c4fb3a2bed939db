//! Rows of the instructions that name a field or a method (ECMA-335 III.3.19, III.4.2, III.4.10, III.4.17, III.4.21).

ghost use Rattle.std.specs.Prelude.{◌≡◌, ℤ, true};
ghost use Rattle.cil_opcodes.specs.declared.shape.Shape.TheVariants as shape;
ghost use Rattle.machine.specs.Data.{ClassOf};
ghost use Rattle.machine.specs.Program.{Program};
ghost use Rattle.code_rules.specs.Rows.{call_row, result_row};
ghost use Rattle.place_types.specs.Types.{type_of, id_of};
ghost use Rattle.verify_ops.specs.Facts.{is_callable as may_be_called, is_instance_field as is_of_instance, is_static_field as is_of_class, is_data_field as has_data, is_new as makes_new, is_made as makes_objects, this_place as place_of_this, callee, result_of};
ghost use Rattle.verify_ops.specs.Acts.{Chosen, NamesField, row_by};
ghost use Rattle.stack_acts.specs.Acts.{IsSpelt, types_given};

use crate::facts::{Facts, FieldOperand, MethodOperand, Operand};
use crate::table::{WRONG_OPERAND, is_void};
use ecma_types::stack::{PlaceType, StackType};
use file_tables::bytes::has_bit;
use place_types::types::{is_plain, is_reference, loaded, pointee, value_type};
use plain_types::elem::Elem;
use stack_acts::row::{Act, Given, Rest, Row, Wants};

// The types below are kept.
macro_rules! keeps {
    ($pops:expr, $pushes:expr, $act:expr) => {
        Row {
            pops: $pops,
            pushes: $pushes,
            act: $act,
            rest: Rest::Keeps,
        }
    };
}

/// The bit of a static field or method (II.23.1.5, II.23.1.10).
const STATIC: u32 = 4;
/// The bit of a literal (II.23.1.5).
const LITERAL: u32 = 6;
/// The bit of a field that has data in the file (II.23.1.5).
const HAS_DATA: u32 = 8;
/// The bit of an abstract method (II.23.1.10).
const ABSTRACT: u32 = 10;
/// The bit of an interface (II.23.1.15).
const INTERFACE: u32 = 5;
/// The bit of an abstract class (II.23.1.15).
const ABSTRACT_CLASS: u32 = 7;

/// Whether it is an instance field of a class.
fn is_instance_field(field: &FieldOperand) -> bool
    ensures { result ≡ is_of_instance field.now }
{
    !has_bit(u64::from(field.flags), STATIC) && is_reference(&field.class)
}

/// Whether it is a static field that is neither a literal nor a data field.
fn is_static_field(field: &FieldOperand) -> bool
    ensures { result ≡ is_of_class field.now }
{
    let flags = u64::from(field.flags);
    has_bit(flags, STATIC) && !has_bit(flags, HAS_DATA) && !has_bit(flags, LITERAL)
}

/// Whether it is a static field with data in the file.
fn is_data_field(field: &FieldOperand) -> bool
    ensures { result ≡ has_data field.now }
{
    let flags = u64::from(field.flags);
    has_bit(flags, STATIC) && has_bit(flags, HAS_DATA)
}

/// The field that the operand names, if the test holds of it.
fn instance_field(operand: &Operand<'_>) -> Result<FieldOperand, u8>
    ensures { NamesField operand.now is_of_instance result }
{
    match operand {
        Operand::Field(field) if is_instance_field(field) => Ok(*field),
        _ => Err(WRONG_OPERAND),
    }
}

/// The static field that the operand names.
fn static_field(operand: &Operand<'_>) -> Result<FieldOperand, u8>
    ensures { NamesField operand.now is_of_class result }
{
    match operand {
        Operand::Field(field) if is_static_field(field) => Ok(*field),
        _ => Err(WRONG_OPERAND),
    }
}

/// The class that a row names, by its row.
fn class_of(class: &PlaceType) -> PlaceType
    ensures { type_of result ≡ ClassOf (id_of class.now.of) }
{
    PlaceType {
        pointer: false,
        ranks: 0,
        elem: Elem::Class,
        of: class.of,
    }
}

/// `ldfld`.
pub fn load_field<'a>(facts: &Facts<'a>) -> Result<Row<'a>, u8>
    ensures { (n : ℤ) → Chosen facts.now shape.LoadField n result }
{
    let field = instance_field(&facts.operand)?;
    let given = Given::Single(value_type(&field.of));
    let wanted = Wants::Fits(Some(StackType::O(class_of(&field.class))));
    Ok(keeps!(1, 1, Act::One(wanted, given)))
}

/// `ldflda`.
pub fn load_field_address<'a>(facts: &Facts<'a>) -> Result<Row<'a>, u8>
    ensures { (n : ℤ) → Chosen facts.now shape.LoadFieldAddress n result }
{
    let field = instance_field(&facts.operand)?;
    let given = Given::Single(Some(StackType::Pointer(pointee(&field.of))));
    let wanted = Wants::Fits(Some(StackType::O(class_of(&field.class))));
    Ok(keeps!(1, 1, Act::One(wanted, given)))
}

/// `stfld`.
pub fn store_field<'a>(facts: &Facts<'a>) -> Result<Row<'a>, u8>
    ensures { (n : ℤ) → Chosen facts.now shape.StoreField n result }
{
    let field = instance_field(&facts.operand)?;
    let value = Wants::Fits(value_type(&field.of));
    let wanted = Wants::Fits(Some(StackType::O(class_of(&field.class))));
    Ok(keeps!(2, 0, Act::Two(wanted, value)))
}

/// `ldsfld`.
pub fn load_static<'a>(facts: &Facts<'a>) -> Result<Row<'a>, u8>
    ensures { (n : ℤ) → Chosen facts.now shape.LoadStatic n result }
{
    let field = static_field(&facts.operand)?;
    if !is_plain(&field.of) {
        return Err(WRONG_OPERAND);
    }
    let given = Given::Single(value_type(&field.of));
    Ok(keeps!(0, 1, Act::Zero(Some(given))))
}

/// `ldsflda`.
pub fn load_static_address<'a>(facts: &Facts<'a>) -> Result<Row<'a>, u8>
    ensures { (n : ℤ) → Chosen facts.now shape.LoadStaticAddress n result }
{
    let field = static_field(&facts.operand)?;
    if !is_plain(&field.of) {
        return Err(WRONG_OPERAND);
    }
    let given = Given::Single(Some(StackType::Pointer(pointee(&field.of))));
    Ok(keeps!(0, 1, Act::Zero(Some(given))))
}

/// `stsfld`.
pub fn store_static<'a>(facts: &Facts<'a>) -> Result<Row<'a>, u8>
    ensures { (n : ℤ) → Chosen facts.now shape.StoreStatic n result }
{
    let field = static_field(&facts.operand)?;
    if !is_plain(&field.of) {
        return Err(WRONG_OPERAND);
    }
    let wanted = Wants::Fits(value_type(&field.of));
    Ok(keeps!(1, 0, Act::One(wanted, Given::Nothing)))
}

/// `ldtoken`.
pub fn load_token<'a>(facts: &Facts<'a>) -> Result<Row<'a>, u8>
    ensures { (n : ℤ) → Chosen facts.now shape.LoadToken n result }
{
    match &facts.operand {
        Operand::Field(field) if is_data_field(field) => {
            let given = Given::Single(Some(StackType::H));
            Ok(keeps!(0, 1, Act::Zero(Some(given))))
        }
        _ => Err(WRONG_OPERAND),
    }
}

/// `this` of a method of a class: a reference, or of a value type a pointer.
fn this_place(class: &PlaceType) -> PlaceType
    ensures { result ≡ place_of_this class.now }
{
    PlaceType {
        pointer: !is_reference(class),
        ..*class
    }
}

/// Whether `callvirt` takes the method.
fn is_callable(method: &MethodOperand<'_>) -> bool
    ensures { result ≡ may_be_called method.now }
{
    !has_bit(u64::from(method.flags), STATIC) && method.this && is_reference(&method.class)
}

/// Whether objects are made of the class.
fn is_made(class: &PlaceType, flags: u32) -> bool
    ensures { result ≡ makes_objects class.now flags }
{
    let flags = u64::from(flags);
    let is_one = class.ranks == 0 && class.elem != Elem::String && is_reference(class);
    is_one && !has_bit(flags, ABSTRACT_CLASS) && !has_bit(flags, INTERFACE)
}

/// What a result gives.
fn returned(returns: &PlaceType) -> Given
    ensures { types_given result ≡ result_row (result_of returns.now) }
{
    if is_void(returns) {
        Given::Nothing
    } else {
        Given::Single(loaded(returns))
    }
}

/// The arguments go, the result comes.
fn calling<'a>(method: &MethodOperand<'a>) -> Row<'a>
    ensures row { (p : Program) → row_by p result ≡ call_row p true (callee method.now) }
    ensures spelt { IsSpelt result.act }
{
    let this = if method.this {
        Some(this_place(&method.class))
    } else {
        None
    };
    let act = Act::Call {
        this,
        params: method.params,
        gives: returned(&method.returns),
    };
    let pops = method.params.len() + usize::from(method.this);
    keeps!(pops, u8::from(!is_void(&method.returns)), act)
}

/// `call`.
pub fn call<'a>(facts: &Facts<'a>) -> Result<Row<'a>, u8>
    ensures { (n : ℤ) → Chosen facts.now shape.Call n result }
{
    match &facts.operand {
        Operand::Method(method) if !has_bit(u64::from(method.flags), ABSTRACT) => {
            Ok(calling(method))
        }
        _ => Err(WRONG_OPERAND),
    }
}

/// `callvirt`.
pub fn call_virtual<'a>(facts: &Facts<'a>) -> Result<Row<'a>, u8>
    ensures { (n : ℤ) → Chosen facts.now shape.CallVirtual n result }
{
    match &facts.operand {
        Operand::Method(method) if is_callable(method) => Ok(calling(method)),
        _ => Err(WRONG_OPERAND),
    }
}

/// Whether `newobj` takes the method: a constructor with a body, which gives nothing back, of a class of which objects are made.
fn is_new(method: &MethodOperand<'_>) -> bool
    ensures { result ≡ makes_new method.now }
{
    let is_constructor = method.constructor && method.this;
    let gives_nothing = is_void(&method.returns) && !has_bit(u64::from(method.flags), ABSTRACT);
    is_constructor && is_made(&method.class, method.class_flags) && gives_nothing
}

/// `newobj`.
pub fn new_object<'a>(facts: &Facts<'a>) -> Result<Row<'a>, u8>
    ensures { (n : ℤ) → Chosen facts.now shape.NewObject n result }
{
    match &facts.operand {
        Operand::Method(method) if is_new(method) => {
            let act = Act::New {
                class: class_of(&method.class),
                this: this_place(&method.class),
                params: method.params,
            };
            Ok(keeps!(method.params.len(), 1, act))
        }
        _ => Err(WRONG_OPERAND),
    }
}
