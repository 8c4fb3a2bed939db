//! Rows of the instructions that name a type: memory, arrays, casts and boxes (ECMA-335 III.3.42, III.3.62, III.4).

ghost use Rattle.std.specs.Prelude.{◌≡◌, ℤ};
ghost use Rattle.cil_opcodes.specs.declared.shape.Shape.TheVariants as shape;
ghost use Rattle.verify_ops.specs.Acts.{Chosen, NamesPlain, NamesNumber, NamesElement, FindsMemory, FindsElement};

use crate::facts::{Facts, Operand};
use crate::table::WRONG_OPERAND;
use cil_opcodes::shape::Access;
use ecma_types::id::TypeId;
use ecma_types::stack::{PlaceType, StackType};
use place_types::held::{ArrayOperand, Held};
use place_types::types::{array_of, is_number, is_plain, pointee, value_type};
use plain_types::elem::Elem;
use stack_acts::row::{Act, Element, Given, Memory, Pair, Rest, Row, Single, Wants};

// The types below are kept.
macro_rules! keeps {
    ($pops:expr, $pushes:expr, $act:expr) => {
        Row {
            pops: $pops,
            pushes: $pushes,
            act: $act,
            rest: Rest::Keeps,
        }
    };
}

/// The type that the operand names, if it is a primitive, an enum or a reference type.
fn plain_type(operand: &Operand<'_>) -> Result<PlaceType, u8>
    ensures { NamesPlain operand.now result }
{
    match operand {
        Operand::OfType(of) if is_plain(of) => Ok(*of),
        _ => Err(WRONG_OPERAND),
    }
}

/// The type that the operand names, if it is a primitive or an enum.
fn number_type(operand: &Operand<'_>) -> Result<PlaceType, u8>
    ensures { NamesNumber operand.now result }
{
    match operand {
        Operand::OfType(of) if is_number(of) => Ok(*of),
        _ => Err(WRONG_OPERAND),
    }
}

/// The element type that the operand names, with its arrays.
fn element_type(operand: &Operand<'_>) -> Result<ArrayOperand, u8>
    ensures { NamesElement operand.now result }
{
    let element = plain_type(operand)?;
    match array_of(&element) {
        Some(array) => Ok(ArrayOperand { element, array }),
        None => Err(WRONG_OPERAND),
    }
}

/// How memory is accessed.
fn memory(access: Access, operand: &Operand<'_>) -> Result<Memory, u8>
    ensures { FindsMemory access operand.now result }
{
    match access {
        Access::Integer(integer) => Ok(Memory::Exact(Held::Number(integer))),
        Access::Reference => Ok(Memory::Exact(Held::Reference)),
        Access::Typed => Ok(Memory::Typed(plain_type(operand)?)),
    }
}

/// How an element is accessed.
fn element(access: Access, operand: &Operand<'_>) -> Result<Element, u8>
    ensures { FindsElement access operand.now result }
{
    match access {
        Access::Integer(integer) => Ok(Element::Exact(Held::Number(integer))),
        Access::Reference => Ok(Element::Exact(Held::Reference)),
        Access::Typed => Ok(Element::Typed(element_type(operand)?)),
    }
}

/// `ldind` and `ldobj`.
pub fn load_indirect<'a>(access: Access, facts: &Facts<'a>) -> Result<Row<'a>, u8>
    ensures { (n : ℤ) → Chosen facts.now (shape.LoadIndirect access) n result }
{
    let memory = memory(access, &facts.operand)?;
    Ok(keeps!(1, 1, Act::Single(Single::LoadIndirect(memory))))
}

/// `stind` and `stobj`.
pub fn store_indirect<'a>(access: Access, facts: &Facts<'a>) -> Result<Row<'a>, u8>
    ensures { (n : ℤ) → Chosen facts.now (shape.StoreIndirect access) n result }
{
    let memory = memory(access, &facts.operand)?;
    Ok(keeps!(2, 0, Act::Pair(Pair::StoreIndirect(memory))))
}

/// `ldelem`.
pub fn load_element<'a>(access: Access, facts: &Facts<'a>) -> Result<Row<'a>, u8>
    ensures { (n : ℤ) → Chosen facts.now (shape.LoadElement access) n result }
{
    let element = element(access, &facts.operand)?;
    Ok(keeps!(2, 1, Act::Pair(Pair::LoadElement(element))))
}

/// `stelem`.
pub fn store_element<'a>(access: Access, facts: &Facts<'a>) -> Result<Row<'a>, u8>
    ensures { (n : ℤ) → Chosen facts.now (shape.StoreElement access) n result }
{
    let element = element(access, &facts.operand)?;
    Ok(keeps!(3, 0, Act::StoreElement(element)))
}

/// `ldelema`.
pub fn load_element_address<'a>(facts: &Facts<'a>) -> Result<Row<'a>, u8>
    ensures { (n : ℤ) → Chosen facts.now shape.LoadElementAddress n result }
{
    let operand = element_type(&facts.operand)?;
    Ok(keeps!(2, 1, Act::Pair(Pair::LoadElementAddress(operand))))
}

/// `newarr`.
pub fn new_array<'a>(facts: &Facts<'a>) -> Result<Row<'a>, u8>
    ensures { (n : ℤ) → Chosen facts.now shape.NewArray n result }
{
    let operand = element_type(&facts.operand)?;
    let given = Given::Single(Some(StackType::O(operand.array)));
    Ok(keeps!(1, 1, Act::One(Wants::Int, given)))
}

/// `castclass` and `isinst`.
pub fn cast<'a>(facts: &Facts<'a>) -> Result<Row<'a>, u8>
    ensures class { (n : ℤ) → Chosen facts.now shape.CastClass n result }
    ensures instance { (n : ℤ) → Chosen facts.now shape.IsInstance n result }
{
    let of = plain_type(&facts.operand)?;
    let given = Given::Single(Some(StackType::O(pointee(&of))));
    Ok(keeps!(1, 1, Act::One(Wants::Reference, given)))
}

/// `box`.
pub fn boxed<'a>(facts: &Facts<'a>) -> Result<Row<'a>, u8>
    ensures { (n : ℤ) → Chosen facts.now shape.Box n result }
{
    let of = number_type(&facts.operand)?;
    let wanted = Wants::Fits(value_type(&of));
    let given = Given::Single(Some(StackType::O(pointee(&of))));
    Ok(keeps!(1, 1, Act::One(wanted, given)))
}

/// `unbox`.
pub fn unboxed<'a>(facts: &Facts<'a>) -> Result<Row<'a>, u8>
    ensures { (n : ℤ) → Chosen facts.now shape.Unbox n result }
{
    let of = number_type(&facts.operand)?;
    let given = Given::Single(Some(StackType::Pointer(pointee(&of))));
    Ok(keeps!(1, 1, Act::One(Wants::Reference, given)))
}

/// `unbox.any`.
pub fn unboxed_any<'a>(facts: &Facts<'a>) -> Result<Row<'a>, u8>
    ensures { (n : ℤ) → Chosen facts.now shape.UnboxAny n result }
{
    let of = plain_type(&facts.operand)?;
    let given = Given::Single(value_type(&of));
    Ok(keeps!(1, 1, Act::One(Wants::Reference, given)))
}

/// System.String.
const STRING: PlaceType = PlaceType {
    pointer: false,
    ranks: 0,
    elem: Elem::String,
    of: TypeId { file: 0, row: 0 },
};

/// `ldstr`.
pub fn load_text<'a>(facts: &Facts<'a>) -> Result<Row<'a>, u8>
    ensures { (n : ℤ) → Chosen facts.now shape.LoadString n result }
{
    match &facts.operand {
        Operand::Text => {
            let given = Given::Single(Some(StackType::O(STRING)));
            Ok(keeps!(0, 1, Act::Zero(Some(given))))
        }
        _ => Err(WRONG_OPERAND),
    }
}
