//! The rows of instructions: what each takes and gives (ECMA-335 III.3, III.4).

ghost use Rattle.std.specs.Prelude.{◌≡◌, true, slice_get};
ghost use Rattle.cil_opcodes.specs.declared.shape.Shape.TheVariants as shape;
ghost use Rattle.code_rules.specs.Rows.{pushing as pushing_row, storing, address_row, return_row};
ghost use Rattle.machine.specs.Program.{Program};
ghost use Rattle.machine_typed.specs.Typing.{loaded as loaded_as};
ghost use Rattle.place_types.specs.Types.{place_of};
ghost use Rattle.verify_ops.specs.Facts.{number_or, result_of, is_void as is_void_type};
ghost use Rattle.verify_ops.specs.Acts.{row_by, Chosen, FindsPlace};
ghost use Rattle.stack_acts.specs.Acts.{IsSpelt};

use crate::facts::Facts;
use crate::members::{
    call, call_virtual, load_field, load_field_address, load_static, load_static_address,
    load_token, new_object, store_field, store_static,
};
use crate::typed::{
    boxed, cast, load_element, load_element_address, load_indirect, load_text, new_array,
    store_element, store_indirect, unboxed, unboxed_any,
};
use cil_opcodes::shape::Shape;
use ecma_types::stack::{PlaceType, StackType};
use place_types::types::{is_plain, loaded, pointee};
use plain_types::elem::Elem;
use stack_acts::row::{Act, Given, Pair, Rest, Row, Single, Wants};

/// An operand token that doesn't resolve or is of a kind that the instruction doesn't take.
pub const WRONG_OPERAND: u8 = 46;
/// A number of an argument or local that there isn't.
pub const OUT_OF_RANGE: u8 = 47;

// The types below are kept; the rows of which that isn't so are written out.
macro_rules! keeps {
    ($pops:expr, $pushes:expr, $act:expr) => {
        Row { pops: $pops, pushes: $pushes, act: $act, rest: Rest::Keeps }
    };
}

macro_rules! pushes {
    ($type:expr) => {
        keeps!(0, 1, Act::Zero(Some(Given::Single(Some($type)))))
    };
}

/// The number in the opcode, or the operand.
fn own_or(own: Option<u8>, operand: i64) -> u64
    ensures { result ≡ number_or own operand }
{
    match own {
        Some(number) => u64::from(number),
        None => operand.unsigned_abs(),
    }
}

/// The place of this number, or rule 47.
fn place_at(places: &[PlaceType], number: u64) -> Result<PlaceType, u8>
    ensures { FindsPlace result (slice_get places.now number) }
{
    match places.get(number as usize) {
        Some(place) => Ok(*place),
        None => Err(OUT_OF_RANGE),
    }
}

/// The value of a place is pushed.
fn load<'a>(place: &PlaceType) -> Row<'a>
    ensures row { (p : Program) → row_by p result ≡ pushing_row true (loaded_as (place_of place.now)) }
    ensures spelt { IsSpelt result.act }
{
    keeps!(0, 1, Act::Zero(Some(Given::Single(loaded(place)))))
}

/// A value that may stand in a place is taken.
fn store<'a>(place: &PlaceType) -> Row<'a>
    ensures row { (p : Program) → row_by p result ≡ storing p true (loaded_as (place_of place.now)) }
    ensures spelt { IsSpelt result.act }
{
    keeps!(1, 0, Act::One(Wants::Fits(loaded(place)), Given::Nothing))
}

/// The address of a place is pushed; a place that holds a pointer, or is of no type that memory has, gives none.
fn address<'a>(place: &PlaceType) -> Row<'a>
    ensures row { (p : Program) → row_by p result ≡ address_row (place_of place.now) }
    ensures spelt { IsSpelt result.act }
{
    if place.pointer || !is_plain(place) {
        return keeps!(0, 1, Act::Zero(None));
    }
    pushes!(StackType::Pointer(*place))
}

/// `ldarg`.
fn load_argument<'a>(own: Option<u8>, number: i64, facts: &Facts<'a>) -> Result<Row<'a>, u8>
    ensures { Chosen facts.now (shape.LoadArgument own) number result }
{
    let place = place_at(facts.arguments, own_or(own, number))?;
    Ok(load(&place))
}

/// `ldarga`.
fn load_argument_address<'a>(number: i64, facts: &Facts<'a>) -> Result<Row<'a>, u8>
    ensures { Chosen facts.now shape.LoadArgumentAddress number result }
{
    let place = place_at(facts.arguments, number.unsigned_abs())?;
    Ok(address(&place))
}

/// `starg`.
fn store_argument<'a>(number: i64, facts: &Facts<'a>) -> Result<Row<'a>, u8>
    ensures { Chosen facts.now shape.StoreArgument number result }
{
    let place = place_at(facts.arguments, number.unsigned_abs())?;
    Ok(store(&place))
}

/// `ldloc`.
fn load_local<'a>(own: Option<u8>, number: i64, facts: &Facts<'a>) -> Result<Row<'a>, u8>
    ensures { Chosen facts.now (shape.LoadLocal own) number result }
{
    let place = place_at(facts.locals, own_or(own, number))?;
    Ok(load(&place))
}

/// `ldloca`.
fn load_local_address<'a>(number: i64, facts: &Facts<'a>) -> Result<Row<'a>, u8>
    ensures { Chosen facts.now shape.LoadLocalAddress number result }
{
    let place = place_at(facts.locals, number.unsigned_abs())?;
    Ok(address(&place))
}

/// `stloc`.
fn store_local<'a>(own: Option<u8>, number: i64, facts: &Facts<'a>) -> Result<Row<'a>, u8>
    ensures { Chosen facts.now (shape.StoreLocal own) number result }
{
    let place = place_at(facts.locals, own_or(own, number))?;
    Ok(store(&place))
}

/// Whether a result is void.
pub fn is_void(of: &PlaceType) -> bool
    ensures { result ≡ is_void_type of.now }
{
    !of.pointer && of.ranks == 0 && of.elem == Elem::Void
}

/// The method's result is taken, and nothing else may be there.
fn returning<'a>(facts: &Facts<'a>) -> Row<'a>
    ensures row { (p : Program) → row_by p result ≡ return_row p (result_of facts.now.result) }
    ensures spelt { IsSpelt result.act }
{
    if is_void(&facts.result) {
        return Row {
            pops: 0,
            pushes: 0,
            act: Act::Zero(Some(Given::Nothing)),
            rest: Rest::WantsNone,
        };
    }
    Row {
        pops: 1,
        pushes: 0,
        act: Act::One(Wants::Fits(loaded(&facts.result)), Given::Nothing),
        rest: Rest::WantsNone,
    }
}

/// The row of an instruction, by its shape, the number of its operand and what is known of it; or the rule, 46 or 47, that it
/// breaks whatever lies on the stack.
pub fn row_for<'a>(shape: Shape, number: i64, facts: &Facts<'a>) -> Result<Row<'a>, u8>
    ensures { Chosen facts.now shape number result }
{
    match shape {
        Shape::Nop | Shape::Branch => Ok(keeps!(0, 0, Act::Zero(Some(Given::Nothing)))),
        Shape::LoadArgument(own) => load_argument(own, number, facts),
        Shape::LoadArgumentAddress => load_argument_address(number, facts),
        Shape::StoreArgument => store_argument(number, facts),
        Shape::LoadLocal(own) => load_local(own, number, facts),
        Shape::StoreLocal(own) => store_local(own, number, facts),
        Shape::LoadLocalAddress => load_local_address(number, facts),
        Shape::LoadNull => Ok(pushes!(StackType::Null)),
        Shape::LoadInt32(_) => Ok(pushes!(StackType::I)),
        Shape::LoadInt64 => Ok(pushes!(StackType::L)),
        Shape::Duplicate => Ok(keeps!(1, 2, Act::Single(Single::Duplicate))),
        Shape::Pop => Ok(keeps!(1, 0, Act::One(Wants::Anything, Given::Nothing))),
        Shape::Call => call(facts),
        Shape::CallVirtual => call_virtual(facts),
        Shape::NewObject => new_object(facts),
        Shape::Return => Ok(returning(facts)),
        Shape::BranchIf(_) => Ok(keeps!(1, 0, Act::One(Wants::Condition, Given::Nothing))),
        Shape::BranchCompare(comparison, _) => Ok(keeps!(
            2,
            0,
            Act::Pair(Pair::BranchCompare(comparison))
        )),
        Shape::Switch => Ok(keeps!(1, 0, Act::One(Wants::Int, Given::Nothing))),
        Shape::LoadIndirect(access) => load_indirect(access, facts),
        Shape::StoreIndirect(access) => store_indirect(access, facts),
        Shape::Binary(_) => Ok(keeps!(2, 1, Act::Pair(Pair::Binary))),
        Shape::Shift(_) => Ok(keeps!(2, 1, Act::Pair(Pair::Shift))),
        Shape::Unary(_) => Ok(keeps!(1, 1, Act::Single(Single::Unary))),
        Shape::Compare(comparison) => Ok(keeps!(2, 1, Act::Pair(Pair::Compare(comparison)))),
        Shape::Convert(integer) | Shape::ConvertChecked(integer, _) => Ok(keeps!(
            1,
            1,
            Act::Single(Single::Convert(integer))
        )),
        Shape::LoadString => load_text(facts),
        Shape::CastClass | Shape::IsInstance => cast(facts),
        Shape::Box => boxed(facts),
        Shape::Unbox => unboxed(facts),
        Shape::UnboxAny => unboxed_any(facts),
        Shape::Throw => Ok(Row {
            pops: 1,
            pushes: 0,
            act: Act::One(
                Wants::Fits(Some(StackType::O(facts.exception))),
                Given::Nothing,
            ),
            rest: Rest::Drops,
        }),
        Shape::Rethrow | Shape::Leave => Ok(Row {
            pops: 0,
            pushes: 0,
            act: Act::Zero(Some(Given::Nothing)),
            rest: Rest::Drops,
        }),
        Shape::EndFinally => Ok(Row {
            pops: 0,
            pushes: 0,
            act: Act::Zero(Some(Given::Nothing)),
            rest: Rest::WantsNone,
        }),
        Shape::LoadField => load_field(facts),
        Shape::LoadFieldAddress => load_field_address(facts),
        Shape::StoreField => store_field(facts),
        Shape::LoadStatic => load_static(facts),
        Shape::LoadStaticAddress => load_static_address(facts),
        Shape::StoreStatic => store_static(facts),
        Shape::NewArray => new_array(facts),
        Shape::LoadLength => Ok(keeps!(1, 1, Act::Single(Single::LoadLength))),
        Shape::LoadElement(access) => load_element(access, facts),
        Shape::StoreElement(access) => store_element(access, facts),
        Shape::LoadElementAddress => load_element_address(facts),
        Shape::LoadToken => load_token(facts),
    }
}
