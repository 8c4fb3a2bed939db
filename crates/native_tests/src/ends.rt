//! The ends of natives in words.

use crate::things::place;
use board_types::value::Value;
use plain_types::elem::Elem;
use std::alloc::Global;
use std::test::Fail;
use tiny_native::NativeEnd;
use tiny_ram::Ram;

/// What `Shape::what` is of arrays.
const ARRAY: u8 = 1;

/// What `Shape::what` is of strings.
const STRING: u8 = 2;

/// A memory, and the things that a case made in it, in their order.
#[derive(Clone, Copy)]
pub struct Seen<'a> {
    pub ram: &'a Ram,
    pub things: &'a [u32],
}

/// A unit: itself, if it is a letter, digit or mark of ASCII, and else its number.
fn add_unit(alloc: Global, said: &mut String, unit: u32) -> Result<(), Fail> {
    match char::from_u32(unit) {
        Some(letter) if unit > 0x20 && unit < 0x7F => said.push(letter)?,
        _ => said.push_str(format!(in alloc; "<{unit}>")?.as_str())?,
    }
    Ok(())
}

/// The units of a string.
fn text_of(alloc: Global, ram: &Ram, thing: u32) -> Result<String, Fail> {
    let mut said = String::new(alloc);
    for k in 0..ram.shape(thing).count {
        match ram.get(place(thing, k, Elem::Char)) {
            Value::Int(unit) => add_unit(alloc, &mut said, unit.cast_unsigned())?,
            _ => said.push('?')?,
        }
    }
    Ok(said)
}

/// A thing of the case by its number, from 1, and none of one that the case didn't make.
fn number_in(things: &[u32], thing: u32) -> Option<usize> {
    let place = things.iter().position(|made| *made == thing)?;
    Some(place.wrapping_add(1))
}

/// A thing: `null`, `#1` for the first of the case, and of a new string its text.
fn thing_told(alloc: Global, seen: Seen<'_>, thing: u32) -> Result<String, Fail> {
    if thing == 0 {
        return Ok(format!(in alloc; "null")?);
    }
    if let Some(number) = number_in(seen.things, thing) {
        return Ok(format!(in alloc; "#{number}")?);
    }
    if seen.ram.shape(thing).what != STRING {
        return Ok(format!(in alloc; "no string")?);
    }
    let text = text_of(alloc, seen.ram, thing)?;
    Ok(format!(in alloc; "\"{}\"", text.as_str())?)
}

fn value_told(alloc: Global, seen: Seen<'_>, value: Value) -> Result<String, Fail> {
    match value {
        Value::Int(number) => Ok(format!(in alloc; "{number}")?),
        Value::Long(number) => Ok(format!(in alloc; "{number}L")?),
        Value::Ref(thing) => thing_told(alloc, seen, thing),
        Value::Pointer(_) => Ok(format!(in alloc; "pointer")?),
        Value::Handle(field) => Ok(format!(in alloc; "${}", field.row)?),
    }
}

/// An end: `gives` and a value or nothing, `prints` and a string, `throws` and a class, `spent` or `no case`.
pub fn end_told(alloc: Global, seen: Seen<'_>, end: NativeEnd) -> Result<String, Fail> {
    match end {
        NativeEnd::Gives(None) => Ok(format!(in alloc; "gives nothing")?),
        NativeEnd::Gives(Some(value)) => {
            let value = value_told(alloc, seen, value)?;
            Ok(format!(in alloc; "gives {}", value.as_str())?)
        }
        NativeEnd::Prints(thing) => {
            let text = thing_told(alloc, seen, thing)?;
            Ok(format!(in alloc; "prints {}", text.as_str())?)
        }
        NativeEnd::Throws(known) => Ok(format!(in alloc; "throws {known:?}")?),
        NativeEnd::Spent => Ok(format!(in alloc; "spent")?),
        NativeEnd::NoCase => Ok(format!(in alloc; "no case")?),
    }
}

/// Adds what the elements of the array are that a value names, behind a colon; nothing of another value.
pub fn add_elements(
    alloc: Global,
    said: &mut String,
    seen: Seen<'_>,
    array: Value,
) -> Result<(), Fail> {
    let Value::Ref(thing) = array else {
        return Ok(());
    };
    let shape = seen.ram.shape(thing);
    if thing == 0 || shape.what != ARRAY {
        return Ok(());
    }
    said.push(':')?;
    for k in 0..shape.count {
        let value = seen.ram.get(place(thing, k, shape.of.elem));
        said.push(' ')?;
        said.push_str(value_told(alloc, seen, value)?.as_str())?;
    }
    Ok(())
}
