//! Types, values and things of the memory that cases write as words.

use crate::images::units_of;
use board_types::board::{BoardType, NO_ROW, TypeAt};
use case_text::{CaseFault, Line, number_of};
use plain_types::elem::Elem;
use std::alloc::Global;
use std::test::Fail;
use tiny_ram::{Ram, RamPlace, Value};

/// The element of a name; `Void` of another text.
fn elem_of(text: &str) -> Elem {
    match text {
        "Bool" => Elem::Bool,
        "Char" => Elem::Char,
        "I1" => Elem::I1,
        "U1" => Elem::U1,
        "I2" => Elem::I2,
        "U2" => Elem::U2,
        "I4" => Elem::I4,
        "U4" => Elem::U4,
        "I8" => Elem::I8,
        "U8" => Elem::U8,
        "String" => Elem::String,
        "Object" => Elem::Object,
        "Class" => Elem::Class,
        _ => Elem::Void,
    }
}

/// The row of a text of decimal digits.
fn row_of(text: &str) -> Result<u16, Fail> {
    Ok((number_of(text)? & 0xFFFF) as u16)
}

/// A row of the only assembly.
fn at_row(row: u16) -> TypeAt {
    TypeAt { assembly: 0, row }
}

/// A type: its element, `[]` behind that of an array, and `@` before its row if it has one.
fn type_of(text: &str) -> Result<BoardType, Fail> {
    let (full, row) = match text.split_once('@') {
        Some((full, row)) => (full, row_of(row)?),
        None => (text, NO_ROW),
    };
    let (elem, ranks) = match full.split_once('[') {
        Some((elem, _)) => (elem, 1),
        None => (full, 0),
    };
    Ok(BoardType {
        ranks,
        elem: elem_of(elem),
        of: at_row(row),
    })
}

/// A thing of a case by the number that is behind its mark, from 1.
fn thing_of(things: &[u32], number: &str) -> Result<u32, Fail> {
    let place = number_of(number)?.wrapping_sub(1);
    Ok(*things.get(place as usize).ok_or("a thing")?)
}

/// The int32 of decimal digits with a sign or none.
fn int_of(text: &str) -> Result<i32, Fail> {
    Ok(text.parse::<i32>().ok().ok_or(CaseFault::NoNumber)?)
}

/// The int64 of decimal digits with a sign or none.
fn long_of(text: &str) -> Result<i64, Fail> {
    Ok(text.parse::<i64>().ok().ok_or(CaseFault::NoNumber)?)
}

/// A value: `null`, `pointer`, `#1` for the first thing, `$0` for the field of row 0, `5L` for an int64, and an int32.
pub fn value_of(things: &[u32], text: &str) -> Result<Value, Fail> {
    if text == "null" {
        return Ok(Value::Ref(0));
    }
    if text == "pointer" {
        return Ok(Value::Pointer(place(1, 0, Elem::I4)));
    }
    if let Some(number) = text.strip_prefix('#') {
        return Ok(Value::Ref(thing_of(things, number)?));
    }
    if let Some(row) = text.strip_prefix('$') {
        return Ok(Value::Handle(at_row(row_of(row)?)));
    }
    match text.strip_suffix('L') {
        Some(number) => Ok(Value::Long(long_of(number)?)),
        None => Ok(Value::Int(int_of(text)?)),
    }
}

/// A place of a thing.
pub fn place(thing: u32, index: u32, elem: Elem) -> RamPlace {
    RamPlace { thing, index, elem }
}

/// Values of words, from a word on.
pub fn values_of(
    alloc: Global,
    things: &[u32],
    words: &str,
    skipped: usize,
) -> Result<Vec<Value>, Fail> {
    let mut values = Vec::new(alloc);
    for word in words.split(' ').skip(skipped) {
        values.push(value_of(things, word)?)?;
    }
    Ok(values)
}

/// How many values there are, of which no case has 2 ^ 16.
fn count_of(values: &[Value]) -> u32 {
    (values.len() & 0xFFFF) as u32
}

/// Puts values into the places of a thing.
fn fill(ram: &mut Ram, thing: u32, elem: Elem, values: &[Value]) {
    for (k, value) in values.iter().enumerate() {
        ram.put(place(thing, (k & 0xFFFF) as u32, elem), *value);
    }
}

/// A new string of units.
fn new_text(ram: &mut Ram, units: &[Value]) -> Result<u32, Fail> {
    let thing = ram.string(count_of(units)).ok().ok_or("room for a string")?;
    fill(ram, thing, Elem::Char, units);
    Ok(thing)
}

/// The units of a word of ASCII, as values.
fn letters_of(alloc: Global, word: &str) -> Result<Vec<Value>, Fail> {
    let mut values = Vec::new(alloc);
    for unit in units_of(alloc, word)?.iter() {
        values.push(Value::Int(i32::from(*unit)))?;
    }
    Ok(values)
}

/// A new array of a type, with its elements.
fn new_array(ram: &mut Ram, of: BoardType, values: &[Value]) -> Result<u32, Fail> {
    let thing = ram
        .array(of, count_of(values))
        .ok()
        .ok_or("room for an array")?;
    fill(ram, thing, of.elem, values);
    Ok(thing)
}

/// A new box of a type, with what it holds.
fn new_box(ram: &mut Ram, of: BoardType, values: &[Value]) -> Result<u32, Fail> {
    let thing = ram.boxed(of).ok().ok_or("room for a box")?;
    fill(ram, thing, of.elem, values);
    Ok(thing)
}

/// Makes the thing of a text: `text abc`, `units 97 98`, `array I4 1 2`, `box I4@3 1`, `object Class@0`, `static`.
fn make(alloc: Global, ram: &mut Ram, things: &[u32], text: &str) -> Result<u32, Fail> {
    let words = Line::of(alloc, text, ' ')?;
    match words.text(0) {
        "text" => new_text(ram, letters_of(alloc, words.text(1))?.as_slice()),
        "units" => new_text(ram, values_of(alloc, things, text, 1)?.as_slice()),
        "array" => {
            let values = values_of(alloc, things, text, 2)?;
            new_array(ram, type_of(words.text(1))?, values.as_slice())
        }
        "box" => {
            let values = values_of(alloc, things, text, 2)?;
            new_box(ram, type_of(words.text(1))?, values.as_slice())
        }
        "object" => Ok(
            ram.object(type_of(words.text(1))?.of, 0)
                .ok()
                .ok_or("room for an object")?,
        ),
        "static" => Ok(ram.static_cell().ok().ok_or("room for a static field")?),
        _ => Err("a kind of thing")?,
    }
}

/// Makes the things of a text with commas between them, and gives their numbers.
pub fn make_all(alloc: Global, ram: &mut Ram, text: &str) -> Result<Vec<u32>, Fail> {
    let mut things = Vec::new(alloc);
    for thing in text.split(',') {
        if thing.trim() != "" {
            let made = make(alloc, ram, things.as_slice(), thing.trim())?;
            things.push(made)?;
        }
    }
    Ok(things)
}
