//! Cases of natives, a line a case: a name; the things that are made first; the number of the native and its arguments; its end, and behind
//! that of `Array.Copy` and `InitializeArray` the elements of their array; the cells of the memory, if they aren't 64.

use crate::ends::{Seen, add_elements, end_told};
use crate::images::{Images, all_images};
use crate::things::{make_all, values_of};
use board_types::value::Value;
use case_text::{Line, lines_of, number_of};
use std::alloc::Global;
use std::process::Abort;
use std::test::Fail;
use tiny_native::call;
use tiny_ram::Ram;

/// The cells of a memory whose case doesn't tell them.
const CELLS: u32 = 64;

/// The number of `Array.Copy`.
const COPY: u16 = 5;

/// The number of `RuntimeHelpers.InitializeArray`.
const INITIALIZE: u16 = 16;

/// The array that a native puts elements into, if it does.
fn target(number: u16, values: &[Value]) -> Option<Value> {
    match number {
        COPY => values.get(2).copied(),
        INITIALIZE => values.first().copied(),
        _ => None,
    }
}

fn cells_of(line: &Line<'_>) -> Result<u32, Fail> {
    match line.text(4) {
        "" => Ok(CELLS),
        cells => Ok(number_of(cells)?),
    }
}

/// The native's number, the first word.
fn native_of(words: &str) -> Result<u16, Fail> {
    let number = words.split(' ').next().ok_or("a number")?;
    Ok((number_of(number)? & 0xFFFF) as u16)
}

/// What a case comes to.
fn told(alloc: Global, types: &Images, line: &Line<'_>) -> Result<String, Fail> {
    let mut ram = Ram::new(alloc, cells_of(line)?)?;
    let things = make_all(alloc, &mut ram, line.text(1))?;
    let values = values_of(alloc, things.as_slice(), line.text(2), 1)?;
    let number = native_of(line.text(2))?;
    let end = call(&mut ram, types, number, values.as_slice());
    let seen = Seen {
        ram: &ram,
        things: things.as_slice(),
    };
    let mut said = end_told(alloc, seen, end)?;
    if let Some(array) = target(number, values.as_slice()) {
        add_elements(alloc, &mut said, seen, array)?;
    }
    Ok(said)
}

/// Runs the case of each line.
pub fn run(rt: &impl Abort, alloc: Global, cases: &str) -> Result<(), Fail> {
    let types = all_images(alloc)?;
    let lines = lines_of(alloc, cases, '|')?;
    for line in lines.as_slice() {
        let said = told(alloc, &types, line)?;
        assert_eq!(rt; said.as_str(), line.text(3), "{}", line.text(0));
    }
    Ok(())
}
