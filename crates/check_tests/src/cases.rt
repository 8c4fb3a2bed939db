//! Cases in lines: rows behind a program, and what is told of it.

use crate::program::{FRONT, MAIN};
use crate::told::told_of;
use assembly_rows::lines::{Assembly, made};
use case_text::{Line, hex_of, lines_of};
use plain_types::fault::{Fault, Place};
use std::alloc::Global;
use std::process::Abort;
use std::test::Fail;

/// What a column tells: file, rule, table, row and offset, the rule in decimal digits; or `-` for nothing.
pub fn fault_of(alloc: Global, line: &Line<'_>) -> Result<Option<Fault>, Fail> {
    let Some(text) = line.option(0) else {
        return Ok(None);
    };
    let told = Line::of(alloc, text, ' ')?;
    let place = Place {
        file: u16::from(told.byte(0)?),
        table: told.byte(2)?,
        row: told.hex(3)?,
        offset: told.hex(4)?,
    };
    let rule = told.text(1).parse::<u8>().ok().ok_or("a rule")?;
    Ok(Some(Fault { rule, place }))
}

/// The token of the program's entry.
fn entry_of(text: &str) -> Result<u32, Fail> {
    if text == "" {
        Ok(MAIN)
    } else {
        Ok(hex_of(text)?)
    }
}

/// What is told of a line's program, which is file 2.
fn told_of_line(alloc: Global, line: &Line<'_>) -> Result<Option<Fault>, Fail> {
    let program = Assembly {
        name: "App",
        entry: entry_of(line.text(4))?,
        front: FRONT,
        rows: line.text(2),
        changes: line.text(3),
    };
    told_of(alloc, made(alloc, &program)?)
}

/// Cases of a line each, with `:` between the columns: what is told, a name, rows behind the program, changes of its bytes, and its
/// entry, where that isn't Main.
pub fn cases_are_told(rt: &(impl Abort + AllocGlobal), cases: &str) -> Result<(), Fail> {
    let alloc = rt.alloc();
    let lines = lines_of(alloc, cases, ':')?;
    for line in lines.as_slice() {
        let told = told_of_line(alloc, line)?;
        assert_eq!(rt; told, fault_of(alloc, line)?, "{}", line.text(1));
    }
    Ok(())
}
