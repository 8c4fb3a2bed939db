//! Cases in lines, and the verdicts on them.

use crate::stage::STAGE;
use assembly_rows::change::Change::Column;
use assembly_rows::change::Value::More;
use assembly_rows::change::changed;
use assembly_rows::lines::{add_lines, add_rows, change_file};
use assembly_rows::made::{Asked, add};
use base_lib::files;
use case_text::{Line, lines_of};
use cil_build::build::Build;
use cil_layout::rows::{METHOD_DEF, TYPE_DEF};
use cil_verify::{Verdict, verdict};
use cil_world::World;
use plain_types::fault::{Fault, Place};
use std::alloc::Global;
use std::test::Fail;

/// A case: its name, the verdict on it, and the one that is wanted.
#[derive(Clone, Copy)]
pub struct Case<'a> {
    pub name: &'a str,
    pub told: Verdict,
    pub wanted: Verdict,
}

/// The token of the stage's Main.
const MAIN: u32 = 0x0600_0001;

/// The unit of the stage's one literal.
const LITERAL: [u16; 1] = [0x41];

/// The stage's Derived.
const DERIVED: u32 = 0x0200_0004;

/// The stage: the rows that all cases share.
fn stage_of(alloc: Global) -> Result<Build, Fail> {
    let mut build = Build::new(alloc, "App", [1, 0, 0, 0])?;
    add_lines(&mut build, alloc, STAGE)?;
    let _token = build
        .user_text(alloc, &LITERAL)
        .ok()
        .ok_or("there is room")?;
    build.set_entry(MAIN);
    Ok(build)
}

fn finished(alloc: Global, build: Build) -> Result<Vec<u8>, Fail> {
    Ok(build.finish(alloc).ok().ok_or("there is room")?)
}

/// The base library's two files, the first of them changed.
fn library_with(alloc: Global, changes: &str) -> Result<Vec<Vec<u8>>, Fail> {
    let mut all = files(alloc)?;
    let first = all.get_mut(0).ok_or("the library has two files")?;
    change_file(first, alloc, changes)?;
    Ok(all)
}

/// The verdict on a file behind the base library, whose first file is changed.
fn told_of(alloc: Global, changes: &str, file: Vec<u8>) -> Result<Verdict, Fail> {
    let mut all = library_with(alloc, changes)?;
    all.push(file)?;
    if all.len() < 2 || all.len() > 1002 {
        None.ok_or("so few files")?
    }
    let world = World::new(alloc, all.as_slice())
        .ok()
        .ok_or("no rule of 1 to 13 is broken")?;
    Ok(verdict(alloc, &world)?)
}

/// What a line wants, of a row of the assembly, which is file 2: a rule and an offset in decimal digits, or `-` for accepted.
fn wanted(alloc: Global, table: u8, row: u32, line: &Line<'_>) -> Result<Verdict, Fail> {
    let Some(told) = line.option(0) else {
        return Ok(Verdict::Accepted);
    };
    let told = Line::of(alloc, told, ' ')?;
    let place = Place {
        file: 2,
        table,
        row,
        offset: told.number(1)?,
    };
    let rule = told.text(0).parse::<u8>().ok().ok_or("a rule")?;
    Ok(Verdict::Refused(Fault { rule, place }))
}

/// The flags of a method: public, and static where its signature has no `this` (ECMA-335 II.23.1.10).
fn flags_of(sig: &[u8]) -> u16 {
    match sig.first() {
        Some(0x20) => 0x0086,
        _ => 0x0096,
    }
}

/// Adds a class below the stage's Derived.
fn add_class(build: &mut Build, alloc: Global, name: &str) -> Result<(), Fail> {
    let class = Asked::Type {
        flags: 0x0010_0001,
        namespace: "Cases",
        name,
        extends: DERIVED,
    };
    let _token = add(build, alloc, &class).ok().ok_or("there is room")?;
    Ok(())
}

/// Adds a line's method, in a class of its own, which has the line's name.
fn add_method(build: &mut Build, alloc: Global, line: &Line<'_>) -> Result<(), Fail> {
    add_class(build, alloc, line.text(1))?;
    let sig = line.bytes(alloc, 2)?;
    let body = line.bytes(alloc, 3)?;
    let method = Asked::Method {
        impl_flags: 0,
        flags: flags_of(sig.as_slice()),
        name: "Case",
        sig: sig.as_slice(),
        body: body.as_slice(),
    };
    let _token = add(build, alloc, &method).ok().ok_or("there is room")?;
    Ok(())
}

/// The case of a line's method.
fn method_told<'a>(alloc: Global, changes: &str, line: &Line<'a>) -> Result<Case<'a>, Fail> {
    let mut build = stage_of(alloc)?;
    add_method(&mut build, alloc, line)?;
    let row = build.rows(METHOD_DEF);
    let mut file = finished(alloc, build)?;
    let further = Column {
        table: METHOD_DEF,
        row,
        column: 0,
        value: More(line.hex(4)?),
    };
    changed(&mut file, &further)?;
    Ok(Case {
        name: line.text(1),
        told: told_of(alloc, changes, file)?,
        wanted: wanted(alloc, METHOD_DEF, row, line)?,
    })
}

/// Cases of a line each, in four columns with `|` between them: what is told, a name, and a method's signature and body in hex digits. A
/// fifth tells how far behind its body's place the method's RVA is. Those of four columns that are accepted stand in one assembly, which
/// is the last case.
pub fn methods_told<'a>(alloc: Global, text: &'a str) -> Result<Vec<Case<'a>>, Fail> {
    methods_told_behind(alloc, "", text)
}

/// The same behind a base library whose first file is changed.
pub fn methods_told_behind<'a>(
    alloc: Global,
    changes: &str,
    text: &'a str,
) -> Result<Vec<Case<'a>>, Fail> {
    let mut accepted = stage_of(alloc)?;
    let mut cases = Vec::new(alloc);
    let lines = lines_of(alloc, text, '|')?;
    for line in lines.as_slice() {
        if line.text(0) == "-" && line.text(4) == "" {
            add_method(&mut accepted, alloc, line)?;
        } else {
            cases.push(method_told(alloc, changes, line)?)?;
        }
    }
    cases.push(Case {
        name: "the accepted lines, by their methods behind the stage's",
        told: told_of(alloc, changes, finished(alloc, accepted)?)?,
        wanted: Verdict::Accepted,
    })?;
    Ok(cases)
}

/// The case of a line's types.
fn type_told<'a>(alloc: Global, line: &Line<'a>) -> Result<Case<'a>, Fail> {
    let mut build = stage_of(alloc)?;
    add_rows(&mut build, alloc, line.text(3))?;
    Ok(Case {
        name: line.text(1),
        told: told_of(alloc, "", finished(alloc, build)?)?,
        wanted: wanted(alloc, TYPE_DEF, line.number(2)?, line)?,
    })
}

/// Cases of a line each, with `:` between the columns: what is told of the type in a row, a name, that row, and rows behind the stage.
pub fn types_told<'a>(alloc: Global, text: &'a str) -> Result<Vec<Case<'a>>, Fail> {
    let mut cases = Vec::new(alloc);
    let lines = lines_of(alloc, text, ':')?;
    for line in lines.as_slice() {
        cases.push(type_told(alloc, line)?)?;
    }
    Ok(cases)
}
