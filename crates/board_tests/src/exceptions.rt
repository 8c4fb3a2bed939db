//! Exceptions on their way through finally blocks and frames (ECMA-335 I.12.4.2, III.3.35, III.3.46, III.4.24), a line a case.

use crate::text::{number, part};
use board_types::board::{BoardType, ClauseAt, TypeAt};
use board_types::subclass::Subclass;
use plain_types::elem::Elem;
use std::alloc::Global;
use std::test::Fail;
use tiny_except::{Thrown, end_finally, leave, throw};
use tiny_ram::{Ram, RamPlace, Value};

/// Classes of which each is below those with smaller rows, and the exception clauses of methods.
#[derive(Drop)]
struct Methods {
    clauses: Vec<Vec<ClauseAt>>,
}

impl Subclass for Methods {
    ghost use Rattle.std.specs.Prelude.{nat_le, [], slice_get, unwrap_or};
    ghost use Rattle.std.specs.Option.{option_map};

    ghost sub = { λ m a b. nat_le b.row a.row };

    ghost clauses = { λ m of. unwrap_or (option_map (λ v. v.items) (slice_get m.clauses.items of.row)) [] };

    ghost name = { λ m of. [] };

    ghost bytes = { λ m field. [] };

    fn is_sub(&self, a: TypeAt, b: TypeAt) -> bool {
        b.row <= a.row
    }

    fn clause(&self, method: TypeAt, k: u16) -> Option<ClauseAt> {
        match self.clauses.get(method.row as usize) {
            Some(clauses) => clauses.get(k as usize).copied(),
            None => None,
        }
    }

    fn name_unit(&self, _of: BoardType, _k: u32) -> Option<u16> {
        None
    }

    fn data_byte(&self, _field: TypeAt, _k: u32) -> Option<u8> {
        None
    }
}

fn row(text: &str) -> Result<TypeAt, Fail> {
    Ok(TypeAt {
        assembly: 0,
        row: number(text)?,
    })
}

/// A clause: `c` or `f`, the class of a catch, the try's start and end, the handler's start and end.
fn clause_of(text: &str) -> Result<ClauseAt, Fail> {
    let kind = if part(text, ' ', 0) == "f" { 2 } else { 0 };
    Ok(ClauseAt {
        kind,
        class: row(part(text, ' ', 1))?,
        try_start: number(part(text, ' ', 2))?,
        try_end: number(part(text, ' ', 3))?,
        start: number(part(text, ' ', 4))?,
        end: number(part(text, ' ', 5))?,
    })
}

fn clauses_of(alloc: Global, text: &str) -> Result<Vec<ClauseAt>, Fail> {
    let mut clauses = Vec::new(alloc);
    for clause in text.split(',') {
        if !clause.trim().is_empty() {
            clauses.push(clause_of(clause.trim())?)?;
        }
    }
    Ok(clauses)
}

/// The clauses of methods, one method's behind the other's.
fn methods_of(alloc: Global, text: &str) -> Result<Methods, Fail> {
    let mut clauses = Vec::new(alloc);
    for method in text.split(';') {
        clauses.push(clauses_of(alloc, method)?)?;
    }
    Ok(Methods { clauses })
}

/// Frames of methods at places in their code, the outermost first.
fn call_all(ram: &mut Ram, methods: &Methods, text: &str) -> Result<(), Fail> {
    for frame in text.split(' ') {
        let method = row(part(frame, '@', 0))?;
        let clauses = methods
            .clauses
            .get(method.row as usize)
            .ok_or("a method")?
            .len();
        let sizes = [0, 0, 1, (clauses & 0xFFFF) as u32];
        ram.frame(method, sizes).ok().ok_or("room for a frame")?;
        ram.go_to(i32::from(number(part(frame, '@', 1))?));
    }
    Ok(())
}

/// What an exception that nothing takes is told by.
fn uncaught(class: Option<TypeAt>) -> &'static str {
    match class {
        Some(_) => "uncaught ",
        None => "",
    }
}

fn throw_it(ram: &mut Ram, methods: &Methods, thrown: Thrown) -> Result<&'static str, Fail> {
    let class = throw(ram, methods, thrown)
        .ok()
        .ok_or("room for an object")?;
    Ok(uncaught(class))
}

/// Does what a word says: a new object of a class is thrown, an object again, a place is left for, a finally ends.
fn act(ram: &mut Ram, methods: &Methods, text: &str) -> Result<&'static str, Fail> {
    let what = part(text, ' ', 1);
    match part(text, ' ', 0) {
        "throw" => {
            let class = row(what)?;
            throw_it(ram, methods, Thrown::Made { class, fields: 0 })
        }
        "again" => throw_it(ram, methods, Thrown::Object(u32::from(number(what)?))),
        "leave" => {
            leave(ram, methods, u32::from(number(what)?));
            Ok("")
        }
        _ => match end_finally(ram, methods) {
            true => Ok(""),
            false => Ok("no plan "),
        },
    }
}

/// Adds where each frame is in its code, the innermost first.
fn add_frames(alloc: Global, said: &mut String, ram: &Ram) -> Result<(), Fail> {
    let mut frame = ram.top();
    for _frame in 0..9 {
        if frame == 0 {
            return Ok(());
        }
        let method = ram.shape(frame).of.of.row;
        let place = place_of(ram, frame);
        let blank = if frame == ram.top() { "" } else { " " };
        said.push_str(format!(in alloc; "{blank}{method}@{place}")?.as_str())?;
        frame = ram.caller(frame);
    }
    Ok(())
}

/// Where a frame is in its code.
fn place_of(ram: &Ram, frame: u32) -> i32 {
    let at = RamPlace {
        thing: frame,
        index: ram.shape(frame).count,
        elem: Elem::I4,
    };
    match ram.get(at) {
        Value::Int(place) => place,
        _ => -1,
    }
}

/// What a case comes to, step by step.
fn told(alloc: Global, line: &str) -> Result<String, Fail> {
    let methods = methods_of(alloc, part(line, '|', 1))?;
    let mut ram = Ram::new(alloc, 64)?;
    call_all(&mut ram, &methods, part(line, '|', 2))?;
    let mut said = String::new(alloc);
    for step in part(line, '|', 3).split(',') {
        if !said.is_empty() {
            said.push_str(", ")?;
        }
        said.push_str(act(&mut ram, &methods, step.trim())?)?;
        add_frames(alloc, &mut said, &ram)?;
    }
    Ok(said)
}

/// A name, the clauses of methods, the frames, what is done, and where the frames are after each step.
const CASES: &str = "
a catch | c 1 0 4 4 8 | 0@2 | throw 2 | 0@4
no catch takes it | c 3 0 4 4 8 | 0@2 | throw 2 | uncaught 0@2
a catch of a class above | c 2 0 4 4 8 | 0@2 | throw 3 | 0@4
the first catch that takes it | c 3 0 4 4 8, c 2 0 4 8 12, c 1 0 4 12 16 | 0@2 | throw 2 | 0@8
behind the try | c 1 0 2 4 8 | 0@2 | throw 2 | uncaught 0@2
a finally on the way | f 0 0 4 4 8, c 1 0 10 10 14 | 0@2 | throw 2, end | 0@4, 0@10
a finally that no catch is behind | f 0 0 4 4 8 | 0@2 | throw 2 | uncaught 0@2
a finally that throws | f 0 0 4 4 8, c 1 0 10 10 14 | 0@2 | throw 2, throw 3 | 0@4, 0@10
a finally that throws what the catch doesn't take | f 0 0 4 4 8, c 3 0 10 10 14 | 0@2 | throw 3, throw 2 | 0@4, uncaught 0@4
a finally that throws in a finally | f 0 0 4 4 8, f 0 0 8 10 12, c 1 0 12 14 16 | 0@2 | throw 2, throw 3, end | 0@4, 0@10, 0@14
a leave through three | f 0 0 4 20 24, f 0 0 6 24 28, f 0 0 8 28 32 | 0@2 | leave 40, end, end, end | 0@20, 0@24, 0@28, 0@40
a leave that stays in the outer try | f 0 0 4 20 24, f 0 0 10 24 28 | 0@2 | leave 8, end | 0@20, 0@8
a leave past a catch | c 1 0 4 20 24, f 0 0 10 24 28 | 0@2 | leave 40, end | 0@24, 0@40
a throw ends a leave | f 0 0 4 20 24, c 1 0 30 30 34 | 0@2 | leave 40, throw 1 | 0@20, 0@30
rethrow to an outer catch | c 1 0 4 4 8, c 1 0 10 10 14 | 0@2 | throw 2, again 1 | 0@4, 0@10
rethrow to the caller | c 1 0 8 8 12; c 1 0 4 4 8 | 0@2 1@2 | throw 2, again 1 | 1@4 0@2, 0@8
a plan through frames | c 1 0 8 8 12; f 0 0 4 4 8; f 0 0 4 4 8 | 0@2 1@2 2@2 | throw 2, end, end | 2@4 1@2 0@2, 1@4 0@2, 0@8
a frame without clauses on the way | c 1 0 8 8 12; ; f 0 0 4 4 8 | 0@2 1@2 2@2 | throw 2, end | 2@4 1@2 0@2, 0@8
no catch in any frame | c 3 0 8 8 12; f 0 0 4 4 8 | 0@2 1@2 | throw 2 | uncaught 1@2 0@2
the end of no finally | c 1 0 4 4 8 | 0@2 | end | no plan 0@2
the end of a finally that no plan runs | f 0 0 4 4 8 | 0@5 | end | no plan 0@5
";

#[test]
fn exceptions_go_their_way(rt: HostRuntime) -> Result<(), Fail> {
    for line in CASES.lines() {
        if !line.is_empty() {
            let said = told(rt.alloc(), line)?;
            assert_eq!(rt; said.as_str(), part(line, '|', 4), "{line}");
        }
    }
    Ok(())
}
