//! Which class is below which, which types fit, and which bodies calls find (ECMA-335 I.8.7, I.12.2.1, II.10.3, II.12.2), a line a
//! question.

use crate::text::{elem_of, number, part, yes_or_no};
use board_types::board::{BoardType, NO_ROW, TypeAt};
use class_table::{Body, ClassRow, ClassTable, FieldKind, FieldRow, FileRows, MethodRow, TypeKind};
use member_keys::{ClassId, SignatureKey};
use plain_types::elem::Elem;
use std::alloc::Global;
use std::test::Fail;
use tiny_types::{BoundTypes, bind_types, cast, field_count, find_target, no_targets, sub};

/// The classes of one file, by rows from 0: a name, the superclass, the interfaces, what it is, `i` of an interface, how many
/// instance fields it declares, and its methods, each with `n` for a slot of its own, `v` for an override, `p` for none.
const CLASSES: &str = "
Object | - | - | O | - | 0 | n Equals
Array | 0 | - | - | - | 0 | -
String | 0 | - | S | - | 0 | -
Int32 | 0 | - | I4 | - | 0 | -
Runs | - | - | - | i | 0 | n Run
RunsMore | - | 4 | - | i | 0 | n More
Base | 0 | 4 | - | - | 1 | n Run, v Equals, p Make
Derived | 6 | - | - | - | 2 | v Run
Newer | 7 | 5 | - | - | 0 | n Run, n More
Last | 8 | - | - | - | 1 | v Run
Plain | 0 | 5 | - | - | 0 | n More
";

fn class(row: u32) -> ClassId {
    ClassId { file: 0, row }
}

fn kind_of(text: &str) -> TypeKind {
    match elem_of(text) {
        Elem::Void => TypeKind::Reference,
        elem => TypeKind::Builtin(elem),
    }
}

/// The class of a row, and none for a dash.
fn some_class(text: &str) -> Result<Option<ClassId>, Fail> {
    match text {
        "-" => Ok(None),
        _ => Ok(Some(class(u32::from(number(text)?)))),
    }
}

fn interfaces_of(alloc: Global, text: &str) -> Result<Vec<ClassId>, Fail> {
    let mut found = Vec::new(alloc);
    if let Some(interface) = some_class(text)? {
        found.push(interface)?;
    }
    Ok(found)
}

/// Adds the methods of a class, and answers how many there are.
fn add_methods<'a>(
    alloc: Global,
    methods: &mut Vec<MethodRow<'a>>,
    owner: u32,
    text: &'a str,
) -> Result<u32, Fail> {
    let mut count: u32 = 0;
    for method in text.split(',') {
        let how = part(method.trim(), ' ', 0);
        if how != "-" {
            methods.push(MethodRow {
                name: part(method.trim(), ' ', 1),
                signature: Some(SignatureKey {
                    has_this: true,
                    returns: None,
                    parameters: Vec::new(alloc),
                }),
                is_static: false,
                is_virtual: how != "p",
                is_newslot: how == "n",
                is_abstract: false,
                body: Body::Code,
                owner: Some(owner),
            })?;
            count = count.wrapping_add(1);
        }
    }
    Ok(count)
}

fn add_fields<'a>(fields: &mut Vec<FieldRow<'a>>, owner: u32, count: u16) -> Result<(), Fail> {
    for _field in 0..count {
        fields.push(FieldRow {
            name: "f",
            signature: None,
            kind: FieldKind::Instance,
            owner: Some(owner),
        })?;
    }
    Ok(())
}

/// How many rows there are.
fn count_of<T>(rows: &[T]) -> u32 {
    (rows.len() & 0xFFFF) as u32
}

fn add_class<'a>(alloc: Global, rows: &mut FileRows<'a>, line: &'a str) -> Result<(), Fail> {
    let owner = count_of(&rows.classes);
    let first_field = count_of(&rows.fields);
    let first_method = count_of(&rows.methods);
    let field_count = number(part(line, '|', 5))?;
    add_fields(&mut rows.fields, owner, field_count)?;
    let method_count = add_methods(alloc, &mut rows.methods, owner, part(line, '|', 6))?;
    rows.classes.push(ClassRow {
        namespace: "System",
        name: part(line, '|', 0),
        enclosing: None,
        superclass: some_class(part(line, '|', 1))?,
        interfaces: interfaces_of(alloc, part(line, '|', 2))?,
        kind: kind_of(part(line, '|', 3)),
        is_interface: part(line, '|', 4) == "i",
        is_abstract: false,
        is_lazy: false,
        first_field,
        field_count: u32::from(field_count),
        first_method,
        method_count,
    })?;
    Ok(())
}

fn table(alloc: Global) -> Result<ClassTable<'static>, Fail> {
    let mut rows = FileRows {
        classes: Vec::new(alloc),
        fields: Vec::new(alloc),
        methods: Vec::new(alloc),
    };
    for line in CLASSES.lines() {
        if !line.is_empty() {
            add_class(alloc, &mut rows, line)?;
        }
    }
    let mut files = Vec::new(alloc);
    files.push(rows)?;
    Ok(ClassTable {
        files,
        library: Some(0),
        size: 22,
    })
}

fn row(text: &str) -> Result<TypeAt, Fail> {
    Ok(TypeAt {
        assembly: 0,
        row: number(text)?,
    })
}

/// A type: an element, or `C` and a class's row, or `E` and an enum's row; and its brackets.
fn type_of(text: &str) -> Result<BoardType, Fail> {
    let base = part(text, '[', 0);
    let ranks = (text.split('[').count() & 0xFF) as u16;
    let (elem, of) = match base.get(0..1) {
        Some("C") => (Elem::Class, row(base.get(1..).ok_or("a row")?)?),
        Some("E") => (Elem::I4, row(base.get(1..).ok_or("a row")?)?),
        _ => (elem_of(base), row("0")?),
    };
    let named = matches!(base.get(0..1), Some("C" | "E"));
    Ok(BoardType {
        ranks: ranks.wrapping_sub(1),
        elem,
        of: if named {
            of
        } else {
            TypeAt {
                assembly: 0,
                row: NO_ROW,
            }
        },
    })
}

/// Questions, and what is answered.
const QUESTIONS: &str = "
sub 9 9 | yes
sub 9 6 | yes
sub 6 9 | no
sub 9 4 | no
sub 4 0 | no
sub 99 0 | no
sub 99 99 | yes
fields 0 | 0
fields 6 | 1
fields 7 | 3
fields 8 | 3
fields 9 | 4
fields 99 | 0
cast C9 C6 | yes
cast C6 C9 | no
cast C9 C4 | yes
cast C9 C5 | yes
cast C7 C5 | no
cast C10 C4 | yes
cast C4 O | yes
cast C6 C0 | yes
cast O C6 | no
cast S O | yes
cast S C2 | yes
cast C9[] C6[] | yes
cast C6[] C9[] | no
cast C9[] C4[] | yes
cast C9[] O | yes
cast C9[] C1 | yes
cast C9[] C6 | no
cast C9 C9[] | no
cast I4[] I4[] | yes
cast I4[] U4[] | yes
cast I4[] I1[] | no
cast I4[] O[] | no
cast E6[] U4[] | yes
cast I4[][] O[] | yes
cast I4[][] U4[][] | yes
cast C9[][] C6[][] | yes
cast C9[][] C1[] | yes
cast C9[][] C6[] | no
cast C9[] C6[][] | no
target 0 0 | 0
target 6 0 | 4
target 9 0 | 4
target 6 3 | 3
target 7 3 | 6
target 8 3 | 6
target 9 3 | 6
target 9 7 | 9
target 8 6 | 6
target 0 3 | none
target 6 1 | 3
target 7 1 | 6
target 8 1 | 7
target 9 1 | 9
target 8 2 | 8
target 9 2 | 8
target 10 2 | 10
target 10 1 | none
target 6 2 | none
target 5 1 | none
target 0 5 | 5
target 9 99 | none
target 99 3 | none
";

/// The body that a call finds, asked twice, so that the second time it is among the answers that were kept.
fn body_of(
    alloc: Global,
    types: &BoundTypes<'_, '_>,
    class: TypeAt,
    method: TypeAt,
) -> Result<Option<TypeAt>, Fail> {
    let mut found = no_targets(alloc)?;
    let first = find_target(&mut found, types, class, method);
    let again = find_target(&mut found, types, class, method);
    if first == again {
        Ok(first)
    } else {
        Err(Fail::from("another answer the second time"))
    }
}

/// The answer to a question, in words.
fn answer(alloc: Global, types: &BoundTypes<'_, '_>, question: &str) -> Result<String, Fail> {
    let (first, second) = (part(question, ' ', 1), part(question, ' ', 2));
    let said = match part(question, ' ', 0) {
        "sub" => yes_or_no(sub(types, row(first)?, row(second)?)),
        "cast" => yes_or_no(cast(types, type_of(first)?, type_of(second)?)),
        "fields" => {
            let count = field_count(types, row(first)?);
            return Ok(format!(in alloc; "{count}")?);
        }
        _ => match body_of(alloc, types, row(first)?, row(second)?)? {
            Some(body) => {
                let body = body.row;
                return Ok(format!(in alloc; "{body}")?);
            }
            None => "none",
        },
    };
    Ok(String::from_str(alloc, said)?)
}

#[test]
fn types_and_calls(rt: HostRuntime) -> Result<(), Fail> {
    let table = table(rt.alloc())?;
    let types = bind_types(rt.alloc(), &table)?;
    for line in QUESTIONS.lines() {
        if !line.is_empty() {
            let said = answer(rt.alloc(), &types, part(line, '|', 0))?;
            assert_eq!(rt; said.as_str(), part(line, '|', 1), "{line}");
        }
    }
    Ok(())
}
