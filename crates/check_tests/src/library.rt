//! Rule 30 of the base library's files, and what else is told of them.

use crate::cases::fault_of;
use crate::program::FRONT;
use crate::told::told;
use assembly_rows::lines::{Assembly, change_file, made};
use base_lib::files;
use case_text::{Line, lines_of};
use made_assembly::made as made_of_classes;
use plain_types::fault::{Fault, Place, WHOLE_FILE};
use std::alloc::Global;
use std::test::Fail;

/// What is told, a name, a file of the base library, changes of it, and the entry token of the program behind it. Types of mscorlib that
/// are changed: IDisposable in row 9 and Math in row 11 (B in hex digits); methods: ToString in row 2 and Abs in row 17.
const LIBRARIES: &str = "
-: as it is: 0: : 06000001
0 30 FF 0 0: a class that isn't there: 0: more | 02 | B | 1 | 1: 06000001
0 30 FF 0 0: in another namespace: 0: more | 02 | B | 2 | 1: 06000001
0 30 FF 0 0: with another superclass: 0: is | 02 | B | 3 | 18: 06000001
0 30 FF 0 0: a class that is an interface: 0: is | 02 | B | 0 | A1; is | 02 | B | 3 | 0: 06000001
0 30 FF 0 0: an interface that is a class: 0: is | 02 | 9 | 0 | 81; is | 02 | 9 | 3 | 8: 06000001
0 24 02 B 0: a class without a superclass: 0: is | 02 | B | 3 | 0: 06000001
0 30 FF 0 0: a native of another name: 0: more | 06 | 2 | 3 | 1: 06000001
0 29 06 2 0: a native that is none: 0: is | 06 | 2 | 1 | 0: 06000001
0 30 FF 0 0: an internal call that is no native: 0: is | 06 | 11 | 0 | 0; is | 06 | 11 | 1 | 1000: 06000001
0 29 06 11 0: an internal call with an address: 0: is | 06 | 11 | 1 | 1000: 06000001
1 30 FF 0 0: Debug under another name: 1: more | 02 | 2 | 1 | 1: 06000001
1 30 FF 0 0: Print under another name: 1: more | 06 | 2 | 3 | 1: 06000001
1 24 02 2 0: another version: 0: is | 20 | 1 | 3 | 2: 06000001
0 24 02 2 0: no mscorlib: 0: more | 20 | 1 | 7 | 1: 06000001
-: an entry in the library: 0: entry | 06000001: 06000001
2 23 FF 0 0: an entry in the library alone: 0: entry | 06000001: 00000000
2 23 FF 0 0: the program before the library's last rule: 0: more | 02 | B | 1 | 1: 00000000
";

/// The base library, one file of it changed, and a program.
fn told_of_line(alloc: Global, line: &Line<'_>) -> Result<Option<Fault>, Fail> {
    let mut all = files(alloc)?;
    let file = all
        .get_mut(usize::from(line.byte(2)?))
        .ok_or("there is such a file")?;
    change_file(file, alloc, line.text(3))?;
    let program = Assembly {
        name: "App",
        entry: line.hex(4)?,
        front: FRONT,
        rows: "",
        changes: "",
    };
    all.push(made(alloc, &program)?)?;
    told(alloc, all.as_slice())
}

#[test]
fn libraries(rt: HostRuntime) -> Result<(), Fail> {
    let lines = lines_of(rt.alloc(), LIBRARIES, ':')?;
    for line in lines.as_slice() {
        let told = told_of_line(rt.alloc(), line)?;
        assert_eq!(rt; told, fault_of(rt.alloc(), line)?, "{}", line.text(1));
    }
    Ok(())
}

#[test]
fn the_base_library_alone(rt: HostRuntime) -> Result<(), Fail> {
    let all = files(rt.alloc())?;
    let told = told(rt.alloc(), all.as_slice())?;
    let place = Place {
        file: 1,
        table: WHOLE_FILE,
        row: 0,
        offset: 0,
    };
    assert_eq!(rt; told, Some(Fault { rule: 23, place }));
    Ok(())
}

#[test]
fn a_made_assembly(rt: HostRuntime) -> Result<(), Fail> {
    let mut all = files(rt.alloc())?;
    all.push(made_of_classes(rt.alloc(), 3).ok().ok_or("it is made")?)?;
    assert_eq!(rt; told(rt.alloc(), all.as_slice())?, None);
    Ok(())
}
