//! The limits of code, of the set's bytes and of its assemblies, each at the last number that passes and at the next.

use crate::runs::{Done, OUT, built, is_limit, is_set, run_one};
use assembly_rows::lines::add_lines;
use assembly_rows::made::{Asked, add};
use case_text::{Line, lines_of};
use cil_build::build::Build;
use mf_types::files::NamedFile;
use std::alloc::Global;
use std::process::Abort;
use std::test::Fail;

/// The class Program, for whose method the code is.
const FRONT: &str = "
assembly | | | mscorlib
reference | 23000001 | | System Object
type | 00100001 | 01000001 | Program
";

/// Main's code: the assembly's name, the code's front, a part of it and how often that stands there, the code's end, the limit that is
/// told, `-` for none, and what it is. A byte 0 is the instruction nop, or of a distance in a switch.
const SIZES: &str = "
Big | | 00 | 65534 | 2A | - | bytes of code
Big | | 00 | 65535 | 2A | limit: 13 65536 in Big | one more
Big | | 28 01 00 00 06 | 21844 | 00 00 2A | - | calls, which lose two bytes each
Big | | 28 01 00 00 06 | 21845 | 2A | limit: 13 65536 in Big | one more
";

/// The same.
const BRANCHES: &str = "
Far | 38 FF 7F 00 00 | 00 | 32767 | 2A | - | a branch forward
Far | 38 00 80 00 00 | 00 | 32768 | 2A | limit: 15 32768 in Far | one further
Far | | 00 | 32765 | 38 FE 7F FF FF | - | a branch backward, whose two bytes less count
Far | | 00 | 32766 | 38 FD 7F FF FF | limit: 15 32769 in Far | one further
Far | 38 50 C3 00 00 | 28 01 00 00 06 | 10000 | 2A | - | a branch over calls
Far | 16 2D 05 38 FF 7F 00 00 | 00 | 32767 | 2A | - | behind a short branch
Far | 16 39 00 80 00 00 | 00 | 32768 | 2A | limit: 15 32768 in Far | a branch with a condition
Far | 16 16 3B 00 80 00 00 | 00 | 32768 | 2A | limit: 15 32768 in Far | one that compares
Far | 38 01 80 00 00 38 00 90 00 00 | 00 | 36864 | 2A | limit: 15 36864 in Far | the second one; the first loses two bytes
Far | 38 08 80 00 00 38 00 90 00 00 | 00 | 36864 | 2A | limit: 15 32774 in Far | the first one
";

/// The same.
const SWITCHES: &str = "
Far | 16 45 01 00 00 00 FF 7F 00 00 | 00 | 32767 | 2A | - | a switch
Far | 16 45 01 00 00 00 00 80 00 00 | 00 | 32768 | 2A | limit: 15 32768 in Far | one further
Far | 16 45 02 00 00 00 00 00 00 00 00 80 00 00 | 00 | 32768 | 2A | limit: 15 32768 in Far | its second target
Wide | 16 45 FF 00 00 00 | 00 00 00 00 | 255 | 2A | - | targets of a switch
Wide | 16 45 00 01 00 00 | 00 00 00 00 | 256 | 2A | limit: 16 256 in Wide | one more
Wide | 16 45 00 01 00 00 00 80 00 00 | 00 | 33788 | 2A | limit: 15 32768 in Wide | one more, and one of them far: the lower limit
Wide | 16 45 00 01 00 00 | 00 | 66043 | 2A | limit: 16 256 in Wide | its bytes count as two for each target
Wide | 16 45 00 01 00 00 | 00 | 66044 | 2A | limit: 13 65536 in Wide | a lower one still
";

/// Code with a part so often in it.
fn code_of(alloc: Global, line: &Line<'_>) -> Result<Vec<u8>, Fail> {
    let mut code = line.bytes(alloc, 1)?;
    let part = line.bytes(alloc, 2)?;
    for _ in 0..line.number(3)? {
        code.extend_from_slice(part.as_slice())?;
    }
    let end = line.bytes(alloc, 4)?;
    code.extend_from_slice(end.as_slice())?;
    Ok(code)
}

/// A body with a fat header and this code (ECMA-335 II.25.4.3).
fn body_of(alloc: Global, code: &[u8]) -> Result<Vec<u8>, Fail> {
    let mut body = Vec::from_slice(alloc, &[0x03, 0x30, 0x08, 0x00])?;
    let size = u32::try_from(code.len()).ok().ok_or("a size")?;
    body.extend_from_slice(&size.to_le_bytes())?;
    body.extend_from_slice(&[0, 0, 0, 0])?;
    body.extend_from_slice(code)?;
    Ok(body)
}

/// The class Program, whose Main has this code.
fn program(alloc: Global, name: &str, code: &[u8]) -> Result<Build, Fail> {
    let mut build = Build::new(alloc, name, [1, 0, 0, 0])?;
    add_lines(&mut build, alloc, FRONT)?;
    let body = body_of(alloc, code)?;
    let main = Asked::Method {
        impl_flags: 0,
        flags: 0x0096,
        name: "Main",
        sig: &[0, 0, 1],
        body: body.as_slice(),
    };
    let token = add(&mut build, alloc, &main).ok().ok_or("there is room")?;
    build.set_entry(token);
    Ok(build)
}

/// The file of an assembly whose Main has this code.
pub fn file_of(alloc: Global, name: &str, code: &[u8]) -> Result<NamedFile, Fail> {
    let build = program(alloc, name, code)?;
    built(alloc, name, build)
}

/// The file of an assembly Large whose Main takes a literal of so many units, and then does nothing so often.
pub fn large(alloc: Global, units: usize, nops: usize) -> Result<NamedFile, Fail> {
    let mut code = Vec::from_slice(alloc, &[0x72, 1, 0, 0, 0x70, 0x26])?;
    let nops = vec![in alloc; 0; nops]?;
    code.extend_from_slice(nops.as_slice())?;
    code.push(0x2A)?;
    let mut build = program(alloc, "Large", code.as_slice())?;
    let units = vec![in alloc; 0x41; units]?;
    let _token = build
        .user_text(alloc, units.as_slice())
        .ok()
        .ok_or("there is room")?;
    built(alloc, "large", build)
}

/// Whether a run is as it is wanted: converted, or over a limit.
fn is_wanted(alloc: Global, run: &Done, wanted: Option<&str>) -> Result<bool, Fail> {
    match wanted {
        Some(line) => Ok(is_limit(run, line)),
        None => is_set(alloc, run, OUT, 3),
    }
}

/// Each line's program comes to what the line wants.
fn are_as_wanted(rt: &(impl Abort + AllocGlobal), codes: &str) -> Result<(), Fail> {
    let alloc = rt.alloc();
    let lines = lines_of(alloc, codes, '|')?;
    for line in lines.as_slice() {
        let code = code_of(alloc, line)?;
        let file = file_of(alloc, line.text(0), code.as_slice())?;
        let run = run_one(alloc, file)?;
        assert!(rt;
            is_wanted(alloc, &run, line.option(5))?,
            "{} {}",
            line.text(0),
            line.text(6)
        );
    }
    Ok(())
}

#[test]
fn limit_of_code(rt: HostRuntime) -> Result<(), Fail> {
    are_as_wanted(&rt, SIZES)
}

#[test]
fn limit_of_branches(rt: HostRuntime) -> Result<(), Fail> {
    are_as_wanted(&rt, BRANCHES)
}

#[test]
fn limits_of_switches(rt: HostRuntime) -> Result<(), Fail> {
    are_as_wanted(&rt, SWITCHES)
}
