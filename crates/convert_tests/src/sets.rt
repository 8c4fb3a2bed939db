//! Sets, byte by byte: the two images of the page on images, and how many bytes and assemblies a set may have.

use crate::kept::image_in;
use crate::limits::{file_of, large};
use crate::runs::{Done, MAIN, OUT, built, is_limit, is_set, lone, run, run_one};
use assembly_rows::lines::add_lines;
use case_text::bytes_of;
use cil_build::build::Build;
use mf_types::files::NamedFile;
use std::alloc::Global;
use std::test::Fail;

/// The program Hello, whose one literal is `hi`.
const HELLO: &str = "
assembly | | | mscorlib
assembly | | | Microsoft.SPOT.Native
reference | 23000001 | | System Object
reference | 23000002 | | Microsoft.SPOT Debug
member | 01000002 | | Print | 00 01 01 0E
type | 00100001 | 01000001 | Program
method | 0096 | | Main | 00 00 08 | 32 72 01 00 00 70 28 01 00 00 0A 1D 2A
";

/// Its image.
const HELLO_IMAGE: &str = "
4D 53 53 70 6F 74 31 00 08 01 00 00 01 00 00 00 00 00 00 00 00 00 00 00 02 00 02 00 00 00 01 00
01 00 00 00 00 00 01 00 00 00 00 00 00 00 6D 00 0D 00 08 00 00 00 00 00 07 00 04 00 03 00 01 00
00 00 11 00 04 00 03 00 01 00 00 00 00 00 28 00 30 00 01 00 38 00 48 00 01 40 4F 00 00 00 56 00
58 00 FF FF 00 40 80 00 00 00 00 00 00 00 00 00 00 00 01 00 61 00 07 00 01 00 00 00 08 00 FF FF
08 00 00 00 00 00 05 00 48 65 6C 6C 6F 08 00 6D 73 63 6F 72 6C 69 62 15 00 4D 69 63 72 6F 73 6F
66 74 2E 53 50 4F 54 2E 4E 61 74 69 76 65 06 00 53 79 73 74 65 6D 06 00 4F 62 6A 65 63 74 0E 00
4D 69 63 72 6F 73 6F 66 74 2E 53 50 4F 54 05 00 44 65 62 75 67 05 00 50 72 69 6E 74 00 00 07 00
50 72 6F 67 72 61 6D 04 00 4D 61 69 6E 04 00 68 00 69 00 05 00 00 01 00 01 0E 04 00 00 00 00 08
72 67 00 28 00 40 1D 2A
";

/// The image of an assembly Lib of which nothing is kept.
pub const LIB_IMAGE: &str = "
4D 53 53 70 6F 74 31 00 40 00 00 00 01 00 00 00 00 00 00 00 00 00 FF FF 00 00 00 00 00 00 00 00
00 00 00 00 00 00 00 00 00 00 00 00 00 00 05 00 00 00 00 00 00 00 00 00 03 00 4C 69 62 00 00 00
";

/// The file of Hello.
fn hello(alloc: Global) -> Result<NamedFile, Fail> {
    let mut build = Build::new(alloc, "Hello", [1, 0, 0, 0])?;
    add_lines(&mut build, alloc, HELLO)?;
    let _token = build
        .user_text(alloc, &[0x68, 0x69])
        .ok()
        .ok_or("there is room")?;
    build.set_entry(MAIN);
    built(alloc, "hello.exe", build)
}

#[test]
fn the_two_images_of_the_page(rt: HostRuntime) -> Result<(), Fail> {
    let alloc = rt.alloc();
    let mut files = Vec::new(alloc);
    files.push(lone(alloc, "Lib")?)?;
    files.push(hello(alloc)?)?;
    let run = run(alloc, files)?;
    assert!(rt; is_set(alloc, &run, OUT, 4)?);
    let mut wanted = bytes_of(alloc, LIB_IMAGE)?;
    let hello = bytes_of(alloc, HELLO_IMAGE)?;
    wanted.extend_from_slice(hello.as_slice())?;
    let set = run.store.bytes(OUT).ok_or("a set")?;
    assert_eq!(rt; image_in(set, 2), Some(wanted.as_slice()));
    assert_eq!(rt; image_in(set, 3), Some(hello.as_slice()));
    assert_eq!(rt; image_in(set, 4), Some([].as_slice()));
    Ok(())
}

#[test]
fn hello_alone(rt: HostRuntime) -> Result<(), Fail> {
    let alloc = rt.alloc();
    let run = run_one(alloc, hello(alloc)?)?;
    assert!(rt; is_set(alloc, &run, OUT, 3)?);
    let wanted = bytes_of(alloc, HELLO_IMAGE)?;
    let set = run.store.bytes(OUT).ok_or("a set")?;
    assert_eq!(rt; image_in(set, 2), Some(wanted.as_slice()));
    Ok(())
}

/// So many assemblies, of which Big has an entry and so much code.
fn many(alloc: Global, files: u32, nops: usize) -> Result<Done, Fail> {
    let mut all = Vec::new(alloc);
    for number in 1..files {
        let name = format!(in alloc; "L{number}")?;
        all.push(lone(alloc, name.as_str())?)?;
    }
    let mut code = vec![in alloc; 0; nops]?;
    code.push(0x2A)?;
    all.push(file_of(alloc, "Big", code.as_slice())?)?;
    run(alloc, all)
}

#[test]
fn limit_of_assemblies(rt: HostRuntime) -> Result<(), Fail> {
    let alloc = rt.alloc();
    assert!(rt; is_set(alloc, &many(alloc, 30, 0)?, OUT, 32)?);
    let run = many(alloc, 31, 65_535)?;
    assert!(rt; is_limit(&run, "limit: 18 33 in set"));
    let run = many(alloc, 30, 65_535)?;
    assert!(rt; is_limit(&run, "limit: 13 65536 in Big"));
    Ok(())
}

/// The bytes of a set that was put.
fn bytes_in(run: &Done) -> usize {
    match run.store.bytes(OUT) {
        Some(set) => set.len(),
        None => 0,
    }
}

#[test]
fn limit_of_bytes(rt: HostRuntime) -> Result<(), Fail> {
    let alloc = rt.alloc();
    let small = bytes_in(&run_one(alloc, large(alloc, 29_000, 60_000)?)?);
    let room = 122_864usize.checked_sub(small).ok_or("a small set")?;
    assert!(rt; small > 119_000 && room < 5_000 && room % 4 == 0);
    let nops = 60_000usize.saturating_add(room);
    let run = run_one(alloc, large(alloc, 29_000, nops)?)?;
    assert!(rt; is_set(alloc, &run, OUT, 3)? && bytes_in(&run) == 122_864);
    let run = run_one(alloc, large(alloc, 29_000, nops.saturating_add(4))?)?;
    assert!(rt; is_limit(&run, "limit: 17 122868 in set"));
    Ok(())
}

/// The names have 50 bytes with their lengths, the literal two for each unit and two for its length.
#[test]
fn limit_of_strings(rt: HostRuntime) -> Result<(), Fail> {
    let alloc = rt.alloc();
    let run = run_one(alloc, large(alloc, 32_741, 0)?)?;
    assert!(rt; is_set(alloc, &run, OUT, 3)?);
    let run = run_one(alloc, large(alloc, 32_742, 0)?)?;
    assert!(rt; is_limit(&run, "limit: 11 65536 in Large"));
    Ok(())
}
