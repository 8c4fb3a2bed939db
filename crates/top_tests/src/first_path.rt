//! Rows of the first path, over a store and a sink in memory.

use crate::front::is_line;
use case_text::{Line, lines_of};
use mf_types::files::NamedFile;
use mfdeploy_top::mfdeploy;
use outside_in_memory::{MemorySink, MemoryStore};
use plain_types::list::{Items, Text};
use std::alloc::{AllocError, Global};
use std::test::Fail;

/// What the smallest file of the first form has that isn't zero, but for the method's body: where it stands, its bytes, and what it is.
/// All names are empty.
const PARTS: &str = "
0 | 4D 5A | the marker MZ
60 | 40 | where the PE header stands
64 | 50 45 00 00 | the marker PE
70 | 01 | one section
84 | D8 | the size of the optional header
88 | 0B 01 | PE32
296 | 00 20 | the RVA of the CLI header
300 | 48 | its size
316 | 00 20 | the section's RVA
320 | 00 10 | its size
324 | 58 01 | where it stands
352 | 48 20 | the RVA of the metadata
356 | E4 | its size
360 | 01 | only CIL
364 | 01 00 00 06 | the entry
416 | 42 53 4A 42 | the marker of the metadata
434 | 03 | three streams
436 | 44 | offset
440 | 94 | size
444 | 23 7E | the stream of tables
448 | D8 | offset
452 | 04 | size
456 | 23 53 74 72 69 6E 67 73 | the stream of names
468 | DC | offset
472 | 08 | size
476 | 23 42 6C 6F 62 | the stream of signatures
492 | 47 | the tables: Module, TypeRef, TypeDef and MethodDef
496 | 09 | Assembly and AssemblyRef
508 | 01 00 00 00 01 00 00 00 02 00 00 00 01 00 00 00 01 00 00 00 01 | their rows
542 | 06 | the scope of the reference to a type
558 | 01 00 01 | the lists of the first type
570 | 05 00 01 00 01 | superclass and lists of the second
576 | 2C 21 | the RVA of the method's body
582 | 16 | its flags
586 | 01 00 01 | its signature and parameters
636 | 00 03 00 00 08 | the signature
";

/// Where the body of the method stands, behind which there is room for 63 bytes of code.
const BODY: usize = 644;

/// Puts bytes at a place of the file.
fn put(file: &mut [u8], at: usize, bytes: &[u8]) {
    if at < file.len() && file.len() - at >= bytes.len() {
        file[at..at + bytes.len()].copy_from_slice(bytes);
    }
}

/// The smallest file of the first form with this code, which has at most 63 bytes.
fn file_of(alloc: Global, code: &[u8]) -> Result<Vec<u8>, Fail> {
    let mut file = vec![in alloc; 0; BODY + 1 + 63]?;
    let lines = lines_of(alloc, PARTS, '|')?;
    for line in lines.as_slice() {
        let bytes = line.bytes(alloc, 1)?;
        put(
            file.as_mut_slice(),
            line.number(0)? as usize,
            bytes.as_slice(),
        );
    }
    let header = [(code.len() % 64) as u8 * 4 + 2];
    put(file.as_mut_slice(), BODY, &header);
    put(file.as_mut_slice(), BODY + 1, code);
    Ok(file)
}

/// What the job `run1 a.dll STEPS` is asked of, and what comes of it: the code of the smallest file of the first form; behind how many
/// bytes that file is cut, `-` for nowhere; the name of the file; the steps; the calls of the store and of the sink that fail, 0 for
/// none; the status; and the line that is written. The first code is 10 by 3, less 1, and the second one the greatest number and 1.
const RUNS: &str = "
1F 0A 19 5A 17 59 2A ; - ; a.dll ; 6 ; 0 ; 0 ; 0 ; end: returned 29
1F 0A 19 5A 17 59 2A ; - ; a.dll ; 5 ; 0 ; 0 ; 0 ; end: steps spent
20 FF FF FF 7F 17 58 2A ; - ; a.dll ; 9 ; 0 ; 0 ; 0 ; end: returned -2147483648
2A ; - ; a.dll ; 9 ; 0 ; 0 ; 2 ; refused: rule 99 a.dll table 255 row 0 offset 0
; 0 ; a.dll ; 9 ; 0 ; 0 ; 2 ; refused: rule 1 a.dll table 255 row 0 offset 0
1F 0A 19 5A 17 59 2A ; 583 ; a.dll ; 1 ; 0 ; 0 ; 2 ; refused: rule 7 a.dll table 255 row 0 offset 352
1F 0A 19 5A 17 59 2A ; - ; a.dll ; 01 ; 0 ; 0 ; 1 ; usage: mfdeploy run1 FILE STEPS | check FILES | convert OUT FILES
1F 0A 19 5A 17 59 2A ; - ; a.dll ; 6 ; 1 ; 0 ; 6 ; read fault: a.dll
1F 0A 19 5A 17 59 2A ; - ; b.dll ; 6 ; 0 ; 0 ; 6 ; read fault: a.dll
1F 0A 19 5A 17 59 2A ; - ; a.dll ; 6 ; 0 ; 1 ; 7 ;
1F 0A 19 5A 17 59 2A ; - ; a.dll ; 6 ; 0 ; 2 ; 0 ; end: returned 29
";

/// The words `run1 FILE STEPS`.
fn words(alloc: Global, file: &str, steps: &str) -> Result<Vec<String>, AllocError> {
    let mut words = Vec::new(alloc);
    for word in ["run1", file, steps] {
        words.push(String::from_str(alloc, word)?)?;
    }
    Ok(words)
}

/// The bytes of the line's file.
fn bytes_of(alloc: Global, line: &Line<'_>) -> Result<Vec<u8>, Fail> {
    let code = line.bytes(alloc, 0)?;
    let mut file = file_of(alloc, code.as_slice())?;
    if line.option(1).is_some() {
        file.truncate(line.number(1)? as usize);
    }
    Ok(file)
}

/// A store with one file.
fn store_of(alloc: Global, line: &Line<'_>) -> Result<MemoryStore, Fail> {
    let name = Text::copied(alloc, line.text(2)).map_err(|_| "memory")?;
    let file = NamedFile {
        name,
        bytes: Items::from_vec(bytes_of(alloc, line)?),
    };
    let mut files = Vec::new(alloc);
    files.push(file)?;
    let due = line.number(4)?;
    let fails = vec![in alloc; due; 1]?;
    Ok(MemoryStore::new(files, fails))
}

#[test]
fn each_row_has_its_status_and_text(rt: HostRuntime) -> Result<(), Fail> {
    let lines = lines_of(rt.alloc(), RUNS, ';')?;
    for line in lines.as_slice() {
        let words = words(rt.alloc(), "a.dll", line.text(3))?;
        let mut store = store_of(rt.alloc(), line)?;
        let due = line.number(5)?;
        let fails = vec![in rt.alloc(); due; 1]?;
        let mut sink = MemorySink::new(rt.alloc(), fails, 10_000).map_err(|_| "memory")?;
        let status = mfdeploy(rt.alloc(), &words, &mut store, &mut sink);
        assert_eq!(rt; status, line.byte(6)?, "{}", line.text(7));
        assert!(rt; is_line(sink.written(), line.text(7)), "{}", line.text(7));
    }
    Ok(())
}

/// A text of more than one piece, of which the second one fails: the first one was written.
#[test]
fn a_failing_second_piece_leaves_the_first(rt: HostRuntime) -> Result<(), Fail> {
    let mut name = String::new(rt.alloc());
    for _ in 0..1000 {
        name.push_str("absent/")?;
    }
    let words = words(rt.alloc(), name.as_str(), "1")?;
    let mut store = MemoryStore::new(Vec::new(rt.alloc()), Vec::new(rt.alloc()));
    let fails = vec![in rt.alloc(); 2]?;
    let mut sink = MemorySink::new(rt.alloc(), fails, 10_000).map_err(|_| "memory")?;
    let status = mfdeploy(rt.alloc(), &words, &mut store, &mut sink);
    assert_eq!(rt; status, 7);
    assert_eq!(rt; sink.written().len(), 4096);
    Ok(())
}
