//! What stands in the store after a run: the set as the file of the first name, and all other files as they were.

use crate::runs::{Done, app, is_set, lone, named, run_words, tells};
use case_text::{Line, lines_of};
use mf_types::files::NamedFile;
use std::alloc::Global;
use std::test::Fail;

/// The class Program with its Main.
const FRONT: &str = "
assembly | | | mscorlib
reference | 23000001 | | System Object
type | 00100001 | 01000001 | Program
method | 0096 | | Main | 00 00 01 | 06 2A
";

/// The words of a job; the call of the store that fails, 0 for none; the status; and the line that is told, of a set `set`. The store
/// has the program a.dll, the assembly b.dll, and c, which is no assembly.
const STORES: &str = "
convert out a.dll ; 0 ; 0 ; set
convert out a.dll b.dll ; 0 ; 0 ; set
convert a.dll a.dll b.dll ; 0 ; 0 ; set
convert c a.dll ; 0 ; 0 ; set
convert - a.dll ; 0 ; 0 ; set
convert out a.dll b.dll ; 1 ; 6 ; read fault: a.dll
convert out a.dll b.dll ; 2 ; 6 ; read fault: b.dll
convert out a.dll b.dll ; 3 ; 7 ;
convert a.dll a.dll ; 2 ; 7 ;
convert out a.dll b.dll ; 4 ; 0 ; set
convert out a.dll d ; 0 ; 6 ; read fault: d
convert out c ; 0 ; 2 ; refused: rule 1 c table 255 row 0 offset 0
convert out a.dll c ; 0 ; 2 ; refused: rule 1 c table 255 row 0 offset 0
convert out c d ; 0 ; 6 ; read fault: d
convert out b.dll ; 0 ; 2 ; refused: rule 23 b.dll table 255 row 0 offset 0
convert out a.dll a.dll ; 0 ; 2 ; refused: rule 22 a.dll table 32 row 1 offset 0
convert out ; 0 ; 1 ; usage: mfdeploy run1 FILE STEPS | check FILES | convert OUT FILES
convert out -x ; 0 ; 1 ; usage: mfdeploy run1 FILE STEPS | check FILES | convert OUT FILES
";

/// The files of the store.
fn files(alloc: Global) -> Result<Vec<NamedFile>, Fail> {
    let mut files = Vec::new(alloc);
    files.push(app(alloc, FRONT, "")?)?;
    files.push(lone(alloc, "b.dll")?)?;
    files.push(named(alloc, "c", Vec::from_slice(alloc, &[0x2A])?)?)?;
    Ok(files)
}

/// Whether the store has each file as before, but for the one of this name.
fn others_stay(alloc: Global, run: &Done, out: &str) -> Result<bool, Fail> {
    let mut stay = true;
    let before = files(alloc)?;
    for file in before.as_slice() {
        let name = file.name.as_str();
        stay = stay && (name == out || run.store.bytes(name) == Some(file.bytes.as_slice()));
    }
    Ok(stay)
}

/// Whether a run came to what a line wants: a set of the files behind the first two words and of the library's two, or another text.
fn is_told(alloc: Global, run: &Done, out: &str, line: &Line<'_>) -> Result<bool, Fail> {
    if line.text(3) == "set" {
        let words = line.text(0).split_whitespace().count();
        return is_set(alloc, run, out, words);
    }
    Ok(run.status == line.byte(2)? && tells(run, line.text(3)))
}

#[test]
fn the_store_has_the_set(rt: HostRuntime) -> Result<(), Fail> {
    let alloc = rt.alloc();
    let lines = lines_of(alloc, STORES, ';')?;
    for line in lines.as_slice() {
        let run = run_words(alloc, line.text(0), files(alloc)?, line.number(1)?)?;
        let out = line.text(0).split_whitespace().nth(1).ok_or("a name")?;
        assert!(rt; is_told(alloc, &run, out, line)?, "{}", line.text(0));
        let put = if run.status == 0 { out } else { "" };
        assert!(rt; others_stay(alloc, &run, put)?, "{}", line.text(0));
    }
    Ok(())
}
