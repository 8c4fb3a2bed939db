//! Runs of the job `convert` over files in memory.

use assembly_rows::lines::{Assembly, made};
use cil_build::build::Build;
use mf_types::files::NamedFile;
use mfdeploy_top::mfdeploy;
use outside_in_memory::{MemorySink, MemoryStore};
use plain_types::list::{Items, Text};
use std::alloc::Global;
use std::test::Fail;

/// The name of the file that the set is put as.
pub const OUT: &str = "out";

/// The token of the first method, which is the entry of each program.
pub const MAIN: u32 = 0x0600_0001;

/// What a run came to.
#[derive(Drop)]
pub struct Done {
    pub status: u8,
    pub store: MemoryStore,
    pub sink: MemorySink,
}

/// A file of a store.
pub fn named(alloc: Global, name: &str, bytes: Vec<u8>) -> Result<NamedFile, Fail> {
    let name = Text::copied(alloc, name).map_err(|_| "memory")?;
    Ok(NamedFile {
        name,
        bytes: Items::from_vec(bytes),
    })
}

/// The file of an assembly that is built.
pub fn built(alloc: Global, name: &str, build: Build) -> Result<NamedFile, Fail> {
    let bytes = build.finish(alloc).ok().ok_or("there is room")?;
    named(alloc, name, bytes)
}

/// The file of an assembly of the same name that has nothing but its row and `<Module>`.
pub fn lone(alloc: Global, name: &str) -> Result<NamedFile, Fail> {
    built(alloc, name, Build::new(alloc, name, [1, 0, 0, 0])?)
}

/// The file `a.dll`, the assembly App of these rows, whose first method is the entry.
pub fn app(alloc: Global, front: &str, rows: &str) -> Result<NamedFile, Fail> {
    let assembly = Assembly {
        name: "App",
        entry: MAIN,
        front,
        rows,
        changes: "",
    };
    named(alloc, "a.dll", made(alloc, &assembly)?)
}

/// The words of a text.
fn words_of(alloc: Global, text: &str) -> Result<Vec<String>, Fail> {
    let mut words = Vec::new(alloc);
    for word in text.split_whitespace() {
        words.push(String::from_str(alloc, word)?)?;
    }
    Ok(words)
}

/// Runs the program with the words of a text over a store of these files, of which the call of this number fails, 0 for none.
pub fn run_words(
    alloc: Global,
    words: &str,
    files: Vec<NamedFile>,
    due: u32,
) -> Result<Done, Fail> {
    let words = words_of(alloc, words)?;
    let fails = vec![in alloc; due; 1]?;
    let mut store = MemoryStore::new(files, fails);
    let mut sink = MemorySink::new(alloc, Vec::new(alloc), 10_000).map_err(|_| "memory")?;
    let status = mfdeploy(alloc, &words, &mut store, &mut sink);
    Ok(Done {
        status,
        store,
        sink,
    })
}

/// Runs the job `convert` of these files, in their order, to the file [`OUT`].
pub fn run(alloc: Global, files: Vec<NamedFile>) -> Result<Done, Fail> {
    let mut words = String::from_str(alloc, "convert ")?;
    words.push_str(OUT)?;
    for file in files.as_slice() {
        words.push_str(" ")?;
        words.push_str(file.name.as_str())?;
    }
    run_words(alloc, words.as_str(), files, 0)
}

/// The same of one file.
pub fn run_one(alloc: Global, file: NamedFile) -> Result<Done, Fail> {
    let mut files = Vec::new(alloc);
    files.push(file)?;
    run(alloc, files)
}

/// Whether the text of a run is a line with its end; no text where the line is empty.
pub fn tells(run: &Done, line: &str) -> bool {
    match run.sink.written() {
        [front @ .., b'\n'] => front == line.as_bytes(),
        bytes => bytes.is_empty() && line == "",
    }
}

/// Whether a run converted so many assemblies into the set that the store has under this name.
pub fn is_set(alloc: Global, run: &Done, out: &str, assemblies: usize) -> Result<bool, Fail> {
    let Some(set) = run.store.bytes(out) else {
        return Ok(false);
    };
    let bytes = set.len();
    let line = format!(in alloc; "converted: {bytes} bytes, {assemblies} assemblies")?;
    Ok(run.status == 0 && tells(run, line.as_str()))
}

/// Whether a run came to a limit, which this line tells, and put nothing.
pub fn is_limit(run: &Done, line: &str) -> bool {
    run.status == 3 && tells(run, line) && run.store.bytes(OUT).is_none()
}
