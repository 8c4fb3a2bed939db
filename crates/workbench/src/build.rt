//! The generated assembly, made again and again.

ghost use Rattle.std.specs.Prelude.{◌≤◌};

use anyhow::{Result, bail};
use made_assembly::made;
use plain_types::fault::NoMemory;
use std::alloc::Global;
use std::fs;
use std::rt::Files;

/// What is made how often, and where the last file goes.
#[derive(Clone, Copy)]
struct Rounds<'a> {
    classes: u32,
    rounds: u32,
    file: Option<&'a str>,
}

/// The rounds that words ask for.
fn asked(words: &[String]) -> Result<Rounds<'_>> {
    let [classes, rounds, file @ ..] = words else {
        bail!("usage: workbench build N ROUNDS [FILE]");
    };
    Ok(Rounds {
        classes: classes.as_str().parse::<u32>()?,
        rounds: rounds.as_str().parse::<u32>()?,
        file: file.first().map(|name| name.as_str()),
    })
}

/// The last file, and the bytes of all.
#[derive(Drop)]
struct Made {
    last: Vec<u8>,
    bytes: u64,
}

/// Makes the file of so many classes so often, which is once or more.
fn make(alloc: Global, classes: u32, rounds: u32) -> Result<Made, NoMemory>
    requires low { 1 ≤ classes }
    requires high { classes ≤ 2000 }
{
    let mut last = made(alloc, classes)?;
    let mut bytes = last.len() as u64;
    for _ in 1..rounds {
        last = made(alloc, classes)?;
        bytes = bytes.wrapping_add(last.len() as u64);
    }
    Ok(Made { last, bytes })
}

/// Makes the file of N classes ROUNDS times, and writes the last one where a name is given.
pub fn build_rounds<R: Files + Print + AllocGlobal>(rt: &R, words: &[String]) -> Result<()> {
    let asked = asked(words)?;
    if asked.classes < 1 || asked.classes > 2000 {
        bail!("N is one of 1 to 2000");
    }
    if asked.rounds < 1 {
        bail!("ROUNDS is at least 1");
    }
    let done = match make(rt.alloc(), asked.classes, asked.rounds) {
        Ok(done) => done,
        Err(NoMemory) => bail!("no memory"),
    };
    println!(rt;
        "{} rounds, {} bytes, {} in all",
        asked.rounds,
        done.last.len(),
        done.bytes
    )?;
    if let Some(file) = asked.file {
        fs::write(rt, file, done.last.as_slice())?;
    }
    Ok(())
}
