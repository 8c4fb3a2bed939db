//! A program beside the product, for samples and benchmarks. It does one task, or several with the word `then` between them:
//!
//! - `list FILES` prints the row counts, the types and the methods of each file;
//! - `members FILES` prints the types of each file with their superclasses, and their members with flags and signatures;
//! - `sum FILES` reads every column of every row, and prints how many rows there are and the sum of their columns modulo 2^32;
//! - `profile FILES` opens the files behind the base library, and prints the first rule of 20 to 30 that they break, if one is;
//! - `build N ROUNDS` makes the generated assembly of N classes so often, and prints how often, the bytes of one file and those
//!   of all; `build N ROUNDS FILE` also writes the last file there;
//! - `packets N` spells N packets of 1,016 bytes, reads each back, and prints how many came back whole and the sum of their
//!   sequence numbers modulo 2^32;
//! - `reference FOLDER` writes the two files of the base library, by which IL is resolved, into a folder that is there.
#![tactic(auto)]

mod build;
mod listing;
mod packets;
mod profile;
mod reference;
mod sum;
mod tables;

use anyhow::{Result, bail};
use build::build_rounds;
use packets::packet_rounds;
use profile::profile_files;
use reference::write_reference;
use std::env;
use std::env::Env;
use std::rt::Files;
use tables::{Walk, walk_files};

/// Does one task.
fn task<R: Files + Print + AllocGlobal>(rt: &R, words: &[String]) -> Result<()> {
    let [word, rest @ ..] = words else {
        bail!("usage: workbench list | members | sum | profile | build | packets | reference");
    };
    match word.as_str() {
        "list" => walk_files(rt, Walk::List, rest),
        "members" => walk_files(rt, Walk::Members, rest),
        "sum" => walk_files(rt, Walk::Sum, rest),
        "build" => build_rounds(rt, rest),
        "packets" => packet_rounds(rt, rest),
        "profile" => profile_files(rt, rest),
        "reference" => write_reference(rt, rest),
        _ => bail!("usage: workbench list | members | sum | profile | build | packets | reference"),
    }
}

fn run<R: Files + Env + Print + AllocGlobal>(rt: &R) -> Result<()> {
    let mut words: Vec<String> = Vec::new(rt.alloc());
    for word in env::args(rt)?.skip(1) {
        if word.as_str() == "then" {
            task(rt, words.as_slice())?;
            words = Vec::new(rt.alloc());
        } else {
            words.push(word)?;
        }
    }
    task(rt, words.as_slice())
}

fn main(rt: HostRuntime) -> Result<()> {
    run(&rt)
}
