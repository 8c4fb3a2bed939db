//! The program `mfdeploy`: the words of its command line, files, and standard output.
#![tactic(auto)]

use mfdeploy_top::mfdeploy;
use std::env::Env;
use std::process::ExitCode;
use std::{env, io};
use system_outside::{FileStore, StdSink};

/// The status where there is no memory for the words.
const NO_MEMORY: u8 = 8;

/// The words after the program's name. A word that isn't UTF-8 is `InvalidData`.
fn words(rt: &(impl Env + AllocGlobal)) -> io::Result<Vec<String>> {
    Ok(env::args(rt)?.skip(1).collect(rt.alloc())?)
}

fn main(rt: HostRuntime) -> ExitCode {
    let mut store = FileStore::new(&rt);
    let mut sink = StdSink::new(&rt);
    match words(&rt) {
        Ok(words) => ExitCode::from(mfdeploy(rt.alloc(), &words, &mut store, &mut sink)),
        // A word that is no text makes the words no job, as no word at all does.
        Err(error) if error.kind() == io::ErrorKind::InvalidData => {
            ExitCode::from(mfdeploy(rt.alloc(), &[], &mut store, &mut sink))
        }
        Err(_) => ExitCode::from(NO_MEMORY),
    }
}
