//! A program beside the product: does the jobs of a list, as `mfdeploy` does them one by one. `samples_run LIST` reads a file with
//! the words of a job in each line, separated by one space, and prints each job, its text and its status.
#![tactic(auto)]

use anyhow::Result;
use mfdeploy_top::mfdeploy;
use std::env::Env;
use std::rt::Files;
use std::{env, fs};
use system_outside::{FileStore, StdSink};

/// Does the job of a line.
fn job<R: Files + Print + AllocGlobal>(rt: &R, line: &str) -> Result<()> {
    let mut words: Vec<String> = Vec::new(rt.alloc());
    for word in line.split(' ') {
        words.push(String::from_str(rt.alloc(), word)?)?;
    }
    println!(rt; "$ mfdeploy {line}")?;
    let mut store = FileStore::new(rt);
    let mut sink = StdSink::new(rt);
    let status = mfdeploy(rt.alloc(), &words, &mut store, &mut sink);
    println!(rt; "status {status}")?;
    Ok(())
}

fn run<R: Files + Env + Print + AllocGlobal>(rt: &R) -> Result<()> {
    for name in env::args(rt)?.skip(1) {
        let list = fs::read_to_string(rt, name.as_str())?;
        for line in list.lines() {
            job(rt, line)?;
        }
    }
    Ok(())
}

fn main(rt: HostRuntime) -> Result<()> {
    run(&rt)
}
