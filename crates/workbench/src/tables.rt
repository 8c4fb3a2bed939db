//! The tables of assemblies.

use crate::{listing, sum};
use anyhow::{Result, anyhow};
use cil_listing::assembly::open;
use cil_listing::members;
use plain_types::fault::Fault;
use std::fs;
use std::rt::Files;

/// What is done with the tables of a file.
#[derive(Clone, Copy)]
pub enum Walk {
    List,
    Members,
    Sum,
}

/// The refusal of a file, as an error.
fn refused(name: &str, fault: Fault) -> anyhow::Error {
    anyhow!(
        "{name} breaks rule {} at offset {}",
        fault.rule,
        fault.place.offset
    )
}

/// Walks one file.
fn walk_file<R: Files + Print + AllocGlobal>(rt: &R, what: Walk, name: &str) -> Result<()> {
    let bytes = fs::read(rt, name)?;
    let assembly = match open(bytes.as_slice()) {
        Ok(assembly) => assembly,
        Err(fault) => return Err(refused(name, fault)),
    };
    match what {
        Walk::List => {
            println!(rt; "{name}")?;
            listing::list(rt, &assembly.tables)?;
        }
        Walk::Members => {
            let lines = members::listing(rt.alloc(), &assembly)?;
            print!(rt; "{lines}")?;
        }
        Walk::Sum => {
            let sum = sum::sum_of(&assembly.tables);
            println!(rt; "{} rows, sum {}", sum.rows, sum.columns)?;
        }
    }
    Ok(())
}

/// Walks files one after the other.
pub fn walk_files<R: Files + Print + AllocGlobal>(
    rt: &R,
    what: Walk,
    names: &[String],
) -> Result<()> {
    for name in names {
        walk_file(rt, what, name.as_str())?;
    }
    Ok(())
}
