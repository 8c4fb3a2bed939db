//! The rules 20 to 30 alone, without the slots and the code of the later ones.

use anyhow::{Result, bail};
use base_lib::files;
use cil_world::World;
use profile_check::check;
use std::fs;
use std::rt::Files;

/// The base library's files, and the named ones behind them.
fn read_all<R: Files + Print + AllocGlobal>(rt: &R, names: &[String]) -> Result<Vec<Vec<u8>>> {
    let Ok(mut all) = files(rt.alloc()) else {
        bail!("no memory");
    };
    for name in names {
        all.push(fs::read(rt, name.as_str())?)?;
    }
    Ok(all)
}

/// The first rule of 20 to 30 that a world breaks, if one is, as a line.
fn tell_profile<R: Print + AllocGlobal>(rt: &R, world: &World<'_>) -> Result<()> {
    let Ok(fault) = check(rt.alloc(), world) else {
        bail!("no memory");
    };
    match fault {
        Some(fault) => println!(rt;
            "rule {} table {} row {}",
            fault.rule, fault.place.table, fault.place.row
        )?,
        None => println!(rt; "profile kept")?,
    }
    Ok(())
}

/// Opens the files behind the base library, and tells the first rule of 20 to 30 that they break.
pub fn profile_files<R: Files + Print + AllocGlobal>(rt: &R, names: &[String]) -> Result<()> {
    let all = read_all(rt, names)?;
    if all.len() < 2 || all.len() > 1002 {
        bail!("at most 1,000 files");
    }
    let Ok(world) = World::new(rt.alloc(), all.as_slice()) else {
        bail!("a file breaks one of the rules 1 to 13");
    };
    tell_profile(rt, &world)
}
