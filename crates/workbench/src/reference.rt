//! The two files of the base library.

use anyhow::{Result, bail};
use base_lib::files;
use std::fs;
use std::rt::Files;

/// The names of the files, in the order in which the base library gives them.
const NAMES: [&str; 2] = ["mscorlib.dll", "Microsoft.SPOT.Native.dll"];

/// Writes the files, and prints a line for each.
fn write_into<R: Files + Print + AllocGlobal>(rt: &R, folder: &str) -> Result<()> {
    let Ok(files) = files(rt.alloc()) else {
        bail!("no memory");
    };
    for (name, file) in NAMES.iter().zip(files.iter()) {
        let path = format!(in rt.alloc(); "{folder}/{name}")?;
        fs::write(rt, path.as_str(), file.as_slice())?;
        println!(rt; "{path}: {} bytes", file.len())?;
    }
    Ok(())
}

/// Writes the files into a folder that is there.
pub fn write_reference<R: Files + Print + AllocGlobal>(rt: &R, words: &[String]) -> Result<()> {
    let [folder] = words else {
        bail!("usage: workbench reference FOLDER");
    };
    write_into(rt, folder.as_str())
}
