//! What is told of assemblies behind the base library.

use base_lib::files;
use cil_world::World;
use plain_types::fault::Fault;
use profile_check::check;
use std::alloc::Global;
use std::test::Fail;

/// The first rule of 20 to 30 that files break, the first two of them the base library's. They break none of 1 to 13.
pub fn told(alloc: Global, all: &[Vec<u8>]) -> Result<Option<Fault>, Fail> {
    if all.len() < 2 || all.len() > 1002 {
        None.ok_or("so few files")?
    }
    let world = World::new(alloc, all)
        .ok()
        .ok_or("no rule of 1 to 13 is broken")?;
    Ok(check(alloc, &world)?)
}

/// The same of a file behind the base library.
pub fn told_of(alloc: Global, file: Vec<u8>) -> Result<Option<Fault>, Fail> {
    let mut all = files(alloc)?;
    all.push(file)?;
    told(alloc, all.as_slice())
}
