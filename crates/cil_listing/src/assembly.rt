//! A file with its tables.

use cil_tables::Tables;
use pe_reader::{Pe, metadata};
use plain_types::fault::Fault;

/// The parts of a file that breaks none of rules 1 to 13.
#[derive(Drop)]
pub struct Assembly<'a> {
    pub pe: Pe<'a>,
    pub tables: Tables<'a>,
}

/// The parts of a file, or its first broken rule.
pub fn open(file: &[u8]) -> Result<Assembly<'_>, Fault> {
    let pe = metadata(file)?;
    let tables = Tables::open(pe.region())?;
    Ok(Assembly { pe, tables })
}

/// The text at an index of `#Strings`; empty where none begins there.
pub fn text<'a>(tables: &Tables<'a>, index: u32) -> &'a str {
    tables.string(index).unwrap_or("")
}
