//! One file of a world.

ghost use Rattle.std.specs.Prelude.{◌≡◌};
ghost use Rattle.type_names.specs.Files.{OpensFile};

use cil_tables::Tables;
use pe_reader::{Pe, metadata};
use plain_types::fault::Fault;

/// The parts of a file.
#[derive(Debug, Drop)]
pub struct File<'a> {
    pub pe: Pe<'a>,
    pub metadata: Tables<'a>,
}

/// The first broken rule of 1 to 13, or the parts of a file.
#[tactic(auto, unfolding(file_tables::specs::File::file_of, file_tables::specs::File::after_pe, file_tables::specs::File::with_metadata))]
pub fn open_file(bytes: &[u8]) -> Result<File<'_>, Fault>
    ensures { OpensFile bytes.now result }
{
    let pe = metadata(bytes)?;
    let metadata = Tables::open(pe.region())?;
    Ok(File { pe, metadata })
}
