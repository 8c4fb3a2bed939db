//! Making the pools of parts.

ghost use Rattle.std.specs.Prelude.{◌≡◌, IfOk};
ghost use Rattle.msspot_write.specs.Parts.{pools_of};

use crate::entries::{Kind, Pool};
use crate::gather::Gathered;
use crate::parts::Parts;
use crate::pooling::Pools;
use plain_types::fault::NoMemory;
use std::alloc::Global;

/// The pools of parts. The walk goes over the name of the assembly, the tables by row and column, and the literals; equal entries
/// of one kind stand once, where the first of them is met. A pool of 4 GiB is as much as no memory.
pub fn pools(alloc: Global, parts: &Parts) -> Result<Pools, NoMemory>
    ensures { IfOk result (λ pools. pools ≡ pools_of parts.now) }
{
    let mut gathered = Gathered {
        strings: Pool::new(alloc),
        signatures: Pool::new(alloc),
        data_pool: Vec::new(alloc),
    };
    gathered
        .strings
        .add(alloc, Kind::Name, parts.name.as_slice())?;
    gathered.add_tables(alloc, parts)?;
    gathered.add_literals(alloc, parts.literals.as_slice())?;
    Ok(Pools::new(gathered))
}
