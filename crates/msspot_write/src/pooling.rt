//! The pools of parts.

ghost use Rattle.std.specs.Prelude.{◌≡◌, ◌≤◌, [], ◌∷◌, length};
ghost use Rattle.image_pools.specs.Pools.{offset, pool_onto};
ghost use Rattle.image_form.specs.Whole.{name_entry, signature_entry};
ghost use Rattle.msspot_write.specs.Gathers.{IsSound, pools_in};
ghost use Rattle.msspot_write.specs.Parts.{found, literal_of};

use crate::entries::{Kind, PoolEntry};
use crate::gather::Gathered;
use std::marker::Model;

/// The pools of the parts of one assembly: the names and literals, the signatures, and the data.
#[derive(Drop)]
pub struct Pools {
    gathered: Gathered,
}

impl Model for Pools {
    ghost use Rattle.msspot_write.specs.Parts.{PoolsOf};

    ghost Value = { PoolsOf };

    ghost use Rattle.msspot_write.specs.Gathers.{IsSound, pools_in};

    ghost view = { λ p. pools_in p.gathered };

    ghost invariant = { λ p. IsSound p.gathered };
}

impl Pools {
    /// The pools that were gathered.
    pub fn new(gathered: Gathered) -> Pools
        requires { IsSound gathered }
        ensures { result ≡ pools_in gathered }
    {
        Pools { gathered }
    }

    /// The bytes of the pool of strings, and of that of signatures.
    pub fn sizes(&self) -> [u64; 2]
        ensures { result ≡ length (pool_onto self.now.strings []) ∷ length (pool_onto self.now.signatures []) ∷ [] }
    {
        [
            u64::from(self.gathered.strings.size),
            u64::from(self.gathered.signatures.size),
        ]
    }

    /// The offset of a literal, whose units are two bytes each with the lowest first, and `None` exactly where the pool hasn't
    /// it.
    pub fn literal(&self, text: &[u8]) -> Option<u32>
        ensures { result ≡ found self.now.strings (literal_of text.now) }
    {
        self.gathered.strings.find(Kind::Literal, text)
    }

    /// The offset of a name; where it isn't there, the pool's end.
    pub fn name(&self, text: &[u8]) -> u32
        ensures offset { result ≡ offset self.now.strings (name_entry text.now) }
        ensures within { result ≤ length (pool_onto self.now.strings []) }
    {
        self.gathered.strings.offset(Kind::Name, text)
    }

    /// The offset of a signature; where it isn't there, the pool's end.
    pub fn signature(&self, bytes: &[u8]) -> u32
        ensures offset { result ≡ offset self.now.signatures (signature_entry bytes.now) }
        ensures within { result ≤ length (pool_onto self.now.signatures []) }
    {
        self.gathered.signatures.offset(Kind::Signature, bytes)
    }

    /// The entries of the strings, in order.
    pub fn string_entries(&self) -> &[PoolEntry]
        ensures { result.now ≡ self.now.strings }
    {
        self.gathered.strings.entries.as_slice()
    }

    /// The entries of the signatures, in order.
    pub fn signature_entries(&self) -> &[PoolEntry]
        ensures { result.now ≡ self.now.signatures }
    {
        self.gathered.signatures.entries.as_slice()
    }

    /// The data.
    pub fn data_pool(&self) -> &[u8]
        ensures { result.now ≡ self.now.data_pool }
    {
        self.gathered.data_pool.as_slice()
    }
}
