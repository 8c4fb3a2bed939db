//! A pool of entries, each of which stands once, in the order of their first use.
//!
//! The texts are those of files that strangers hand in, and a hasher with a seed of the host's needs a handle of the host. So
//! texts are looked up in ordered maps, whose cost no choice of texts makes worse.

ghost use Rattle.std.specs.Prelude.{◌≡◌, ◌+◌, [], ◌++◌, ◌∷◌, IfOk, OnOk, None, Some, false, length, if◌then◌else◌, List, ℕ};
ghost use Rattle.std.specs.List.{list_any};
ghost use Rattle.machine.specs.Texts.{same_text};
ghost use Rattle.image_pools.specs.Pools.{same_entry, offset, entry_size};
ghost use Rattle.msspot_write.specs.Kinds.{entry_of};
ghost use Rattle.msspot_write.specs.Parts.{found};
ghost use Rattle.msspot_write.specs.Starts.{Agrees, added, start_in, start_of};
ghost use Rattle.msspot_write.specs.declared.entries.Kind.{Kind};

use plain_types::fault::NoMemory;
use plain_types::list::Items;
use std::alloc::Global;
use std::collections::BTreeMap;
use std::marker::Model;

/// What an entry is. Equal bytes of two kinds are two entries.
#[derive(Clone, Copy)]
pub enum Kind {
    Name,
    Literal,
    Signature,
}

/// An entry of a pool.
#[derive(Drop)]
pub struct PoolEntry {
    kind: Kind,
    bytes: Items<u8>,
}

impl Model for PoolEntry {
    ghost use Rattle.image_pools.specs.Pools.{Entry};

    ghost Value = { Entry };

    ghost use Rattle.msspot_write.specs.Kinds.{entry_of};

    ghost view = { λ e. entry_of e.kind e.bytes };
}

impl PoolEntry {
    /// The bytes behind the entry's length.
    pub fn bytes(&self) -> &[u8]
        ensures { result.now ≡ self.now.bytes }
    {
        self.bytes.as_slice()
    }
}

/// Where the texts of each kind start.
#[derive(Drop)]
struct Starts {
    names: BTreeMap<Vec<u8>, u32>,
    literals: BTreeMap<Vec<u8>, u32>,
    signatures: BTreeMap<Vec<u8>, u32>,
}

/// A pool, with the offset of each entry.
#[derive(Drop)]
pub struct Pool {
    pub entries: Vec<PoolEntry>,
    /// The bytes of all entries.
    pub size: u32,
    starts: Starts,
}

/// The size of a pool with one more entry. A pool of 4 GiB has no room.
fn grown(size: u32, bytes: &[u8]) -> Result<u32, NoMemory>
    ensures { IfOk result (λ n. n ≡ size + entry_size bytes.now) }
{
    let len = u32::try_from(bytes.len()).map_err(|_error| NoMemory)?;
    let entry = len.checked_add(2).ok_or(NoMemory)?;
    size.checked_add(entry).ok_or(NoMemory)
}

/// Notes where a text starts.
fn note_text(
    alloc: Global,
    starts: &mut BTreeMap<Vec<u8>, u32>,
    text: &[u8],
    start: u32,
) -> Result<(), NoMemory>
    ensures { OnOk result ((other : List ℕ) → start_in starts.new other ≡ (if same_text other text.now then Some start else start_in starts.old other)) }
{
    let copy = Vec::from_slice(alloc, text)?;
    starts.insert(copy, start)?;
    Ok(())
}

impl Starts {
    /// No texts.
    fn new(alloc: Global) -> Starts
        ensures { (kind : Kind) (text : List ℕ) → start_of result kind text ≡ None }
    {
        Starts {
            names: BTreeMap::new(alloc),
            literals: BTreeMap::new(alloc),
            signatures: BTreeMap::new(alloc),
        }
    }

    /// Where a text starts.
    fn get(&self, kind: Kind, text: &[u8]) -> Option<u32>
        ensures { result ≡ start_of self.now kind text.now }
    {
        let starts = match kind {
            Kind::Name => &self.names,
            Kind::Literal => &self.literals,
            Kind::Signature => &self.signatures,
        };
        starts.get(text).copied()
    }

    /// Notes where a text starts.
    fn note(&mut self, alloc: Global, kind: Kind, text: &[u8], start: u32) -> Result<(), NoMemory>
        ensures { OnOk result ((of : Kind) (other : List ℕ) → start_of self.new of other ≡ (if same_entry (entry_of of other) (entry_of kind text.now) then Some start else start_of self.old of other)) }
    {
        match kind {
            Kind::Name => note_text(alloc, &mut self.names, text, start),
            Kind::Literal => note_text(alloc, &mut self.literals, text, start),
            Kind::Signature => note_text(alloc, &mut self.signatures, text, start),
        }
    }
}

impl Pool {
    /// A pool without entries.
    pub fn new(alloc: Global) -> Pool
        ensures entries { result.entries.items ≡ [] }
        ensures agrees { Agrees result }
    {
        Pool {
            entries: Vec::new(alloc),
            size: 0,
            starts: Starts::new(alloc),
        }
    }

    /// Where an entry starts, and `None` exactly where the pool hasn't it.
    pub fn find(&self, kind: Kind, text: &[u8]) -> Option<u32>
        requires { Agrees self.now }
        ensures { result ≡ found self.now.entries.items (entry_of kind text.now) }
    {
        self.starts.get(kind, text)
    }

    /// Where an entry starts, and the end of the pool where it hasn't it.
    pub fn offset(&self, kind: Kind, text: &[u8]) -> u32
        requires { Agrees self.now }
        ensures { result ≡ offset self.now.entries.items (entry_of kind text.now) }
    {
        self.find(kind, text).unwrap_or(self.size)
    }

    /// Adds an entry that isn't there.
    fn append(&mut self, alloc: Global, kind: Kind, text: &[u8]) -> Result<(), NoMemory>
        requires agrees { Agrees self.old }
        requires new { list_any (same_entry (entry_of kind text.now)) self.old.entries.items ≡ false }
        ensures entries { OnOk result (self.new.entries.items ≡ self.old.entries.items ++ entry_of kind text.now ∷ []) }
        ensures agrees { OnOk result (Agrees self.new) }
    {
        let start = self.size;
        let size = grown(start, text)?;
        let bytes = Items::from_vec(Vec::from_slice(alloc, text)?);
        self.starts.note(alloc, kind, text, start)?;
        self.entries.push(PoolEntry { kind, bytes })?;
        self.size = size;
        Ok(())
    }

    /// Adds an entry, unless it is there.
    pub fn add(&mut self, alloc: Global, kind: Kind, text: &[u8]) -> Result<(), NoMemory>
        requires { Agrees self.old }
        ensures entries { OnOk result (self.new.entries.items ≡ added self.old.entries.items (entry_of kind text.now)) }
        ensures agrees { OnOk result (Agrees self.new) }
    {
        match self.find(kind, text) {
            Some(_) => Ok(()),
            None => self.append(alloc, kind, text),
        }
    }
}
