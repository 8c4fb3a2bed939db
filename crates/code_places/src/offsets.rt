//! Sets of offsets of code.

ghost use Rattle.std.specs.Prelude.{◌≡◌, [], ◌∷◌, IfOk, false, replicate, slice_index_or};
ghost use Rattle.code_places.specs.Marks.{Marks};

use plain_types::fault::NoMemory;
use std::alloc::Global;
use std::marker::Model;

/// Offsets of code. Contracts see a bit for each offset of the code.
#[derive(Drop)]
pub struct Offsets {
    bits: Vec<bool>,
}

impl Model for Offsets {
    ghost use Rattle.std.specs.Prelude.{List, Bool};

    ghost Value = { List Bool };

    ghost view = { λ o. o.bits.items };
}

impl Offsets {
    /// None of the offsets below a size.
    pub fn none(alloc: Global, size: usize) -> Result<Self, NoMemory>
        ensures { IfOk result (λ none. none ≡ replicate size false) }
    {
        let bits = vec![in alloc; false; size]?;
        Ok(Offsets { bits })
    }

    /// Adds an offset, if it is below the size.
    pub fn insert(&mut self, at: u64)
        ensures { Marks (at ∷ []) self.old self.new }
    {
        let at = at as usize;
        if at < self.bits.len() {
            self.bits[at] = true;
        }
    }

    /// Whether an offset is there.
    pub fn has(&self, at: u64) -> bool
        ensures { result ≡ slice_index_or self.now at false }
    {
        let at = at as usize;
        if at < self.bits.len() {
            self.bits[at]
        } else {
            false
        }
    }
}
