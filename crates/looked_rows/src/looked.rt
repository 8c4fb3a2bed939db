//! Rows of references, each with a bit that says whether a token named it.

ghost use Rattle.std.specs.Prelude.{◌≡◌, ℕ, [], ◌∷◌, ◌+◌, ◌*◌, ◌^◌, ◌<◌, IfOk, length, replicate, false};
ghost use Rattle.file_tables.specs.Metadata.{row_count};
ghost use Rattle.world_rows.specs.Tokens.{member_refs, type_specs};
ghost use Rattle.looked_rows.specs.Marks.{Marks};

use cil_tables::Tables;
use file_tables::numbers::{MEMBER_REF, TYPE_SPEC};
use plain_types::fault::NoMemory;
use std::alloc::Global;

/// Which rows of a file's references are looked at.
#[derive(Drop)]
pub struct Looked {
    /// For each row of MemberRef, from 0 (ECMA-335 II.22.25).
    pub members: Vec<bool>,
    /// For each row of TypeSpec, from 0 (ECMA-335 II.22.39).
    pub specs: Vec<bool>,
}

/// Marks the row of a table that a token names, if it does.
fn mark_row(bits: &mut [bool], table: u8, token: u64)
    ensures { Marks table (token ∷ []) bits.old bits.new }
{
    let first = u64::from(table) * 0x100_0000 + 1;
    if token < first {
        return;
    }
    let n = (token - first) as usize;
    if n < bits.len() {
        bits[n] = true;
    }
}

impl Looked {
    ghost use Rattle.looked_rows.specs.Looked.{Looks};

    /// No row of the tables.
    pub(crate) fn none(alloc: Global, tables: &Tables<'_>) -> Result<Looked, NoMemory>
        ensures members { IfOk result (λ looked. looked.members.items ≡ replicate (row_count tables.now member_refs) false) }
        ensures specs { IfOk result (λ looked. looked.specs.items ≡ replicate (row_count tables.now type_specs) false) }
    {
        Ok(Looked {
            members: vec![in alloc; false; tables.rows(MEMBER_REF) as usize]?,
            specs: vec![in alloc; false; tables.rows(TYPE_SPEC) as usize]?,
        })
    }

    /// Marks the row that a token names, if it is one of these tables.
    pub(crate) fn mark(&mut self, token: u64)
        ensures { Looks (token ∷ []) self.old self.new }
    {
        mark_row(&mut self.members, MEMBER_REF, token);
        mark_row(&mut self.specs, TYPE_SPEC, token);
    }
}
