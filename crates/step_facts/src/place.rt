//! Where an instruction ends, where it goes, and the token of its operand (ECMA-335 III.1.9).

ghost use Rattle.std.specs.Prelude.{◌≡◌, ◌+◌, ◌<◌, true, Ok, Some, length, slice_get, unsigned_abs};
ghost use Rattle.cil_opcodes.specs.declared.shape.Row.{Row};
ghost use Rattle.cil_opcodes.specs.Rows.{row_of};
ghost use Rattle.cil_code.specs.Instructions.{instruction_at};
ghost use Rattle.code_places.specs.Places.{goes_well, targets_at};
ghost use Rattle.step_facts.specs.Parts.{is_token};

use cil_code::Instr;
use code_places::{Listing, target};
use file_tables::bytes::u32_at;

/// The offset behind an instruction.
pub fn behind(listing: &Listing<'_>, at: u32, instr: &Instr) -> u32
    requires { instruction_at listing.now.code at ≡ Ok instr.now }
    ensures { result ≡ at + instr.now.length }
{
    let _size = listing.body().code_size();
    at + instr.length
}

/// A target of the instruction at an offset, counted from 0, where it goes where instructions start.
pub fn target_of(listing: &Listing<'_>, at: u32, instr: &Instr, k: u64) -> u32
    requires stands { instruction_at listing.now.code at ≡ Ok instr.now }
    requires counted { k < length (targets_at listing.now.code (record { at = at; instr = instr.now })) }
    ensures { goes_well listing.now.code (record { at = at; instr = instr.now }) ≡ true → slice_get (targets_at listing.now.code (record { at = at; instr = instr.now })) k ≡ Some result }
{
    let _size = listing.body().code_size();
    let to = target(listing.body().code(), at, instr, k);
    to.min(u64::from(u32::MAX)) as u32
}

/// The token of an instruction whose operand is one: the last four of its bytes.
pub fn token(listing: &Listing<'_>, at: u32, instr: &Instr) -> u32
    requires { instruction_at listing.now.code at ≡ Ok instr.now }
    ensures { (row : Row) → row_of instr.now.op ≡ Some row → is_token row.operand ≡ true → unsigned_abs instr.now.operand ≡ result }
{
    if instr.length < 4 {
        return 0;
    }
    let from = at as usize + (instr.length as usize - 4);
    u32_at(listing.body().code(), from)
}
