//! The walk over the instructions of code (ECMA-335 III.1.7.2).

ghost use Rattle.std.specs.Prelude.{◌≡◌, ℕ, ◌<◌, ◌^◌, length, false, slice_index_or};
ghost use Rattle.cil_code.specs.Walk.{starts_of};
ghost use Rattle.code_places.specs.Among.{is_among};
ghost use Rattle.code_places.specs.Marks.{Marks};
ghost use Rattle.code_places.specs.Places.{all_targets, end_of, first_astray};

use crate::offsets::Offsets;
use crate::targets::{mark_targets, targets_stand};
use cil_code::instruction;

/// Adds where the instructions of code start and where they go, up to the first that has a fault. Gives the offset behind the last.
pub fn mark_places(code: &[u8], starts: &mut Offsets, targets: &mut Offsets) -> u32
    requires { length code.now < 2 ^ 32 }
    ensures starts { Marks (starts_of code.now) starts.old starts.new }
    ensures targets { Marks (all_targets code.now) targets.old targets.new }
    ensures end { result ≡ end_of code.now }
{
    let mut at: u32 = 0;
    'walk: while (at as usize) < code.len() {
        let instr = match instruction(code, at) {
            Ok(instr) => instr,
            Err(_) => return at,
        };
        starts.insert(u64::from(at));
        mark_targets(targets, code, at, &instr);
        at += instr.length;
    }
    at
}

/// The offset of the first instruction that goes where none starts.
pub fn first_astray(code: &[u8], starts: &Offsets) -> Option<u32>
    requires short { length code.now < 2 ^ 32 }
    requires starts { (n : ℕ) → slice_index_or starts.now n false ≡ is_among (starts_of code.now) n }
    ensures { result ≡ first_astray code.now }
{
    let mut at: u32 = 0;
    'walk: while (at as usize) < code.len() {
        let instr = match instruction(code, at) {
            Ok(instr) => instr,
            Err(_) => return None,
        };
        if !targets_stand(starts, code, at, &instr) {
            return Some(at);
        }
        at += instr.length;
    }
    None
}
