//! The size of shortened code.

ghost use Rattle.std.specs.Prelude.{◌≡◌, None};
ghost use Rattle.cil_code.specs.Walk.{code_fault};
ghost use Rattle.short_code.specs.Short.{short_end};
ghost use Rattle.code_shrink.specs.Shrunk.{pieces_of};

use crate::step::{short_size, step_at};
use cil_code::Body;

/// The number of bytes of a body's shortened code, whatever limit it passes; a switch of n targets has 2 + 2n. The code has
/// to break no rule of opcodes and ends (III.1.7.2). No memory is taken.
pub fn length(body: &Body) -> u64
    requires { code_fault body.now.code ≡ None }
    ensures { result ≡ short_end (pieces_of body.now.code) }
{
    let code = body.code();
    let size = body.code_size();
    let mut at: u32 = 0;
    let mut short: u64 = 0;
    'walk: while at < size {
        let step = step_at(code, at);
        short += u64::from(short_size(step));
        at += step.instr.length;
    }
    short
}
