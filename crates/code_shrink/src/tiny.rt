//! The call.

ghost use Rattle.std.specs.Prelude.{◌≡◌, ◌<◌, ◌^◌, length, IfOk, IfErr, OnOk, None};
ghost use Rattle.code_shrink.specs.Limits.{far_in, wide_in, IsRefused};
ghost use Rattle.code_shrink.specs.Shrunk.{CanShrink, pieces_of, shrunk_bytes};
ghost use Rattle.code_shrink.specs.Starts.{Pairs, Rise, short_in};

use crate::limits::{first_far, first_wide};
use crate::refusal::ShrinkRefusal;
use crate::renumber::Renumber;
use crate::starts::{Start, found, starts};
use crate::write::bytes;
use cil_code::Body;
use std::alloc::Global;
use std::marker::Model;

/// A method's shortened code. Contracts see its bytes, and where instructions start in both codes.
#[derive(Debug, Drop)]
pub struct Tiny {
    code: Vec<u8>,
    starts: Vec<Start>,
}

impl Model for Tiny {
    ghost use Rattle.code_shrink.specs.Starts.{Shortened, Rise};

    ghost Value = { Shortened };

    ghost view = { λ t. record { code = t.code.items; starts = t.starts.items } };

    ghost invariant = { λ t. Rise t.starts.items };
}

impl Tiny {
    /// Code and its starts.
    fn of_parts(code: Vec<u8>, starts: Vec<Start>) -> Self
        requires { Rise starts.items }
        ensures { result ≡ record { code = code.items; starts = starts.items } }
    {
        Tiny { code, starts }
    }

    /// The bytes of the shortened code.
    pub fn code(&self) -> &[u8]
        ensures { result.now ≡ self.now.code }
    {
        self.code.as_slice()
    }

    /// The offset in the shortened code of the instruction that starts at an offset of the file's code, and the end of the
    /// one for the end of the other. None exactly where no instruction starts and the code doesn't end. The time is
    /// logarithmic in the number of instructions.
    pub fn offset(&self, at: u32) -> Option<u32>
        ensures { result ≡ short_in self.now.starts at }
    {
        found(self.starts.as_slice(), at)
    }
}

/// The shortened code of code.
fn shrink_code<N: Renumber>(alloc: Global, code: &[u8], renumber: &N) -> Result<Tiny, ShrinkRefusal>
    requires small { length code.now < 2 ^ 32 }
    requires sound { CanShrink code.now }
    ensures near { OnOk result (far_in code.now ≡ None) }
    ensures few { OnOk result (wide_in code.now ≡ None) }
    ensures code { IfOk result (λ tiny. tiny.code ≡ shrunk_bytes (N.numbered renumber.now) code.now) }
    ensures places { IfOk result (λ tiny. Pairs (pieces_of code.now) tiny.starts) }
    ensures refused { IfErr result (λ refusal. IsRefused code.now refusal) }
{
    let starts = starts(alloc, code)?;
    if let Some(distance) = first_far(code, starts.as_slice()) {
        return Err(ShrinkRefusal::Branch { distance });
    }
    if let Some(targets) = first_wide(code) {
        return Err(ShrinkRefusal::Switch { targets });
    }
    let short = bytes(alloc, code, starts.as_slice(), renumber)?;
    Ok(Tiny::of_parts(short, starts))
}

/// The code of a body with operands of 16 bits: each token is the number that `renumber` gives it, each distance leads to
/// where its target comes to lie, and all else stays. A short branch stays short.
///
/// The code has to break no rule of opcodes and ends (III.1.7.2), and each branch and switch has to lead to instructions.
///
/// `Branch` exactly where a distance of a long branch or a switch comes to lie outside -32,768 to 32,767, `Switch` exactly
/// where none does, but a switch has more than 255 targets. Of both the first, by offset.
pub fn shrink<N: Renumber>(alloc: Global, body: &Body, renumber: &N) -> Result<Tiny, ShrinkRefusal>
    requires { CanShrink body.now.code }
    ensures near { OnOk result (far_in body.now.code ≡ None) }
    ensures few { OnOk result (wide_in body.now.code ≡ None) }
    ensures code { IfOk result (λ tiny. tiny.code ≡ shrunk_bytes (N.numbered renumber.now) body.now.code) }
    ensures places { IfOk result (λ tiny. Pairs (pieces_of body.now.code) tiny.starts) }
    ensures refused { IfErr result (λ refusal. IsRefused body.now.code refusal) }
{
    let _small = body.code_size();
    shrink_code(alloc, body.code(), renumber)
}
