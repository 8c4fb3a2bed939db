//! Where the places of a file's code come to lie in the shortened code, whatever its tokens become.

ghost use Rattle.std.specs.Prelude.{◌≡◌, ◌^◌, ◌<◌, length, IfOk};
ghost use Rattle.short_code.specs.Short.{to_short};
ghost use Rattle.code_shrink.specs.Shrunk.{pieces_of};
ghost use Rattle.code_shrink.specs.Starts.{way};

use crate::starts::{Start, last_up_to, starts};
use plain_types::fault::NoMemory;
use std::alloc::Global;
use std::marker::Model;

/// Where the places of a method's code come to lie. Contracts see the starts of its instructions in both codes, and the way that
/// they tell.
#[derive(Debug, Drop)]
pub struct ShortPlaces {
    starts: Vec<Start>,
}

impl Model for ShortPlaces {
    ghost use Rattle.std.specs.Prelude.{List};
    ghost use Rattle.code_shrink.specs.declared.starts.Start.{Start};
    ghost use Rattle.code_shrink.specs.Starts.{TellWay};

    ghost Value = { List Start };

    ghost view = { λ p. p.starts.items };

    ghost invariant = { λ p. TellWay p.starts.items };
}

impl ShortPlaces {
    /// The places of code, whose instructions are those that can be read up to its end or to the first fault (ECMA-335
    /// III.1.7.2). Time and memory are linear in the number of instructions.
    pub fn new(alloc: Global, code: &[u8]) -> Result<ShortPlaces, NoMemory>
        requires { length code.now < 2 ^ 32 }
        ensures { IfOk result (λ places. way places ≡ to_short (pieces_of code.now)) }
    {
        let starts = starts(alloc, code)?;
        Ok(ShortPlaces { starts })
    }

    /// Where a place of the file's code comes to lie. One inside an instruction comes to its start, and one behind the last
    /// instruction stays as far behind it. The time is logarithmic in the number of instructions.
    pub fn short(&self, at: u32) -> u32
        ensures { result ≡ way self.now at }
    {
        let starts = self.starts.as_slice();
        let last = last_up_to(starts, at);
        let start = starts[last];
        if last + 1 == starts.len() {
            start.short + at.saturating_sub(start.long)
        } else {
            start.short
        }
    }
}
