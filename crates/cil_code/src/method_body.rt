//! Bodies of methods (II.25.4).

ghost use Rattle.std.specs.Prelude.{◌≡◌, ◌^◌, ◌<◌, length, IfOk, Some, slice_get};
ghost use Rattle.cil_code.specs.Sections.{clauses_in};

use crate::clause::Clause;
use crate::sections::{all_clauses, numbered_clause};
use plain_types::fault::NoMemory;
use plain_types::list::Items;
use std::alloc::Global;
use std::marker::Model;

/// A body in place. Contracts see what it holds: the depth of its stack, the token of its locals, its code and its clauses.
#[derive(Drop)]
pub struct Body<'a> {
    max_stack: u16,
    locals_token: u32,
    code: &'a [u8],
    sections: &'a [u8],
    clause_count: u32,
}

impl<'a> Model for Body<'a> {
    ghost use Rattle.std.specs.Prelude.{◌≡◌, ◌^◌, ◌<◌, length};
    ghost use Rattle.cil_code.specs.Bodies.{BodyPart};
    ghost use Rattle.cil_code.specs.Sections.{clauses_in};

    ghost Value = { BodyPart };

    ghost view = { λ b. record { max_stack = b.max_stack; locals_token = b.locals_token; code = b.code.now; clauses = clauses_in b.sections.now } };

    ghost invariant = { λ b. (b.clause_count ≡ length (clauses_in b.sections.now)) × (length b.code.now < 2 ^ 32) };
}

impl<'a> Body<'a> {
    /// A body of these parts, whose sections have so many clauses.
    pub(crate) fn of_parts(
        max_stack: u16,
        locals_token: u32,
        code: &'a [u8],
        sections: &'a [u8],
        clause_count: u32,
    ) -> Self
        requires counted { clause_count ≡ length (clauses_in sections.now) }
        requires small { length code.now < 2 ^ 32 }
        ensures { result ≡ record { max_stack = max_stack; locals_token = locals_token; code = code.now; clauses = clauses_in sections.now } }
    {
        Body {
            max_stack,
            locals_token,
            code,
            sections,
            clause_count,
        }
    }

    /// The most values on the stack.
    pub fn max_stack(&self) -> u16
        ensures { result ≡ self.now.max_stack }
    {
        self.max_stack
    }

    /// The token of the signature of the locals, or 0 where there are none. Whether it names such a row isn't looked at.
    pub fn locals_token(&self) -> u32
        ensures { result ≡ self.now.locals_token }
    {
        self.locals_token
    }

    /// The bytes of the instructions.
    pub fn code(&self) -> &'a [u8]
        ensures { result.now ≡ self.now.code }
    {
        self.code
    }

    /// The number of bytes of the instructions, the header's CodeSize.
    pub fn code_size(&self) -> u32
        ensures { result ≡ length self.now.code }
    {
        self.code.len() as u32
    }

    /// How many exception clauses there are.
    pub fn clause_count(&self) -> u32
        ensures { result ≡ length self.now.clauses }
    {
        self.clause_count
    }

    /// The exception clause of a number, counted from 0 in the order of the sections, in time linear in their number.
    pub fn clause(&self, k: u32) -> Clause
        requires { k < length self.now.clauses }
        ensures { slice_get self.now.clauses k ≡ Some result }
    {
        numbered_clause(self.sections, k as usize)
    }

    /// All exception clauses in the order of the sections.
    pub fn clauses(&self, alloc: Global) -> Result<Items<Clause>, NoMemory>
        ensures { IfOk result (λ clauses. clauses ≡ self.now.clauses) }
    {
        let clauses = all_clauses(alloc, self.sections, self.clause_count as usize)?;
        Ok(Items::from_vec(clauses))
    }
}
