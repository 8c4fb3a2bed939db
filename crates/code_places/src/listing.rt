//! A method's code with where its instructions start and where they go.

ghost use Rattle.std.specs.Prelude.{◌≡◌, ◌<◌, ◌^◌, IfOk, Ok, Some, true, ◌||◌, nat_eq, length, map, slice_get, take};
ghost use Rattle.cil_code.specs.declared.clause.Clause.{Clause};
ghost use Rattle.cil_code.specs.Instructions.{instruction_at};
ghost use Rattle.cil_code.specs.Walk.{starts_of};
ghost use Rattle.code_places.specs.Among.{is_among};
ghost use Rattle.code_places.specs.Places.{all_targets, end_of, first_astray};
ghost use Rattle.code_places.specs.Clauses.{clause_seen, is_bound, stands_on_starts, stands_well};

use crate::clauses::{is_proper, lies_behind};
use crate::offsets::Offsets;
use crate::walk::{first_astray, mark_places};
use cil_code::{Body, Clause, Instr, instruction};
use plain_types::fault::NoMemory;
use std::alloc::Global;
use std::marker::Model;

/// The body of a method, with its clauses, and with where its instructions start and go. Contracts see what the body holds.
#[derive(Drop)]
pub struct Listing<'a> {
    body: Body<'a>,
    clauses: Vec<Clause>,
    starts: Offsets,
    targets: Offsets,
    end: u32,
}

impl<'a> Model for Listing<'a> {
    ghost use Rattle.cil_code.specs.Bodies.{BodyPart};
    ghost use Rattle.code_places.specs.Inside.{IsListing};

    ghost Value = { BodyPart };

    ghost view = { λ l. l.body };

    ghost invariant = { IsListing };
}

impl<'a> Listing<'a> {
    /// The listing of a body, made in one walk over its code.
    pub fn new(alloc: Global, body: Body<'a>) -> Result<Listing<'a>, NoMemory>
        ensures { IfOk result (λ listing. listing ≡ body.entry) }
    {
        let _few = body.code_size();
        let clauses = body.clauses(alloc)?.into_vec();
        let code = body.code();
        let mut starts = Offsets::none(alloc, code.len())?;
        let mut targets = Offsets::none(alloc, code.len())?;
        let end = mark_places(code, &mut starts, &mut targets);
        Ok(Listing {
            body,
            clauses,
            starts,
            targets,
            end,
        })
    }

    /// The body.
    pub fn body(&self) -> &Body<'a>
        ensures { result.now ≡ self.now }
    {
        &self.body
    }

    /// The exception clauses, in the order of the sections (ECMA-335 II.25.4.6).
    pub fn clauses(&self) -> &[Clause]
        ensures { result.now ≡ self.now.clauses }
    {
        &self.clauses
    }

    /// Whether an instruction starts at an offset, in constant time.
    pub fn is_start(&self, at: u32) -> bool
        ensures { result ≡ is_among (starts_of self.now.code) at }
    {
        self.starts.has(u64::from(at))
    }

    /// Whether an instruction of the code goes to an offset by a branch, a leave or a switch, in constant time.
    pub fn is_target(&self, at: u32) -> bool
        requires { at < length self.now.code }
        ensures { result ≡ is_among (all_targets self.now.code) at }
    {
        self.targets.has(u64::from(at))
    }

    /// The instruction that starts at an offset.
    pub fn instruction(&self, at: u32) -> Instr
        requires { is_among (starts_of self.now.code) at ≡ true }
        ensures { instruction_at self.now.code at ≡ Ok result }
    {
        let _few = self.body.code_size();
        match instruction(self.body.code(), at) {
            Ok(instr) => instr,
            Err(_) => unreachable!(),
        }
    }

    /// The offset of the first instruction that goes where none starts, which breaks rule 43.
    pub fn first_astray(&self) -> Option<u32>
        ensures { result ≡ first_astray self.now.code }
    {
        let _few = self.body.code_size();
        first_astray(self.body.code(), &self.starts)
    }

    /// Whether a region may end at an offset: where an instruction starts, or behind the last.
    fn is_bound(&self, at: u32) -> bool
        ensures { result ≡ is_bound self.now.code at }
    {
        self.is_start(at) || at == self.end
    }

    /// Whether the regions of a clause begin and end on instructions.
    fn stands_on_starts(&self, clause: &Clause) -> bool
        ensures { result ≡ stands_on_starts self.now.code (clause_seen clause.now) }
    {
        self.is_start(clause.start)
            && (self.is_start(clause.try_start)
                && (self.is_bound(clause.try_end) && self.is_bound(clause.end)))
    }

    /// The same, and that they hold something, and lie well against each other and against those of the clauses before.
    fn stands_well(&self, before: &[Clause], clause: &Clause) -> bool
        ensures { result ≡ stands_well self.now.code (map clause_seen before.now) (clause_seen clause.now) }
    {
        self.stands_on_starts(clause) && (is_proper(clause) && lies_behind(before, clause))
    }

    /// Whether the regions of a clause of a number from 0 begin and end on instructions, hold something, and lie well
    /// against each other and against those of the clauses before it (ECMA-335 II.19, I.12.4.2); not where there is no such clause.
    pub fn clause_stands(&self, n: usize) -> bool
        ensures { (c : Clause) → slice_get self.now.clauses n ≡ Some c → result ≡ stands_well self.now.code (map clause_seen (take n self.now.clauses)) (clause_seen c) }
    {
        let Some(clause) = self.clauses.get(n) else {
            return false;
        };
        let (before, _) = self.clauses.split_at(n);
        self.stands_well(before, clause)
    }
}
