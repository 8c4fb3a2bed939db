//! Rules over rows, as they are found.

ghost use Rattle.std.specs.Prelude.{◌≡◌, List, [], ◌∷◌, IfOk, OnOk};
ghost use Rattle.assemblies.specs.Rows.{Assembly};
ghost use Rattle.row_numbers.specs.Tables.{AreCounts};
ghost use Rattle.row_rules.specs.Links.{row_at, number_there, keeps, rule_between, Adds};

use plain_types::fault::NoMemory;
use row_closure::Rule;
use row_numbers::{RowNumbers, Table};
use std::alloc::Global;

/// A row of a table of a file of a world. Rows count from 0; there may be none of that number.
#[derive(Clone, Copy, Debug, PartialEq, Eq)]
pub struct RowPlace {
    pub file: u16,
    pub table: Table,
    pub row: u32,
}

/// Rules over the numbers of rows: where two rows are kept, a third one is.
#[derive(Debug, Drop)]
pub struct RowRules {
    pub numbers: RowNumbers,
    pub rules: Vec<Rule>,
}

impl RowRules {
    /// No rule yet.
    pub fn new(alloc: Global, numbers: RowNumbers) -> RowRules
        ensures numbers { result.numbers ≡ numbers }
        ensures none { result.rules.items ≡ [] }
    {
        RowRules {
            numbers,
            rules: Vec::new(alloc),
        }
    }

    /// The number of a row, if it is there.
    #[tactic(auto, using(crate::proofs::LinkLaws::number_is))]
    fn number(&self, place: RowPlace) -> Option<u32>
        ensures { (ps : List Assembly) → AreCounts ps self.now.numbers → result ≡ number_there ps (row_at place) }
    {
        self.numbers.number(place.file, place.table, place.row)
    }

    /// The rule over the numbers of rows, if they are there.
    fn rule(&self, first: RowPlace, second: RowPlace, then: RowPlace) -> Option<Rule>
        ensures { (ps : List Assembly) → AreCounts ps self.now.numbers → result ≡ rule_between ps (record { first = row_at first; second = row_at second; then = row_at then }) }
    {
        let first = self.number(first)?;
        let second = self.number(second)?;
        let then = self.number(then)?;
        Some(Rule {
            first,
            second,
            then,
        })
    }

    /// Adds the rule by which the third row is kept where the first two are. Where one of them isn't there, none is added.
    pub fn add(&mut self, first: RowPlace, second: RowPlace, then: RowPlace) -> Result<(), NoMemory>
        ensures { OnOk result (Adds (record { first = row_at first; second = row_at second; then = row_at then } ∷ []) self.old self.new) }
    {
        let Some(rule) = self.rule(first, second, then) else {
            return Ok(());
        };
        self.rules.push(rule)?;
        Ok(())
    }

    /// Adds the rule by which a row keeps another one. Where one of them isn't there, none is added.
    pub fn keep(&mut self, place: RowPlace, then: RowPlace) -> Result<(), NoMemory>
        ensures { OnOk result (Adds (keeps (row_at place) (row_at then) ∷ []) self.old self.new) }
    {
        self.add(place, place, then)
    }
}
