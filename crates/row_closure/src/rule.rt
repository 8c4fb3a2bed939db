//! Rules over rows.

ghost use Rattle.std.specs.Prelude.{◌≡◌};
ghost use Rattle.row_closure.specs.Chains.{row_of};

/// Where both of two rows are kept, a third one is. A rule with one premise names it twice. Rows are numbers from 0.
#[derive(Clone, Copy, Debug, PartialEq, Eq)]
pub struct Rule {
    pub first: u32,
    pub second: u32,
    pub then: u32,
}

/// One of a rule's premises.
#[derive(Clone, Copy, Debug, PartialEq, Eq)]
pub enum Premise {
    First,
    Second,
}

impl Rule {
    /// The row that a premise names.
    pub fn row(&self, premise: Premise) -> u32
        ensures { result ≡ row_of premise self.now }
    {
        match premise {
            Premise::First => self.first,
            Premise::Second => self.second,
        }
    }
}
