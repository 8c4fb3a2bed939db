//! Clauses of a method that are looked for.

ghost use Rattle.std.specs.Prelude.{◌≡◌, drop, Some};
ghost use Rattle.memory_states.specs.Told.{told, is_between};
ghost use Rattle.tiny_except.specs.Clauses.{counts, takes, meets, is_sought, first_sought};

use board_types::board::{ClauseAt, TypeAt};
use board_types::subclass::Subclass;

/// The number of a finally's kind; a catch has 0.
const FINALLY: u16 = 2;

/// A clause of a method, with its number.
#[derive(Clone, Copy, Debug, PartialEq, Eq)]
pub struct Found {
    pub number: u16,
    pub clause: ClauseAt,
}

/// Which of a method's clauses count.
#[derive(Clone, Copy, Debug, PartialEq, Eq)]
pub enum Regions {
    /// Those whose try holds a place.
    Try(u32),
    /// Those whose try holds the try of a clause.
    Round(ClauseAt),
    /// Those whose handler holds a place.
    Handler(u32),
}

/// What a clause is to be.
#[derive(Clone, Copy, Debug, PartialEq, Eq)]
pub enum Goal {
    /// A catch that takes the class.
    Catch(TypeAt),
    /// A finally, or a catch that takes the class.
    Stop(TypeAt),
    Finally,
    /// A finally that is left on the way to a place.
    Leaving(u32),
}

/// A clause that is looked for.
#[derive(Clone, Copy, Debug, PartialEq, Eq)]
pub struct Sought {
    pub regions: Regions,
    pub goal: Goal,
}

/// The place is one from the first up to the second.
fn lies_between(from: u16, to: u16, at: u32) -> bool
    ensures { result ≡ is_between from to at }
{
    from as u32 <= at && at < to as u32
}

impl Regions {
    /// Whether the clause counts.
    fn count(self, clause: ClauseAt) -> bool
        ensures { result ≡ counts self clause }
    {
        match self {
            Regions::Try(at) => lies_between(clause.try_start, clause.try_end, at),
            Regions::Round(inner) => {
                clause.try_start <= inner.try_start && inner.try_end <= clause.try_end
            }
            Regions::Handler(at) => lies_between(clause.start, clause.end, at),
        }
    }
}

/// Whether the clause is a catch that takes exceptions of the class (I.12.4.2).
fn is_taker<S: Subclass>(types: &S, class: TypeAt, clause: ClauseAt) -> bool
    ensures { result ≡ takes (told (S.sub types.now) (S.clauses types.now)) class clause }
{
    clause.kind == 0 && types.is_sub(class, clause.class)
}

impl Goal {
    /// Whether the clause is what it is to be.
    fn is_met<S: Subclass>(self, types: &S, clause: ClauseAt) -> bool
        ensures { result ≡ meets (told (S.sub types.now) (S.clauses types.now)) self clause }
    {
        match self {
            Goal::Catch(class) => is_taker(types, class, clause),
            Goal::Stop(class) => clause.kind == FINALLY || is_taker(types, class, clause),
            Goal::Finally => clause.kind == FINALLY,
            Goal::Leaving(target) => {
                clause.kind == FINALLY && !lies_between(clause.try_start, clause.try_end, target)
            }
        }
    }
}

/// The first of a method's clauses from a number on that is looked for.
pub fn first<S: Subclass>(types: &S, method: TypeAt, from: u32, sought: Sought) -> Option<Found>
    ensures { result ≡ first_sought (told (S.sub types.now) (S.clauses types.now)) sought from (drop from ((told (S.sub types.now) (S.clauses types.now)).clauses method)) }
{
    for number in from..65536 {
        let clause = types.clause(method, number as u16)?;
        if sought.regions.count(clause) && sought.goal.is_met(types, clause) {
            return Some(Found {
                number: number as u16,
                clause,
            });
        }
    }
    None
}
