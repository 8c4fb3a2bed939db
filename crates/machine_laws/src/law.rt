//! The laws of two machines that run one typed program.
ghost use Rattle.std.specs.Prelude.{◌≡◌, ℕ, Option, Some};
ghost use Rattle.machine.specs.Data.{Id, State};
ghost use Rattle.machine.specs.Program.{Program, Line};
ghost use Rattle.machine.specs.Trace.{StepsSpent, state_after, trace};
ghost use Rattle.machine_rename.specs.Rename.{Renaming, state_to};
ghost use Rattle.machine_rename.specs.Runs.{fetching, RunsOn, AreTwins};
ghost use Rattle.machine_typed.specs.Accepted.{Typing, Accepted};

/// Twins of which the one is typed at the starts of its instructions run alike, in equal cells for equal steps; and neither
/// meets a missing case. While they go on, the state of the one is that of the other, renamed.
pub fn lockstep()
    ensures same { (r : Renaming) (board ecma : Program) (t : Typing) (board_starts ecma_starts : Id → ℕ → Option Line) → AreTwins r board ecma board_starts ecma_starts → Accepted (fetching ecma ecma_starts) t → (n most : ℕ) → trace board n most ≡ trace ecma n most }
    ensures runs { (r : Renaming) (board ecma : Program) (t : Typing) (board_starts ecma_starts : Id → ℕ → Option Line) → AreTwins r board ecma board_starts ecma_starts → Accepted (fetching ecma ecma_starts) t → (n most : ℕ) → RunsOn board n most }
    ensures states { (r : Renaming) (board ecma : Program) (t : Typing) (board_starts ecma_starts : Id → ℕ → Option Line) → AreTwins r board ecma board_starts ecma_starts → Accepted (fetching ecma ecma_starts) t → (n most : ℕ) → (trace board n most).finish ≡ StepsSpent → (s : State) × (state_after board n ≡ Some s) × (state_after ecma n ≡ Some (state_to r s)) }
{}
