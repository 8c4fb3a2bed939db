//! Laws of the board's program. Each function does nothing: its contract is the law.

ghost use Rattle.std.specs.Prelude.{◌≡◌, ℕ, List, Option};
ghost use Rattle.machine.specs.Data.{Id};
ghost use Rattle.machine.specs.Program.{Program, Line};
ghost use Rattle.machine.specs.Trace.{trace, is_stuck};
ghost use Rattle.machine_rename.specs.Rename.{Renaming, Answers};
ghost use Rattle.machine_rename.specs.Runs.{IsWithin, fetching, AreTwins};
ghost use Rattle.image_bytes.specs.Layout as layout;
ghost use Rattle.deploy_model.specs.Banks.{Image};
ghost use Rattle.board_model.specs.Bound.{set_rows, bound_program};
ghost use Rattle.board_program.specs.Parts.{set_parts, rows_of_parts};
ghost use Rattle.board_program.specs.Program.{board_program};
ghost use Rattle.board_program.specs.Trace.{board_trace, is_bad};
ghost use Rattle.board_program.specs.Listed.{AreWhole, AreTaken};

/// The rows of a found set are those of its images' parts.
pub fn sets_have_the_rows_of_their_parts()
    ensures { (images : List Image) → set_rows images ≡ rows_of_parts (set_parts images) }
{}

/// What the listing of a method's code shows at a place, the board finds there, where the operand of each instruction of the set is
/// of the kind that the instruction takes.
pub fn listed_instructions_are_found()
    ensures { (is : List layout.Image) → AreWhole is → AreTaken (rows_of_parts is) → IsWithin (bound_program (rows_of_parts is)).fetch (board_program is).fetch }
{}

/// So where the rows of such a set answer as another program does, the board's program is that program's twin.
pub fn boards_are_twins()
    ensures { (r : Renaming) (is : List layout.Image) (ecma : Program) (ecma_starts : Id → ℕ → Option Line) → AreWhole is → AreTaken (rows_of_parts is) → Answers r (bound_program (rows_of_parts is)) (fetching ecma ecma_starts) → IsWithin ecma_starts ecma.fetch → AreTwins r (board_program is) ecma (bound_program (rows_of_parts is)).fetch ecma_starts }
{}

/// A run of a board ends as bad code exactly where the machine has no case for a state, or can't start.
pub fn bad_code_is_a_missing_case()
    ensures { (images : List Image) (n most : ℕ) → is_bad (board_trace images n most).finish ≡ is_stuck (trace (board_program (set_parts images)) n most).finish }
{}
