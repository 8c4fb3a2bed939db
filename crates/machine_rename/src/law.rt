//! Laws of runs and plans.
ghost use Rattle.std.specs.Prelude.{◌≡◌, ℕ, ◌+◌, ◌-◌, ◌≤◌, Bool, false, List, ◌∷◌, Option, Some};
ghost use Rattle.std.specs.Option.{option_map};
ghost use Rattle.machine.specs.Data.{Id, end_of, Frame, Turn, Finally, State, Going};
ghost use Rattle.machine.specs.Program.{Program, Method, Line, Clause};
ghost use Rattle.machine.specs.Throw.{scan, route_of, search_frames, left};
ghost use Rattle.machine.specs.Rows.{frames_cells};
ghost use Rattle.machine.specs.Step.{step};
ghost use Rattle.machine.specs.Trace.{cells, passes, StepsSpent, state_after, trace};
ghost use Rattle.machine_rename.specs.Again.{again, left_again, Nested};
ghost use Rattle.machine_rename.specs.Rename.{Renaming, Answers, state_to, trace_to};
ghost use Rattle.machine_rename.specs.Runs.{IsWithin, fetching, RunsOn, AreTwins};

/// Two programs that answer alike under a renaming run alike: in equal cells for equal steps they print the same and end the same.
/// Only the place of a missing case is renamed.
pub fn same_trace()
    ensures renamed { (r : Renaming) (low high : Program) → Answers r low high → (n most : ℕ) → trace high n most ≡ trace_to r (trace low n most) }
    ensures equal { (r : Renaming) (low high : Program) → Answers r low high → (n most : ℕ) → RunsOn low n most → trace high n most ≡ trace low n most }
{}

/// Their states are alike after each step: the one's is the other's, renamed, in as many cells.
pub fn same_states()
    ensures renamed { (r : Renaming) (low high : Program) → Answers r low high → (n : ℕ) → state_after high n ≡ option_map (state_to r) (state_after low n) }
    ensures spacious { (r : Renaming) (low high : Program) → Answers r low high → (s : State) → cells high (state_to r s) ≡ cells low s }
    ensures twins { (r : Renaming) (board ecma : Program) (board_starts ecma_starts : Id → ℕ → Option Line) → AreTwins r board ecma board_starts ecma_starts → (n : ℕ) (s : State) → state_after (fetching board board_starts) n ≡ Some s → (state_after board n ≡ Some s) × (state_after ecma n ≡ Some (state_to r s)) }
{}

/// A run whose steps are spent has come to a state: it has what the run shows, and goes on.
pub fn steps_spent()
    ensures { (p : Program) (n most : ℕ) → (trace p n most).finish ≡ StepsSpent → (s : State) × (state_after p n ≡ Some s) × (s.end ≡ Going) × (s.output ≡ (trace p n most).output) × (passes p s most ≡ false) }
{}

/// A program in which more places hold an instruction runs alike, as long as the other one meets no missing case.
pub fn wider_trace()
    ensures { (p : Program) (more : Id → ℕ → Option Line) → IsWithin p.fetch more → (n most : ℕ) → RunsOn p n most → trace (fetching p more) n most ≡ trace p n most }
{}

/// Twins run alike, as long as the one of them meets no missing case at the starts of its instructions; and then neither does the other,
/// and their states are alike.
pub fn lockstep()
    ensures same { (r : Renaming) (board ecma : Program) (board_starts ecma_starts : Id → ℕ → Option Line) → AreTwins r board ecma board_starts ecma_starts → (n most : ℕ) → RunsOn (fetching ecma ecma_starts) n most → trace board n most ≡ trace ecma n most }
    ensures runs { (r : Renaming) (board ecma : Program) (board_starts ecma_starts : Id → ℕ → Option Line) → AreTwins r board ecma board_starts ecma_starts → (n most : ℕ) → RunsOn (fetching ecma ecma_starts) n most → RunsOn board n most }
    ensures states { (r : Renaming) (board ecma : Program) (board_starts ecma_starts : Id → ℕ → Option Line) → AreTwins r board ecma board_starts ecma_starts → (n most : ℕ) → RunsOn (fetching ecma ecma_starts) n most → (trace board n most).finish ≡ StepsSpent → (s : State) × (state_after board n ≡ Some s) × (state_after ecma n ≡ Some (state_to r s)) }
{}

/// The rest of a plan is what is searched again from the finally that has ended: after the first finally of a frame, and after each
/// later one.
pub fn throw_searched_again()
    ensures first { (p : Program) (outer : Id → ℕ → ℕ → Bool) → Nested p outer → (class : Id) (fs : List Frame) (id : Id) (m : Method) → p.method id ≡ Some m → (initialiser : Bool) (place k : ℕ) (turns : List Turn) (catch : ℕ) → route_of initialiser (scan p id place class 0 m.clauses).finals (scan p id place class 0 m.clauses).catch (search_frames p class fs) ≡ Some (record { turns = Finally k ∷ turns; catch = catch }) → again p outer id initialiser k class fs ≡ Some (record { turns = turns; catch = catch }) }
    ensures next { (p : Program) (outer : Id → ℕ → ℕ → Bool) → Nested p outer → (class : Id) (fs : List Frame) (id : Id) (m : Method) → p.method id ≡ Some m → (initialiser : Bool) (k l : ℕ) (turns : List Turn) (catch : ℕ) → again p outer id initialiser k class fs ≡ Some (record { turns = Finally l ∷ turns; catch = catch }) → again p outer id initialiser l class fs ≡ Some (record { turns = turns; catch = catch }) }
{}

/// The same of the finally blocks that a leave runs on its way to its target.
pub fn leave_searched_again()
    ensures first { (p : Program) (outer : Id → ℕ → ℕ → Bool) → Nested p outer → (id : Id) (target : ℕ) (clauses : List Clause) (from k : ℕ) (ks : List ℕ) → left p id from target 0 clauses ≡ k ∷ ks → left_again p outer id k target clauses ≡ ks }
    ensures next { (p : Program) (outer : Id → ℕ → ℕ → Bool) → Nested p outer → (id : Id) (target : ℕ) (clauses : List Clause) (k l : ℕ) (ks : List ℕ) → left_again p outer id k target clauses ≡ l ∷ ks → left_again p outer id l target clauses ≡ ks }
{}

/// Nothing is freed but frames: a step never takes cells from the objects, and a state's cells fall by no more than the frames do.
pub fn cells_never_fall()
    ensures objects { (p : Program) (s t : State) → step p s ≡ Some t → end_of s.heap ≤ end_of t.heap }
    ensures frames { (p : Program) (s t : State) → step p s ≡ Some t → cells p s ≤ cells p t + (frames_cells p s.frames - frames_cells p t.frames) }
{}
