//! The law of lockstep. The function does nothing: its contract is the law.

ghost use Rattle.std.specs.Prelude.{◌≡◌, ℕ, false, List, Some};
ghost use Rattle.file_tables.specs.File.{FilePart};
ghost use Rattle.machine.specs.Data.{State};
ghost use Rattle.machine.specs.Trace.{StepsSpent, state_after, trace};
ghost use Rattle.machine_rename.specs.Rename.{state_to};
ghost use Rattle.assemblies.specs.Chosen.{Choice, renaming};
ghost use Rattle.world_rows.specs.World.{assemblies_of, ecma_program};
ghost use Rattle.base_rows.specs.Facts.{base};
ghost use Rattle.deploy_model.specs.Banks.{Image};
ghost use Rattle.board_program.specs.Parts.{set_parts};
ghost use Rattle.board_program.specs.Program.{board_program};
ghost use Rattle.board_program.specs.Trace.{board_trace, is_bad};
ghost use Rattle.mf_simulate.specs.Shown.{Shows};
ghost use Rattle.mf_simulate.specs.Standing.{StandsFor};

/// A board that runs a set of images which stands for accepted files shows what the machine shows that runs the files themselves, for
/// every number of steps and of cells: the same output, and the same end, a number, the name of a class, or that cells or steps are
/// spent. It never meets bad code. While both go on, the state of the one is that of the other, under the numbers of the kept rows.
pub fn lockstep()
    ensures shows { (xs : List FilePart) (keep : ℕ → Choice) (images : List Image) → StandsFor xs keep images → (n most : ℕ) → Shows (trace (ecma_program (base xs)) n most) (board_trace images n most) }
    ensures sound { (xs : List FilePart) (keep : ℕ → Choice) (images : List Image) → StandsFor xs keep images → (n most : ℕ) → is_bad (board_trace images n most).finish ≡ false }
    ensures states { (xs : List FilePart) (keep : ℕ → Choice) (images : List Image) → StandsFor xs keep images → (n most : ℕ) → (trace (ecma_program (base xs)) n most).finish ≡ StepsSpent → (s : State) × (state_after (board_program (set_parts images)) n ≡ Some s) × (state_after (ecma_program (base xs)) n ≡ Some (state_to (renaming keep (assemblies_of (base xs))) s)) }
{}
