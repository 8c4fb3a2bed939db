//! The law. The function does nothing: its contract is the law.

ghost use Rattle.std.specs.Prelude.{◌≡◌, ℕ, List, Some};
ghost use Rattle.board_types.specs.declared.board.Known.{Known};
ghost use Rattle.machine.specs.Data.{Frame, State};
ghost use Rattle.machine.specs.Program.{Program, Instruction};
ghost use Rattle.machine.specs.Throw.{raise};
ghost use Rattle.machine.specs.Step.{act};
ghost use Rattle.tiny_except.specs.Machine.{KeepsRest};
ghost use Rattle.act_rests.specs.Rests.{LeavesRest};

/// Neither literals, static fields, started classes nor the output change in an act but one on static fields or literals, or a call;
/// and in none by an exception.
pub fn acts_keep_the_rest()
    ensures acts { (p : Program) (s : State) (f : Frame) (fs : List Frame) (next : ℕ) (i : Instruction) → LeavesRest i → (t : State) → act p s f fs next i ≡ Some t → KeepsRest s t }
    ensures raises { (p : Program) (s : State) (known : Known) (t : State) → raise p s known ≡ Some t → KeepsRest s t }
{}
