//! The laws of typed programs.
ghost use Rattle.std.specs.Prelude.{◌≡◌, ℕ, false};
ghost use Rattle.machine.specs.Program.{Program};
ghost use Rattle.machine.specs.Trace.{is_stuck, trace};
ghost use Rattle.machine_typed.specs.Accepted.{Typing, Accepted};

/// No run of a typed program meets an instruction that has no case, and each has a start.
pub fn never_stuck()
    ensures { (p : Program) (t : Typing) → Accepted p t → (n most : ℕ) → is_stuck (trace p n most).finish ≡ false }
{}
