//! What an implementation of the pass's instructions over a listing needs.

ghost use Rattle.std.specs.Prelude.{◌≡◌, ◌<◌, ℕ, Bool, true, false, List, [], Option, Some, None, Ok, Err, map, length, nat_eq, is_some};
ghost use Rattle.std.specs.List.{list_all, list_any, position};
ghost use Rattle.cil_opcodes.specs.declared.shape.Row.{Row};
ghost use Rattle.cil_opcodes.specs.Rows.{row_of};
ghost use Rattle.cil_code.specs.declared.clause.Clause.{Clause};
ghost use Rattle.cil_code.specs.declared.instructions.Instr.{Instr};
ghost use Rattle.cil_code.specs.Bodies.{BodyPart};
ghost use Rattle.cil_code.specs.Instructions.{instruction_at};
ghost use Rattle.cil_code.specs.Walk.{Placed, code_fault, instructions_of, starts_of};
ghost use Rattle.file_tables.specs.File.{FilePart};
ghost use Rattle.machine.specs.Data.{CliType, ClassOf};
ghost use Rattle.machine.specs.Program.{Method};
ghost use Rattle.classes.specs.Clauses.{is_proper};
ghost use Rattle.classes.specs.Listed.{in_handler};
ghost use Rattle.classes.specs.Code.{Sources};
ghost use Rattle.code_rules.specs.Judgement.{lattice_of};
ghost use Rattle.code_rules.specs.Pass.{Step};
ghost use Rattle.verdict_rules.specs.World.{World, exception_of};
ghost use Rattle.code_places.specs.Among.{is_among};
ghost use Rattle.code_places.specs.Places.{all_targets};
ghost use Rattle.code_places.specs.Clauses.{clause_seen};
ghost use Rattle.forward_pass.specs.Seen.{Agrees, LieFrom, is_target, step_at};
ghost use Rattle.forward_pass.specs.Told.{Acts, AreRanked};
ghost use Rattle.ecma_types.specs.declared.stack.StackType.{StackType as WorldType};
ghost use Rattle.place_types.specs.Types.{from_top, stack_in, Agrees as OrderAgrees};
ghost use Rattle.verify_ops.specs.declared.facts.Facts.{Facts};
ghost use Rattle.verify_ops.specs.Effects.{effect_of};
ghost use Rattle.ecma_effects.specs.Known.{IsKnown, IsWhole};
ghost use Rattle.ecma_effects.specs.Steps.{FitsUp};
ghost use Rattle.pass_steps.specs.Listed.{IsTold, in_front, operand_meant, steps_here};
ghost use Rattle.pass_steps.specs.Seen.{Merges, assignable_seen, fits_seen, rowed, stack_seen};

/// What the pass asks of a method's steps: where rules 41 and 42 are kept they stand behind one another from the first byte to the
/// last, and what one breaks whatever lies on the stack are lower rules than what it breaks with the types there.
pub fn steps_stand()
    ensures lie { (w : World) (file : ℕ) (x : FilePart) (m : Method) (b : BodyPart) → code_fault b.code ≡ None → LieFrom (steps_here w file x m b) 0 (length b.code) }
    ensures ranked { (w : World) (file : ℕ) (x : FilePart) (m : Method) (b : BodyPart) → AreRanked (steps_here w file x m b) }
{}

/// The steps by the instructions at their offsets: each where an instruction starts, with what its opcode, its operand and the
/// clauses tell; and a branch of theirs leads where one of the instructions goes.
pub fn steps_tell()
    ensures some { (w : World) (file : ℕ) (x : FilePart) (m : Method) (b : BodyPart) (at : ℕ) → is_among (starts_of b.code) at ≡ true → (s : Step) × (step_at (steps_here w file x m b) at ≡ Some s) }
    ensures none { (w : World) (file : ℕ) (x : FilePart) (m : Method) (b : BodyPart) (at : ℕ) → is_among (starts_of b.code) at ≡ false → step_at (steps_here w file x m b) at ≡ None }
    ensures told { (w : World) (file : ℕ) (x : FilePart) (m : Method) (b : BodyPart) (at : ℕ) (instr : Instr) (row : Row) (s : Step) → step_at (steps_here w file x m b) at ≡ Some s → instruction_at b.code at ≡ Ok instr → row_of instr.op ≡ Some row → IsTold w file x m b (record { at = at; instr = instr }) row s }
    ensures targets { (w : World) (file : ℕ) (x : FilePart) (m : Method) (b : BodyPart) (at : ℕ) → is_target (steps_here w file x m b) at ≡ is_among (all_targets b.code) at }
{}

/// The instruction in front of another is the nearest that starts below it, and none is in front of the first; a place at the start
/// of the code is in a handler where one begins there.
pub fn front_laws()
    ensures nearest { (code : List ℕ) (before at : ℕ) → is_among (starts_of code) before ≡ true → is_among (starts_of code) at ≡ true → before < at → ((k : ℕ) → before < k → k < at → is_among (starts_of code) k ≡ false) → in_front None (instructions_of code) at ≡ Some before }
    ensures first { (code : List ℕ) → in_front None (instructions_of code) 0 ≡ None }
    ensures begins { (cs : List Clause) → list_all is_proper (map clause_seen cs) ≡ true → list_any (λ c. in_handler c 0) (map clause_seen cs) ≡ is_some (position (λ (c : Clause). nat_eq c.start 0) cs) }
{}

/// What an instruction's effect makes of a stack is what its step makes of it, where the step breaks nothing whatever lies there.
/// The effect is that on the stack's types with rows: a class of row 0, which no file has, is taken as the file's first, by the effect
/// and by the pass alike.
pub fn effects_act()
    ensures left { (w : World) (file : ℕ) (x : FilePart) (m : Method) (b : BodyPart) (p : Placed) (row : Row) (s : Step) (f : Facts) (fits : CliType → CliType → Bool) → row_of p.instr.op ≡ Some row → IsTold w file x m b p row s → s.broken ≡ [] → FitsUp w.sources fits → IsKnown w.sources (ClassOf (exception_of w)) m (operand_meant w file x b p row) f → IsWhole row.shape (operand_meant w file x b p row) p.instr.operand → (old new : List WorldType) → effect_of fits p.instr f (map rowed old) ≡ Ok (from_top new) → Acts stack_seen s old new None }
    ensures broken { (w : World) (file : ℕ) (x : FilePart) (m : Method) (b : BodyPart) (p : Placed) (row : Row) (s : Step) (f : Facts) (fits : CliType → CliType → Bool) → row_of p.instr.op ≡ Some row → IsTold w file x m b p row s → s.broken ≡ [] → FitsUp w.sources fits → IsKnown w.sources (ClassOf (exception_of w)) m (operand_meant w file x b p row) f → IsWhole row.shape (operand_meant w file x b p row) p.instr.operand → (old new : List WorldType) (rule : ℕ) → effect_of fits p.instr f (map rowed old) ≡ Err rule → Acts stack_seen s old new (Some rule) }
    ensures rows { (t : WorldType) → stack_in (rowed t) ≡ stack_seen t }
{}

/// The order of a world's types, told of the code's types with rows, is what the pass asks for, and what the effects of instructions ask
/// for (ECMA-335 I.8.7, III.1.8.1.3).
pub fn orders_agree()
    ensures pass { (x : Sources) → Agrees stack_seen (assignable_seen x) (Merges x) (lattice_of x) }
    ensures effects { (x : Sources) → OrderAgrees (assignable_seen x) (fits_seen x) }
    ensures world { (x : Sources) → FitsUp x (fits_seen x) }
{}
