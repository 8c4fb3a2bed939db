//! What the verdict's definitions say of a method's code, by what a listing tells of its bytes.

ghost use Rattle.std.specs.Prelude.{◌≡◌, ℕ, not, List, Some, map, nat_eq};
ghost use Rattle.std.specs.List.{list_any};
ghost use Rattle.std.specs.Option.{option_map};
ghost use Rattle.cil_opcodes.specs.declared.shape.Row.{Row};
ghost use Rattle.cil_opcodes.specs.declared.shape.Shape.{Shape};
ghost use Rattle.cil_opcodes.specs.Rows.{row_of, is_transfer};
ghost use Rattle.cil_code.specs.declared.clause.Clause.{Clause};
ghost use Rattle.cil_code.specs.Bodies.{BodyPart};
ghost use Rattle.cil_code.specs.Walk.{Placed, starts_of};
ghost use Rattle.file_tables.specs.File.{FilePart};
ghost use Rattle.file_tables.specs.Metadata.{MetadataPart};
ghost use Rattle.machine.specs.Data.{ClassOf};
ghost use Rattle.machine.specs.Program.{Method};
ghost use Rattle.classes.specs.Classes.{Classes};
ghost use Rattle.classes.specs.Code.{MethodCode, Operand};
ghost use Rattle.classes.specs.Clauses as lie;
ghost use Rattle.classes.specs.Listed.{instruction_of};
ghost use Rattle.assemblies.specs.Rows.{Assembly};
ghost use Rattle.assemblies.specs.Binding.{operand};
ghost use Rattle.world_rows.specs.Lines.{raw_operand};
ghost use Rattle.code_rules.specs.Flow.{falls};
ghost use Rattle.code_rules.specs.Judgement.{is_start, steps_of};
ghost use Rattle.verdict_rules.specs.World.{World, exception_of};
ghost use Rattle.code_places.specs.Among.{is_among};
ghost use Rattle.code_places.specs.Places.{behind, targets_at};
ghost use Rattle.code_places.specs.Clauses.{clause_seen};
ghost use Rattle.code_tests.specs.Tests.{code_meant, clauses_meant, goes_to};

/// The steps of a method begin where its instructions start; where an instruction goes is in its operand; and it falls through where its
/// opcode isn't an unconditional transfer (ECMA-335 III.1.7.5).
pub fn instruction_laws()
    ensures starts { (w : World) (file : ℕ) (x : FilePart) (m : Method) (b : BodyPart) (n : ℕ) → is_start (steps_of w.sources (ClassOf (exception_of w)) m (code_meant w file x b)) n ≡ is_among (starts_of b.code) n }
    ensures goes { (m : MetadataPart) (k : ℕ) (ps : List Assembly) (file : ℕ) (bytes : List ℕ) (cs : Classes) (code : MethodCode) (p : Placed) (row : Row) → row_of p.instr.op ≡ Some row
        → goes_to (instruction_of cs code p.at row.shape (operand k ps file (raw_operand m bytes p.at (behind p) row.operand p.instr.operand))) ≡ targets_at bytes p }
    ensures falls { (cs : Classes) (code : MethodCode) (at : ℕ) (s : Shape) (o : Operand) → option_map falls (instruction_of cs code at s o) ≡ option_map (λ i. not (is_transfer s)) (instruction_of cs code at s o) }
{}

/// What the clauses of a method say of transfers and of handlers is in their offsets and kinds (ECMA-335 II.25.4.6).
pub fn clause_laws()
    ensures goes { (w : World) (file : ℕ) (x : FilePart) (cs : List Clause) (from to : ℕ) → lie.may_go (clauses_meant w file x cs) from to ≡ lie.may_go (map clause_seen cs) from to }
    ensures leaves { (w : World) (file : ℕ) (x : FilePart) (cs : List Clause) (from to : ℕ) → lie.may_leave (clauses_meant w file x cs) from to ≡ lie.may_leave (map clause_seen cs) from to }
    ensures catches { (w : World) (file : ℕ) (x : FilePart) (cs : List Clause) (at : ℕ) → lie.stands_in_catch (clauses_meant w file x cs) at ≡ lie.stands_in_catch (map clause_seen cs) at }
    ensures finals { (w : World) (file : ℕ) (x : FilePart) (cs : List Clause) (at : ℕ) → lie.stands_in_finally (clauses_meant w file x cs) at ≡ lie.stands_in_finally (map clause_seen cs) at }
    ensures none { (w : World) (file : ℕ) (x : FilePart) (cs : List Clause) (at : ℕ) → lie.stands_in_none (clauses_meant w file x cs) at ≡ lie.stands_in_none (map clause_seen cs) at }
    ensures tries { (w : World) (file : ℕ) (x : FilePart) (cs : List Clause) (at : ℕ) → list_any (λ c. nat_eq c.try_start at) (clauses_meant w file x cs) ≡ list_any (λ (c : Clause). nat_eq c.try_start at) cs }
{}
