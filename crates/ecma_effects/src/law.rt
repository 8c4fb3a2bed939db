//! The effect of an instruction is the pass's step.

ghost use Rattle.std.specs.Prelude.{ℕ, Ok, Err, ◌≡◌, ℤ, Bool, true, false, List, map};
ghost use Rattle.std.specs.List.{list_any};
ghost use Rattle.machine.specs.Data.{CliType, Id};
ghost use Rattle.machine.specs.Program.{Method};
ghost use Rattle.machine_typed.specs.Typing.{StackType};
ghost use Rattle.classes.specs.Code.{MethodCode, CodeLine, Sources};
ghost use Rattle.classes.specs.Listed.{instruction_of};
ghost use Rattle.code_rules.specs.Verdict.{stands};
ghost use Rattle.place_types.specs.Types.{stack_up, from_top, in_world};
ghost use Rattle.verify_ops.specs.declared.facts.Facts.{Facts};
ghost use Rattle.verify_ops.specs.Facts.{instruction_by};
ghost use Rattle.cil_code.specs.declared.instructions.Instr.{Instr};
ghost use Rattle.ecma_types.specs.declared.stack.StackType.{StackType as WorldType};
ghost use Rattle.verify_ops.specs.Effects.{effect_by, effect_of, shape_of, is_never, lowest};
ghost use Rattle.classes.specs.Classes.{Classes};
ghost use Rattle.classes.specs.Reading.{IsRead};
ghost use Rattle.class_rules.specs.Rules.{Keeps};
ghost use Rattle.verify_ops.specs.declared.facts.FieldOperand.{FieldOperand};
ghost use Rattle.verify_ops.specs.declared.facts.MethodOperand.{MethodOperand};
ghost use Rattle.ecma_effects.specs.Known.{IsKnown, IsWhole, IsField, IsMethod};
ghost use Rattle.ecma_effects.specs.Told.{TellsField, TellsMethod, Tabled};
ghost use Rattle.ecma_effects.specs.Steps.{FitsUp, step_effect, effect_up, step_rules, StepLeaves, HasRows};

/// What an instruction makes of a stack, from what is known of it, is what the step of the pass makes of that stack, or the lowest
/// of rules 46 to 54 that the step breaks by itself: its operand's (46), its number's (47), its stack's (50, 51, 53, 54). It stands
/// where it may (45).
pub fn effects_are_steps()
    ensures { (x : Sources) (exception : CliType) (m : Method) (code : MethodCode) (l : CodeLine) (f : Facts) (n : ℤ) (fits : CliType → CliType → Bool) → FitsUp x fits → IsKnown x exception m l.operand f → IsWhole l.shape l.operand n → stands code.clauses l.at l.shape (instruction_of x.classes code l.at l.shape l.operand) ≡ true → (ts : List StackType) → list_any is_never ts ≡ false → effect_by fits f l.shape (instruction_by l.shape n f.operand) (map stack_up ts) ≡ effect_up (step_effect x exception m l.shape l.operand (instruction_of x.classes code l.at l.shape l.operand) ts) }
{}

/// So the types that the effect leaves on a world's stack are those that the step leaves, and have rows again; and a rule that the
/// effect names is the lowest of those from 46 on that the step breaks by itself.
pub fn effects_tell_steps()
    ensures left { (x : Sources) (exception : CliType) (m : Method) (code : MethodCode) (l : CodeLine) (f : Facts) (op : Instr) (fits : CliType → CliType → Bool) → FitsUp x fits → IsKnown x exception m l.operand f → shape_of op.op ≡ l.shape → IsWhole l.shape l.operand op.operand → stands code.clauses l.at l.shape (instruction_of x.classes code l.at l.shape l.operand) ≡ true → (before after : List WorldType) → HasRows before → effect_of fits op f before ≡ Ok (from_top after) → HasRows after × StepLeaves x exception m l.shape l.operand (instruction_of x.classes code l.at l.shape l.operand) (in_world before) (in_world after) }
    ensures broken { (x : Sources) (exception : CliType) (m : Method) (code : MethodCode) (l : CodeLine) (f : Facts) (op : Instr) (fits : CliType → CliType → Bool) → FitsUp x fits → IsKnown x exception m l.operand f → shape_of op.op ≡ l.shape → IsWhole l.shape l.operand op.operand → stands code.clauses l.at l.shape (instruction_of x.classes code l.at l.shape l.operand) ≡ true → (before : List WorldType) → HasRows before → (rule : ℕ) → effect_of fits op f before ≡ Err rule → lowest (step_rules x exception m l.shape l.operand (instruction_of x.classes code l.at l.shape l.operand) (in_world before)) ≡ rule }
{}

/// Of classes that break no rule, what rows tell of a field or a method is all that is asked of an operand.
pub fn rows_tell_operands()
    ensures field { (n : ℕ) (cs : Classes) → IsRead n cs → Keeps n cs → Tabled cs → (id : Id) (f : FieldOperand) → TellsField cs id f → IsField cs id f }
    ensures method { (n : ℕ) (cs : Classes) → IsRead n cs → Keeps n cs → Tabled cs → (id : Id) (m : MethodOperand) → TellsMethod cs id m → IsMethod cs id m }
{}
