//! What is known of operands is all that is asked of them.

ghost use Rattle.std.specs.Prelude.{◌≡◌, ℕ, ℤ, List, Some, None, slice_get};
ghost use Rattle.cil_opcodes.specs.declared.shape.Operand.{Operand as Kind};
ghost use Rattle.file_tables.specs.File.{FilePart};
ghost use Rattle.classes.specs.Queries.{array};
ghost use Rattle.classes.specs.Reading.{IsRead};
ghost use Rattle.class_rules.specs.Rules.{Keeps};
ghost use Rattle.cil_types.specs.Spelt.{AreSpelt};
ghost use Rattle.world_rows.specs.Read.{TypesStand};
ghost use Rattle.world_rows.specs.World.{ecma_sources, rows_alone, type_count};
ghost use Rattle.verdict_rules.specs.Verdict.{profile};
ghost use Rattle.verify_ops.specs.declared.facts.Operand.{Operand};
ghost use Rattle.ecma_effects.specs.Known.{IsOperand};
ghost use Rattle.ecma_effects.specs.Told.{Tabled};
ghost use Rattle.operand_facts.specs.Operands.{OperandTold, operand_of};

/// In classes that break no rule, what is known of the operand of an instruction is all that its effect asks of it, where the class of
/// arrays is the one that is told.
pub fn operands_are_known()
    ensures { (files : List FilePart) → TypesStand files → profile files ≡ None → IsRead (type_count (rows_alone files)) (ecma_sources files).classes → Keeps (type_count (rows_alone files)) (ecma_sources files).classes → AreSpelt (ecma_sources files).classes → Tabled (ecma_sources files).classes → (file : ℕ) (f : FilePart) (code : List ℕ) (at next : ℕ) (kind : Kind) (n : ℤ) → slice_get files file ≡ Some f → (known : Operand) → OperandTold (ecma_sources files).classes (array (ecma_sources files).classes) (operand_of files file f code at next kind n) known → IsOperand (ecma_sources files).classes (operand_of files file f code at next kind n) known }
{}
