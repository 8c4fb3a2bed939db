//! What is known of an operand tells what the operand names.

ghost use Rattle.classes.specs.Classes.{Classes};
ghost use Rattle.classes.specs.Code.{Operand as CodeOperand};
ghost use Rattle.classes.specs.Queries.{array};
ghost use Rattle.cil_types.specs.Spelt.{AreSpelt};
ghost use Rattle.verify_ops.specs.declared.facts.Operand.{Operand};
ghost use Rattle.operand_facts.specs.Operands.{OperandTold};
ghost use Rattle.operand_facts.specs.Tells.{OperandFits, TellsOperand};

/// Where the classes have spellings (26) and what the operand names fits (27), what is known of it tells all that its rows tell.
pub fn operands_tell()
    ensures { (cs : Classes) → AreSpelt cs → (o : CodeOperand) (known : Operand) → OperandTold cs (array cs) o known → OperandFits cs o → TellsOperand cs o known }
{}
