//! What links an opcode to its row.

ghost use Rattle.std.specs.Prelude.{◌≡◌, ℕ, Some};
ghost use Rattle.cil_opcodes.specs.declared.shape.Row.{Row};
ghost use Rattle.cil_opcodes.specs.Rows.{row_of};
ghost use Rattle.verify_ops.specs.Effects.{shape_of};

/// The shape of an opcode is that of its row.
pub fn shapes_are_rows()
    ensures { (op : ℕ) (row : Row) → row_of op ≡ Some row → shape_of op ≡ row.shape }
{}
