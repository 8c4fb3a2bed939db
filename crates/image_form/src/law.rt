//! What is spelt for rows is read as those rows.
ghost use Rattle.std.specs.Prelude.{◌≡◌, ℕ, List, [], ◌∷◌, Option, Some};
ghost use Rattle.cil_opcodes.specs.declared.shape.Row.{Row};
ghost use Rattle.image_bytes.specs.Layout.{onto};
ghost use Rattle.assemblies.specs.Rows.{RawLine, Assembly};
ghost use Rattle.image_form.specs.Codes.{Length, Meaning, Words, Instr, IsSound, instrs_of, instrs_onto, instrs_to, lines_of, LinesFit};
ghost use Rattle.image_form.specs.Whole.{Methods, laid, seen};
ghost use Rattle.image_form.specs.Limits.{IsSpelt};
ghost use Rattle.assemblies.specs.Closed.{Each};

/// The image of an assembly's rows, with anything behind it, is seen as this image and these rows.
pub fn image_is_seen()
    ensures { (p : Assembly) (ms : Methods) (rest : List ℕ) → IsSpelt p ms → seen (onto (laid p ms) rest) ≡ Some (laid p ms, p) }
{}

/// Code of either length: instructions are read as they are spelt, and their lines are those that they were made of.
pub fn code_is_read()
    ensures instructions { (table : ℕ → Option Row) (l : Length) (is : List Instr) → Each (IsSound table l) is → instrs_of table l (instrs_onto table l is []) ≡ is }
    ensures lines { (table : ℕ → Option Row) (l : Length) (m : Meaning) (w : Words) (rows : List Row) (lines : List RawLine) → LinesFit table l m w 0 rows lines → lines_of m l 0 (instrs_of table l (instrs_onto table l (instrs_to w rows lines) [])) ≡ lines }
{}
