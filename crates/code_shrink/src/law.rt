//! What the shortened code says.
ghost use Rattle.std.specs.Prelude.{◌≡◌, ℕ, List, map, None};
ghost use Rattle.cil_opcodes.specs.Rows.{row_of};
ghost use Rattle.cil_code.specs.Walk.{code_fault};
ghost use Rattle.file_tables.specs.Metadata.{MetadataPart};
ghost use Rattle.assemblies.specs.Rows.{RawLine};
ghost use Rattle.assemblies.specs.Chosen.{Choice, line_to};
ghost use Rattle.assemblies.specs.Closed.{Each};
ghost use Rattle.world_rows.specs.Lines.{lines_of as file_lines};
ghost use Rattle.image_form.specs.Codes.{Meaning, Words, LinesFit, instrs_of, instrs_to, lines_of, long, short};
ghost use Rattle.short_code.specs.Short.{to_short};
ghost use Rattle.short_code.specs.Pieces.{pieces};
ghost use Rattle.chosen_image.specs.Spells.{TargetsStart, AllDistancesFit};
ghost use Rattle.code_shrink.specs.FileLines.{file_meaning};
ghost use Rattle.code_shrink.specs.Limits.{far_in};
ghost use Rattle.code_shrink.specs.Lines.{AreBytes, AllMeanTo, AllMeanBack, AllNumbered, rows_in, lines_in};
ghost use Rattle.code_shrink.specs.Shrunk.{CanShrink, instrs_in, pieces_of, shrunk, shrunk_bytes};

/// Where no distance is outside, the shortened bytes are read as the instructions that they are written for. Their lines
/// are those of the file's code, with the rows that are chosen and places where they come to lie: the opcodes are the same,
/// and each branch leads to the instruction that it led to.
pub fn shrunk_code_is_read()
    ensures instructions { (token : ℕ → ℕ) (code : List ℕ) → AreBytes code → CanShrink code → far_in code ≡ None → instrs_of row_of short (shrunk_bytes token code) ≡ shrunk token code }
    ensures lines { (k : Choice) (before after : Meaning) (token : ℕ → ℕ) (code : List ℕ) → AreBytes code → CanShrink code → far_in code ≡ None → AllMeanTo k before after token (instrs_in code) → lines_of after short 0 (instrs_of row_of short (shrunk_bytes token code)) ≡ map (line_to k (to_short (pieces_of code))) (lines_in before code) }
{}

/// The lines that a file's code is seen as are those of the instructions that are shortened.
pub fn file_lines_are_read()
    ensures { (m : MetadataPart) (code : List ℕ) → AreBytes code → code_fault code ≡ None → file_lines m code ≡ lines_in (file_meaning m) code }
{}

/// The lines of code have a spelling, by words that find the numbers again: they fit, places in it are those of the code,
/// branches lead to instructions, and distances fit where none is outside. What is spelt in the image for the lines with the
/// rows that are chosen is the shortened code.
pub fn lines_are_spelt()
    ensures fit { (m : Meaning) (w : Words) (code : List ℕ) → AreBytes code → CanShrink code → AllMeanBack m w (instrs_in code) → LinesFit row_of long m w 0 (rows_in code) (lines_in m code) }
    ensures places { (m : Meaning) (w : Words) (code : List ℕ) → AreBytes code → CanShrink code → (at : ℕ) → to_short (pieces_of code) at ≡ to_short (pieces (instrs_to w (rows_in code) (lines_in m code))) at }
    ensures targets { (m : Meaning) (w : Words) (code : List ℕ) → AreBytes code → CanShrink code → AllMeanBack m w (instrs_in code) → Each (λ (l : RawLine). TargetsStart (pieces (instrs_to w (rows_in code) (lines_in m code))) l.operand) (lines_in m code) }
    ensures distances { (m : Meaning) (code : List ℕ) → far_in code ≡ None → AllDistancesFit (to_short (pieces_of code)) (rows_in code) (lines_in m code) }
    ensures spelling { (k : Choice) (m : Meaning) (words : Words) (token : ℕ → ℕ) (code : List ℕ) → AreBytes code → CanShrink code → AllNumbered k m words token (instrs_in code) → instrs_to words (rows_in code) (map (line_to k (to_short (pieces_of code))) (lines_in m code)) ≡ shrunk token code }
{}
