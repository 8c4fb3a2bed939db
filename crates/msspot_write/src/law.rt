//! Laws of the writer. Each function does nothing: its contract is the law.

ghost use Rattle.std.specs.Prelude.{◌≡◌, List, ℕ, is_some};
ghost use Rattle.std.specs.List.{list_any};
ghost use Rattle.machine.specs.Texts.{same_text};
ghost use Rattle.assemblies.specs.Rows.{Assembly};
ghost use Rattle.image_form.specs.Whole.{Methods, laid};
ghost use Rattle.msspot_write.specs.declared.parts.PartLiteral.{PartLiteral};
ghost use Rattle.msspot_write.specs.declared.parts.Parts.{Parts};
ghost use Rattle.msspot_write.specs.Parts.{found, literal_of, pools_of, image_of_parts};
ghost use Rattle.msspot_write.specs.Spelt.{BodiesFit, parts_for, codes_for};

/// The image of the parts that spell an assembly's rows, with the codes of its methods, is the image that is laid for the rows.
pub fn spelt_is_laid()
    ensures { (p : Assembly) (ms : Methods) → BodiesFit ms → image_of_parts (parts_for p ms) (codes_for p ms) ≡ laid p ms }
{}

/// A literal has an offset exactly where the parts have it.
pub fn literals_are_found()
    ensures { (p : Parts) (text : List ℕ) → is_some (found (pools_of p).strings (literal_of text)) ≡ list_any (λ (l : PartLiteral). same_text text l.text) p.literals }
{}
