//! What a conversion comes to is told by the files alone.

ghost use Rattle.std.specs.Prelude.{◌≡◌, ℕ, List, Result};
ghost use Rattle.plain_types.specs.declared.fault.Limit.{Limit};
ghost use Rattle.file_tables.specs.File.{FilePart};
ghost use Rattle.mf_convert.specs.Conversion.{Converts};

/// Files come to one set of bytes or to one limit.
pub fn files_have_one_conversion()
    ensures { (files : List FilePart) (a b : Result (List ℕ) Limit) → Converts files a → Converts files b → a ≡ b }
{}
