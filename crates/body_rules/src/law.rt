//! The rules of a file's methods are those of the rows that they name, in their signatures and in their code.

ghost use Rattle.std.specs.Prelude.{◌≡◌, ◌++◌, ℕ, List, Some, slice_get};
ghost use Rattle.file_tables.specs.Metadata.{rows_of};
ghost use Rattle.file_tables.specs.File.{FilePart};
ghost use Rattle.kept_rules.specs.Row.{MethodAt};
ghost use Rattle.world_rows.specs.Tokens.{methods};
ghost use Rattle.world_rows.specs.World.{assemblies_of};
ghost use Rattle.row_rules.specs.Links.{links_from};
ghost use Rattle.row_rules.specs.Named.{named_by_method};
ghost use Rattle.row_rules.specs.Rules.{AreNames};
ghost use Rattle.body_rules.specs.Code.{code_links};

/// The rules of the signatures of a file's methods, and behind them those of their code, are the rules by which the methods keep each
/// row that they name.
pub fn rules_are_of_methods()
    ensures { (files : List FilePart) (f : ℕ) (x : FilePart) → slice_get files f ≡ Some x → AreNames (assemblies_of files) (MethodAt f) (links_from (MethodAt f) (named_by_method f x.metadata) 0 (rows_of x.metadata methods) ++ code_links f x) }
{}
