//! The rows that mean something are those that a conversion may keep.
ghost use Rattle.std.specs.Prelude.{◌≡◌, ℕ, true, List};
ghost use Rattle.file_tables.specs.File.{FilePart};
ghost use Rattle.assemblies.specs.Rows.{Assembly};
ghost use Rattle.base_rows.specs.Facts.{base};
ghost use Rattle.world_rows.specs.World.{size_of, rows_alone, assemblies_of};
ghost use Rattle.kept_closure.specs.Kept.{HasAll, Resolves};
ghost use Rattle.kept_rules.specs.Row.{Row, marks};
ghost use Rattle.kept_rules.specs.Rules.{MembersStand};
ghost use Rattle.kept_numbers.specs.Numbers.{IsThere};
ghost use Rattle.kept_joined.specs.Judged.{Judged};
ghost use Rattle.verdict_rules.specs.Verdict.{Accepted, verdict, Opened};
ghost use Rattle.rows_resolved.specs.Resolved.{resolved_rows, IsAccepted};

/// Each of them is a row of its table.
pub fn resolved_rows_are_there()
    ensures { (size : ℕ) (ps : List Assembly) (r : Row) → marks (resolved_rows size ps) r ≡ true → IsThere ps r }
{}

/// Files that are read from bytes without a broken rule are accepted where the verdict accepts them.
pub fn opened_files_are_accepted()
    ensures { (files : List FilePart) → Opened files → verdict files ≡ Accepted → IsAccepted files }
{}

/// Of accepted files they are all that a conversion may keep: with what rows name they have what they name.
pub fn accepted_files_have_all()
    ensures { (files : List FilePart) → IsAccepted files → HasAll (assemblies_of files) (resolved_rows (size_of (rows_alone files)) (assemblies_of files)) }
{}

/// No reference to a field names a literal one, and the entry is a method (rules 46 and 23).
pub fn accepted_members_stand()
    ensures { (files : List FilePart) → IsAccepted files → MembersStand (size_of (rows_alone files)) (assemblies_of files) (resolved_rows (size_of (rows_alone files)) (assemblies_of files)) }
{}

/// What they name is there: in their columns, signatures and bodies (rules 24 to 27, 44 and 46).
pub fn accepted_names_resolve()
    ensures { (files : List FilePart) → IsAccepted files → Resolves (size_of (rows_alone files)) (assemblies_of files) (resolved_rows (size_of (rows_alone files)) (assemblies_of files)) }
{}

/// Behind the base library the classes of accepted files are judged well: no superclasses, interfaces or enclosing types go in a
/// circle, and no class has two methods of one name and signature (rules 24 to 26 and 30).
pub fn accepted_classes_are_judged()
    ensures { (xs : List FilePart) → IsAccepted (base xs) → Judged (size_of (rows_alone (base xs))) (assemblies_of (base xs)) }
{}
