//! What an accepted verdict gives, where the types of the files behind the base library keep rule 12.
ghost use Rattle.std.specs.Prelude.{◌≡◌, ℕ, true, false, List};
ghost use Rattle.file_tables.specs.File.{FilePart};
ghost use Rattle.machine.specs.Trace.{is_stuck, trace};
ghost use Rattle.machine_typed.specs.Accepted.{Accepted as Typed};
ghost use Rattle.class_rules.specs.Rules.{Keeps, entry_fits};
ghost use Rattle.code_rules.specs.Judgement.{CodesFit, typing_of};
ghost use Rattle.world_rows.specs.World.{type_count, rows_alone, ecma_sources, ecma_program};
ghost use Rattle.base_rows.specs.Facts.{base};
ghost use Rattle.world_rows.specs.Read.{TypesStand};
ghost use Rattle.verdict_rules.specs.World.{world_of, exception_of};
ghost use Rattle.verdict_rules.specs.Verdict.{Accepted, verdict};

/// Accepted files behind the base library break no rule of types, members and code that the machine's typing needs.
pub fn accepted_files_keep_the_rules()
    ensures classes { (xs : List FilePart) → TypesStand xs → verdict (base xs) ≡ Accepted → Keeps (type_count (rows_alone (base xs))) (ecma_sources (base xs)).classes }
    ensures entry { (xs : List FilePart) → verdict (base xs) ≡ Accepted → entry_fits (ecma_sources (base xs)) ≡ true }
    ensures code { (xs : List FilePart) → verdict (base xs) ≡ Accepted → CodesFit (ecma_sources (base xs)) (exception_of (world_of (base xs))) }
{}

/// So their program is typed.
pub fn accepted_files_are_typed()
    ensures { (xs : List FilePart) → TypesStand xs → verdict (base xs) ≡ Accepted → Typed (ecma_program (base xs)) (typing_of (ecma_sources (base xs)) (exception_of (world_of (base xs)))) }
{}

/// And none of its runs meets an instruction that has no case.
pub fn accepted_files_never_stick()
    ensures { (xs : List FilePart) → TypesStand xs → verdict (base xs) ≡ Accepted → (steps most : ℕ) → is_stuck (trace (ecma_program (base xs)) steps most).finish ≡ false }
{}
