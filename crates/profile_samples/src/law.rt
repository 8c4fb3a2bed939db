//! The profile of some worlds.

ghost use Rattle.std.specs.Prelude.{◌≡◌, true, Some, None, [], ◌∷◌};
ghost use Rattle.std.specs.List.{list_all};
ghost use Rattle.verdict_rules.specs.Verdict.{profile};
ghost use Rattle.base_rows.specs.Facts.{base};
ghost use Rattle.base_rows.specs.Printed.{mixed_file};
ghost use Rattle.profile_samples.specs.Worlds.{fault_of, circle_file, told_of, program_with, changes, is_told};

/// Over the base library alone there is no entry, which is told of the last file.
pub fn an_entry_is_wanted()
    ensures { profile (base []) ≡ Some (fault_of 23 1 255 0) }
{}

/// A second file of an assembly's name breaks a rule, and so does a class that extends itself. A small program breaks none of
/// types and members, and each of some changes of it is refused by its rule, at its place.
pub fn programs_are_told_apart()
    ensures same_name { profile (base (mixed_file ∷ mixed_file ∷ [])) ≡ Some (fault_of 22 3 0x20 1) }
    ensures plain { told_of (program_with []) ≡ None }
    ensures changes { list_all is_told changes ≡ true }
    ensures circle { profile (base (circle_file ∷ [])) ≡ Some (fault_of 24 2 0x02 2) }
{}
