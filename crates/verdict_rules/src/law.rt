//! The profile is the verdict's beginning.
ghost use Rattle.std.specs.Prelude.{◌≡◌, List, Some, None};
ghost use Rattle.plain_types.specs.declared.fault.Fault.{Fault};
ghost use Rattle.file_tables.specs.File.{FilePart};
ghost use Rattle.verdict_rules.specs.Verdict.{Accepted, Refused, profile, verdict};

/// A fault of the profile is the verdict's; accepted files have none.
pub fn verdict_begins_with_the_profile()
    ensures refused { (files : List FilePart) (fault : Fault) → profile files ≡ Some fault → verdict files ≡ Refused fault }
    ensures accepted { (files : List FilePart) → verdict files ≡ Accepted → profile files ≡ None }
{}
