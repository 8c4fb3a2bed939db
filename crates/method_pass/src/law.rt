//! What is known of the methods of judged files.

ghost use Rattle.std.specs.Prelude.{◌≡◌, ℕ, List, None, Some, slice_get, true};
ghost use Rattle.cil_code.specs.Bodies.{BodyPart};
ghost use Rattle.file_tables.specs.File.{FilePart};
ghost use Rattle.file_tables.specs.Metadata.{rows_of};
ghost use Rattle.machine.specs.Program.{Method};
ghost use Rattle.world_rows.specs.Tokens.{methods};
ghost use Rattle.judged_classes.specs.Judged.{IsJudged};
ghost use Rattle.verdict_rules.specs.Code.{body_of, is_code, method_here};
ghost use Rattle.verdict_rules.specs.World.{world_of};
ghost use Rattle.code_tests.specs.Tests.{first_broken, tests_before};
ghost use Rattle.method_pass.specs.Known.{IsKnownMethod};

use judged_classes::law::{
    judged_classes_are_read, judged_classes_are_spelt, judged_classes_are_tabled,
    judged_classes_keep,
};
use local_places::law::{arguments_are_known, locals_are_known};
use operand_laws::law::operands_are_known;

/// In files that keep the rules 20 to 31, a method whose body keeps 40 to 44 is known: its places are those that the table and the token
/// of its locals tell, and what is known of an operand is all that is asked of it.
pub fn judged_methods_are_known()
    ensures { (files : List FilePart) (file row : ℕ) (x : FilePart) (columns : List ℕ) (m : Method) (b : BodyPart) → IsJudged files → slice_get files file ≡ Some x → slice_get (rows_of x.metadata methods) row ≡ Some columns → method_here (world_of files) file x row ≡ Some m → is_code m.body ≡ true → body_of x columns ≡ Some b → first_broken (tests_before (world_of files) file x m b) ≡ None → IsKnownMethod files file row x m b }
{
    judged_classes_are_read();
    judged_classes_keep();
    judged_classes_are_spelt();
    judged_classes_are_tabled();
    operands_are_known();
    arguments_are_known();
    locals_are_known();
}
