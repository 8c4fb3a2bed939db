//! How the set of the images of kept rows is found, and what is found.

ghost use Rattle.std.specs.Prelude.{◌≡◌, ℕ, Bool, false, List, Some, None, length, slice_get};
ghost use Rattle.flash_trait.specs.Flash.{AreBytes};
ghost use Rattle.file_tables.specs.File.{FilePart};
ghost use Rattle.assemblies.specs.Rows.{Assembly};
ghost use Rattle.assemblies.specs.Chosen.{chosen, chosen_set};
ghost use Rattle.image_bytes.specs.Layout.{onto};
ghost use Rattle.image_form.specs.Whole.{seen};
ghost use Rattle.world_rows.specs.World.{assemblies_of};
ghost use Rattle.base_rows.specs.Facts.{base};
ghost use Rattle.deploy_model.specs.Banks.{WholeSet, found, set_in};
ghost use Rattle.deploy_model.specs.Deployment.{banks, plan_for, is_spent, operations, after_all};
ghost use Rattle.deploy_model.specs.Moments.{IsDeployable};
ghost use Rattle.boot_scan.specs.Images.{FORMAT};
ghost use Rattle.board_program.specs.Parts.{set_parts, rows_of_parts};
ghost use Rattle.board_program.specs.Listed.{AreWhole};
ghost use Rattle.rows_resolved.specs.Resolved.{IsAccepted};
ghost use Rattle.converted.specs.Choosing.{choice_of};
ghost use Rattle.converted.specs.Images.{image_at, images_of, set_bytes};
ghost use Rattle.converted.specs.Over.{over_at};
ghost use Rattle.set_found.specs.Set.{entry_count, images_in, IsKeptSet};

use boot_scan::law::images_are_a_format;
use deploy_laws::laws::safe_operations;

/// The image of each file, with anything behind it, is seen as the file's kept rows.
pub fn images_are_seen()
    ensures { (files : List FilePart) (marks : List Bool) → IsKeptSet files marks → (f : ℕ) (x : FilePart) (p : Assembly) → slice_get files f ≡ Some x → slice_get (assemblies_of files) f ≡ Some p → over_at files marks f (x, p) ≡ None → (rest : List ℕ) → seen (onto (image_at files marks f (x, p)) rest) ≡ Some (image_at files marks f (x, p), chosen (choice_of files marks f) p) }
{}

/// Behind the base library one assembly of accepted files has an entry (rule 23).
pub fn accepted_files_have_one_entry()
    ensures { (xs : List FilePart) → IsAccepted (base xs) → entry_count (assemblies_of (base xs)) ≡ 1 }
{}

/// In a bank the set is found as its images one after the other, so a set of bytes can be deployed.
pub fn sets_are_found()
    ensures found { (xs : List FilePart) (marks : List Bool) → IsKeptSet (base xs) marks → (bank : ℕ) → set_in FORMAT bank (set_bytes (base xs) marks) ≡ WholeSet (images_in (base xs) marks bank) }
    ensures deployable { (xs : List FilePart) (marks : List Bool) → IsKeptSet (base xs) marks → AreBytes (set_bytes (base xs) marks) → IsDeployable FORMAT (set_bytes (base xs) marks) }
{}

/// After the operations of a deployment that no network or stop disturbs these images are what is found in the flash.
pub fn deployed_sets_are_found()
    ensures { (xs : List FilePart) (marks : List Bool) (start : List ℕ) → IsKeptSet (base xs) marks → AreBytes (set_bytes (base xs) marks) → length start ≡ 262144 → is_spent (banks FORMAT start) ≡ false →
        let plan = plan_for (banks FORMAT start) in
        found FORMAT (after_all (operations plan (set_bytes (base xs) marks)) start) ≡ WholeSet (images_in (base xs) marks plan.target) }
{
    images_are_a_format();
    sets_are_found();
    safe_operations();
}

/// What is found has the parts of the images that were written, whole, and the rows that were kept.
pub fn found_sets_have_kept_rows()
    ensures parts { (files : List FilePart) (marks : List Bool) → IsKeptSet files marks → (bank : ℕ) → set_parts (images_in files marks bank) ≡ images_of files marks }
    ensures rows { (files : List FilePart) (marks : List Bool) → IsKeptSet files marks → (bank : ℕ) → rows_of_parts (set_parts (images_in files marks bank)) ≡ chosen_set (choice_of files marks) (assemblies_of files) }
    ensures whole { (files : List FilePart) (marks : List Bool) → IsKeptSet files marks → (bank : ℕ) → AreBytes (set_bytes files marks) → AreWhole (set_parts (images_in files marks bank)) }
{}
