//! The parts that are made of a file's kept rows are the file's parts.

ghost use Rattle.std.specs.Prelude.{◌≡◌, ℕ, List, Some, slice_get};
ghost use Rattle.file_tables.specs.File.{FilePart};
ghost use Rattle.assemblies.specs.Rows.{Assembly};
ghost use Rattle.world_rows.specs.World.{assemblies_of};
ghost use Rattle.class_table.specs.declared.rows.FileRows.{FileRows};
ghost use Rattle.class_table.specs.declared.rows.ClassTable.{ClassTable};
ghost use Rattle.class_table.specs.Whole.{IsTable};
ghost use Rattle.row_numbers.specs.Tables.{AreCounts};
ghost use Rattle.kept_marks.specs.Kept.{Marked};
ghost use Rattle.kept_marks.specs.Masks.{masks_of};
ghost use Rattle.converted.specs.Images.{parts_at, parts_cut};
ghost use Rattle.image_rows.specs.Header.{entry_read};
ghost use Rattle.kept_parts.specs.Made.{AreAsMany, parts_made};

use image_methods::law::{clauses_are_of_the_file, methods_are_of_the_world};
use image_rows::law::{
    fields_are_of_the_world, header_is_of_the_file, references_are_of_the_file,
    types_are_of_the_world,
};
use kept_bodies::law::literals_are_of_the_file;
use kept_marks::law::marked_rows_are_kept;

/// The table of classes has as many types, fields and methods of a file as the file has rows of them.
pub fn rows_are_as_many()
    ensures { (files : List FilePart) (f : ℕ) (x : FilePart) (t : ClassTable) (rows : FileRows) → slice_get files f ≡ Some x → IsTable files t → slice_get t.files.items f ≡ Some rows → AreAsMany x.metadata rows }
{}

/// With the marks over the rows of the files, what is made of a file's kept rows are its parts.
pub fn made_parts_are_of_the_file()
    ensures { (files : List FilePart) (f : ℕ) (x : FilePart) (p : Assembly) → slice_get files f ≡ Some x → slice_get (assemblies_of files) f ≡ Some p → (t : ClassTable) (rows : FileRows) → IsTable files t → slice_get t.files.items f ≡ Some rows → (k : Marked) → AreCounts (assemblies_of files) k.counts → parts_made (masks_of (record { kept = k; file = f })) x rows (entry_read f x) ≡ parts_cut (parts_at files k.marks f x p) }
{
    marked_rows_are_kept();
    header_is_of_the_file();
    references_are_of_the_file();
    types_are_of_the_world();
    fields_are_of_the_world();
    methods_are_of_the_world();
    clauses_are_of_the_file();
    literals_are_of_the_file();
}
