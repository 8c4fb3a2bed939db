//! The marks are those of the roots.

ghost use Rattle.std.specs.Prelude.{◌≡◌, Bool, List, length};
ghost use Rattle.file_tables.specs.File.{FilePart};
ghost use Rattle.world_rows.specs.World.{assemblies_of, ecma_sources, rows_alone, size_of};
ghost use Rattle.row_closure.specs.Closure.{holds};
ghost use Rattle.kept_numbers.specs.Numbers.{all_rows};
ghost use Rattle.root_marks.specs.Roots.{marked, root_rows};
ghost use Rattle.root_marks.specs.Are.{EntriesStand, AreRoots, IsClear};

/// Where the entries of files are methods, the marks of the rows that are kept of any program are those of the roots.
pub fn marks_are_of_roots()
    ensures { (files : List FilePart) (clear : List Bool) → EntriesStand (assemblies_of files) → IsClear clear → length clear ≡ length (all_rows (assemblies_of files)) → AreRoots (size_of (rows_alone files)) (assemblies_of files) (holds (marked (assemblies_of files) (root_rows files (ecma_sources files).classes) clear)) }
{}
