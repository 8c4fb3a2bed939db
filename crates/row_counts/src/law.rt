//! The counts of files are those of their assemblies.

ghost use Rattle.std.specs.Prelude.{List};
ghost use Rattle.file_tables.specs.File.{FilePart};
ghost use Rattle.world_rows.specs.World.{assemblies_of};
ghost use Rattle.row_numbers.specs.declared.table.PerTable.{PerTable};
ghost use Rattle.row_numbers.specs.Tables.{AreCounts};
ghost use Rattle.row_counts.specs.Counts.{AreCountsOf};

/// The counts of a world's files are those of its assemblies.
pub fn counts_of_a_world()
    ensures { (files : List FilePart) (counts : List PerTable) → AreCountsOf files counts → AreCounts (assemblies_of files) counts }
{}
