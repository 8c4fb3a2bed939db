//! The parts of a file's kept rows.

ghost use Rattle.std.specs.Prelude.{◌≡◌, ◌<◌, nat_le, if◌then◌else◌, None, Some, IfOk, length, slice_get};
ghost use Rattle.file_tables.specs.File.{FilePart};
ghost use Rattle.assemblies.specs.Rows.{Assembly};
ghost use Rattle.row_numbers.specs.Tables.{AreCounts};
ghost use Rattle.world_rows.specs.Rows.{entry_named};
ghost use Rattle.world_rows.specs.World.{assemblies_of};
ghost use Rattle.looked_rows.specs.Looked.{file_with};
ghost use Rattle.kept_marks.specs.Masks.{masks_of};
ghost use Rattle.converted.specs.Images.{parts_at, parts_cut};
ghost use Rattle.kept_parts.specs.Made.{AreAsMany, parts_made};

use crate::law::{made_parts_are_of_the_file, rows_are_as_many};
use crate::source::{Source, file_rows};
use crate::tables::all_tables;
use cil_world::World;
use image_rows::header;
use kept_bodies::literal_parts;
use kept_marks::{FileChoice, Kept};
use msspot_write::Parts;
use pe_reader::Pe;
use plain_types::fault::NoMemory;
use root_marks::{FIRST_USER_FILE, entry_row};
use std::alloc::Global;

/// The row of the method that a run begins with, in a file behind the base library's two (ECMA-335 II.25.3.3).
fn entry_of(pe: &Pe<'_>, file: u16) -> Option<u32>
    ensures { result ≡ (if nat_le 2 file then entry_named pe.now.entry else None) }
{
    if file < FIRST_USER_FILE {
        None
    } else {
        entry_row(pe.entry())
    }
}

/// The parts that are made of a file's kept rows, with the row of the method that a run begins with.
fn made_parts(
    alloc: Global,
    source: &Source<'_, '_, '_>,
    entry: Option<u32>,
) -> Result<Parts, NoMemory>
    requires { AreAsMany source.now.tables.now source.now.rows.now }
    ensures { IfOk result (λ parts. parts ≡ parts_made (masks_of source.now.choice.now) (file_with source.now.pe.now source.now.tables.now) source.now.rows.now entry) }
{
    let header = header(alloc, source.choice, source.tables, entry)?;
    let version = header.version;
    let tables = all_tables(alloc, source)?;
    let literals = literal_parts(alloc, source.choice, source.pe, source.tables)?;
    Ok(Parts {
        version,
        name: header.name,
        entry: header.entry,
        tables,
        literals,
    })
}

/// The parts of the image of a file's kept rows: the assembly's version and name, the method that a run begins with, the eleven tables
/// in order, and the literals that the methods load. Numbers have two bytes each: within the limits of the format they are whole. The
/// marks have to be over the rows of the world's files. In the time of the file's rows, signatures and code.
pub fn kept_parts(
    alloc: Global,
    world: &World<'_>,
    kept: &Kept,
    file: u16,
) -> Result<Parts, NoMemory>
    requires file { file < length world.now }
    requires counts { AreCounts (assemblies_of world.now) kept.now.counts }
    ensures { (x : FilePart) (p : Assembly) → slice_get world.now file ≡ Some x → slice_get (assemblies_of world.now) file ≡ Some p → IfOk result (λ parts. parts ≡ parts_cut (parts_at world.now kept.now.marks file x p)) }
{
    rows_are_as_many();
    made_parts_are_of_the_file();
    let choice = FileChoice::new(kept, file);
    let pe = world.pe(file);
    let source = Source {
        choice: &choice,
        pe,
        tables: world.tables(file),
        rows: file_rows(world.classes(), file),
    };
    made_parts(alloc, &source, entry_of(pe, file))
}
