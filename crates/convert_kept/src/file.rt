//! The image of a file.

ghost use Rattle.std.specs.Prelude.{◌≡◌, ◌<◌, List, Some, length, slice_get};
ghost use Rattle.std.specs.List.{zip};
ghost use Rattle.file_tables.specs.File.{FilePart};
ghost use Rattle.assemblies.specs.Rows.{Assembly};
ghost use Rattle.base_rows.specs.Facts.{base};
ghost use Rattle.world_rows.specs.World.{assemblies_of, rows_alone, size_of};
ghost use Rattle.kept_closure.specs.Kept.{IsNeeded};
ghost use Rattle.row_numbers.specs.Tables.{AreCounts};
ghost use Rattle.rows_resolved.specs.Resolved.{IsAccepted};
ghost use Rattle.converted.specs.Choosing.{choice_of};
ghost use Rattle.convert_kept.specs.Conversion.{AreOpened, conversion_at, Gives};

use crate::refusal::ConvertRefusal;
use cil_world::World;
use cut_numbers::law::cut_numbers_pass_limits;
use image_codes::law::{accepted_codes_can_be_shrunk, opened_files_have_bytes};
use kept_image::{ImageRefusal, parts_image};
use kept_marks::{FileChoice, Kept};
use kept_parts::kept_parts;
use std::alloc::Global;

/// The bytes of the image of a file's kept rows, or the first limit that they pass, where the world is accepted behind the base
/// library and the rows are those that are needed. The limits are looked at in their order: 0 to 14, then 15, then 16.
pub fn file_image(
    alloc: Global,
    world: &World<'_>,
    kept: &Kept,
    file: u16,
) -> Result<Vec<u8>, ConvertRefusal>
    requires opened { AreOpened world.now }
    requires accepted { IsAccepted world.now }
    requires base { (xs : List FilePart) × (world.now ≡ base xs) }
    requires counts { AreCounts (assemblies_of world.now) kept.now.counts }
    requires needed { IsNeeded (size_of (rows_alone world.now)) (assemblies_of world.now) (choice_of world.now kept.now.marks) }
    requires file { file < length world.now }
    ensures { (x : FilePart × Assembly) → slice_get (zip world.now (assemblies_of world.now)) file ≡ Some x → Gives (λ image. image.items) result (λ found. found ≡ conversion_at world.now kept.now.marks file x) }
{
    opened_files_have_bytes();
    accepted_codes_can_be_shrunk();
    cut_numbers_pass_limits();
    let parts = kept_parts(alloc, world, kept, file)?;
    let choice = FileChoice::new(kept, file);
    let tables = world.tables(file);
    let pe = world.pe(file);
    match parts_image(alloc, &choice, file, tables, pe, &parts) {
        Ok(image) => Ok(image),
        Err(ImageRefusal::Limit(limit)) => Err(ConvertRefusal::Limit(limit)),
        Err(ImageRefusal::NoMemory) => Err(ConvertRefusal::NoMemory),
    }
}
