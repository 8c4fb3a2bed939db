//! The images of all files, one after the other.

ghost use Rattle.std.specs.Prelude.{◌≡◌, List};
ghost use Rattle.file_tables.specs.File.{FilePart};
ghost use Rattle.base_rows.specs.Facts.{base};
ghost use Rattle.world_rows.specs.World.{assemblies_of};
ghost use Rattle.row_numbers.specs.Tables.{AreCounts};
ghost use Rattle.rows_resolved.specs.Resolved.{IsAccepted};
ghost use Rattle.convert_kept.specs.Conversion.{AreOpened, Gives};
ghost use Rattle.mf_convert.specs.Conversion.{MarkNeeded, images_within};

use cil_world::World;
use convert_kept::{ConvertRefusal, file_image};
use kept_marks::Kept;
use std::alloc::Global;

/// The images of the files, or the first limit that a file passes, the first file first.
#[tactic(auto, using(crate::proofs::ImagesLaws::none_done, crate::proofs::ImagesLaws::a_file, crate::proofs::ImagesLaws::one_done, crate::proofs::ImagesLaws::is_over, crate::proofs::ImagesLaws::all_done))]
pub fn images(alloc: Global, world: &World<'_>, kept: &Kept) -> Result<Vec<u8>, ConvertRefusal>
    requires opened { AreOpened world.now }
    requires accepted { IsAccepted world.now }
    requires base { (xs : List FilePart) × (world.now ≡ base xs) }
    requires counts { AreCounts (assemblies_of world.now) kept.now.counts }
    requires needed { MarkNeeded world.now kept.now.marks }
    ensures { Gives (λ set. set.items) result (λ found. found ≡ images_within world.now kept.now.marks) }
{
    let mut set = Vec::new(alloc);
    for file in 0..world.files() {
        match file_image(alloc, world, kept, file) {
            Ok(image) => set.extend_from_slice(&image)?,
            Err(refusal) => return Err(refusal),
        }
    }
    Ok(set)
}
