//! The conversion of a world.

ghost use Rattle.std.specs.Prelude.{◌≡◌, List};
ghost use Rattle.file_tables.specs.File.{FilePart};
ghost use Rattle.base_rows.specs.Facts.{base};
ghost use Rattle.world_rows.specs.World.{assemblies_of};
ghost use Rattle.row_numbers.specs.Tables.{AreCounts};
ghost use Rattle.verdict_rules.specs.Verdict.{Accepted, verdict};
ghost use Rattle.rows_resolved.specs.Resolved.{IsAccepted};
ghost use Rattle.converted.specs.Over.{limit_in};
ghost use Rattle.convert_kept.specs.Conversion.{AreOpened, Gives};
ghost use Rattle.mf_convert.specs.Conversion.{MarkNeeded, conversion_of, Converts};

use crate::images::images;
use cil_world::World;
use convert_kept::ConvertRefusal;
use kept_marks::Kept;
use plain_types::fault::Limit;
use std::alloc::Global;
use table_minimise::needed;

/// The limit of the bytes of a set, and how many it may have: as many as a bank of the flash has room for.
const SET_BYTES: u8 = 17;

const MOST_BYTES: usize = 122_864;

/// The limit of the assemblies of a set, those of the base library among them, and how many there may be.
const SET_ASSEMBLIES: u8 = 18;

const MOST_ASSEMBLIES: u16 = 32;

/// A limit of the whole set.
fn set_limit(number: u8, count: u64) -> Limit
    ensures { result ≡ limit_in 0 number count }
{
    Limit {
        number,
        count,
        assembly: 0,
    }
}

/// The set of the images of rows that are needed, or the first limit: of the assemblies, then file by file, then of the bytes.
fn set_of(alloc: Global, world: &World<'_>, kept: &Kept) -> Result<Vec<u8>, ConvertRefusal>
    requires opened { AreOpened world.now }
    requires accepted { IsAccepted world.now }
    requires base { (xs : List FilePart) × (world.now ≡ base xs) }
    requires counts { AreCounts (assemblies_of world.now) kept.now.counts }
    requires needed { MarkNeeded world.now kept.now.marks }
    ensures { Gives (λ set. set.items) result (λ found. found ≡ conversion_of world.now kept.now.marks) }
{
    let assemblies = world.files();
    if assemblies > MOST_ASSEMBLIES {
        let limit = set_limit(SET_ASSEMBLIES, u64::from(assemblies));
        return Err(ConvertRefusal::Limit(limit));
    }
    let set = images(alloc, world, kept)?;
    let bytes = set.len();
    if bytes > MOST_BYTES {
        let limit = set_limit(SET_BYTES, bytes as u64);
        return Err(ConvertRefusal::Limit(limit));
    }
    Ok(set)
}

/// The set of images that a world is converted into, an image for each file in order. It is a world that the verdict accepts, behind
/// the base library. Of each file it has the rows that are needed: the least choice with which every program runs as with all rows. It
/// is [`ConvertRefusal::Limit`] exactly where a limit of the image format is passed, with the first one: more than 32 assemblies (18);
/// then file by file the rows of tables and the bytes of pools (0 to 14), distances of branches (15) and targets of switches (16);
/// then the bytes of the set (17).
#[tactic(auto, using(crate::proofs::JudgedLaws::opened_are_accepted, crate::proofs::JudgedLaws::base_of))]
pub fn convert(alloc: Global, world: &World<'_>) -> Result<Vec<u8>, ConvertRefusal>
    requires opened { AreOpened world.now }
    requires accepted { verdict world.now ≡ Accepted }
    requires base { (xs : List FilePart) × (world.now ≡ base xs) }
    ensures { Gives (λ set. set.items) result (Converts world.now) }
{
    let kept = needed(alloc, world)?;
    set_of(alloc, world, &kept)
}
