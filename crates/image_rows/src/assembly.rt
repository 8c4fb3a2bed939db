//! The header of an image: its assembly (ECMA-335 II.22.2), and the method that a run begins with (II.25.3.3).

ghost use Rattle.std.specs.Prelude.{◌≡◌, ◌∷◌, [], IfOk, map};
ghost use Rattle.converted.specs.Cut.{two_bytes};
ghost use Rattle.kept_marks.specs.Masks.{masks_of};
ghost use Rattle.image_rows.specs.Header.{version_read, name_read, entry_kept};

use cil_tables::Tables;
use image_signatures::two_bytes;
use kept_marks::FileChoice;
use plain_types::fault::NoMemory;
use plain_types::list::Items;
use row_numbers::Table;
use std::alloc::Global;
use type_names::{Version, assembly_key};

/// No method.
const NONE: u16 = 0xFFFF;

/// What stands in an image's header of one file.
#[derive(Drop)]
pub struct ImageHeader {
    /// The version of its assembly: major, minor, build and revision.
    pub version: [u16; 4],
    /// The name of its assembly in UTF-8.
    pub name: Items<u8>,
    /// The row of the method that a run begins with, among the kept ones, or 0xFFFF.
    pub entry: u16,
}

/// The numbers of a version.
fn version_words(version: Version) -> [u16; 4]
    ensures { result ≡ map two_bytes (version.major ∷ version.minor ∷ version.build ∷ version.revision ∷ []) }
{
    [
        two_bytes(u64::from(version.major)),
        two_bytes(u64::from(version.minor)),
        two_bytes(u64::from(version.build)),
        two_bytes(u64::from(version.revision)),
    ]
}

/// The number of a method among the kept ones, or 0xFFFF.
fn entry_word(choice: &FileChoice<'_>, entry: Option<u32>) -> u16
    ensures { result ≡ entry_kept (masks_of choice.now) entry }
{
    match entry {
        Some(row) => two_bytes(u64::from(choice.below(Table::MethodDef, u64::from(row)))),
        None => NONE,
    }
}

/// The header of a file's image, with the row of the method that a run begins with, if it has one: that of its entry token, in a file behind
/// the base library's two.
pub fn header(
    alloc: Global,
    choice: &FileChoice<'_>,
    tables: &Tables<'_>,
    entry: Option<u32>,
) -> Result<ImageHeader, NoMemory>
    ensures version { IfOk result (λ h. h.version ≡ version_read tables.now) }
    ensures name { IfOk result (λ h. h.name ≡ name_read tables.now) }
    ensures entry { IfOk result (λ h. h.entry ≡ entry_kept (masks_of choice.now) entry) }
{
    let key = assembly_key(tables);
    let name = Vec::from_slice(alloc, key.name.as_bytes())?;
    Ok(ImageHeader {
        version: version_words(key.version),
        name: Items::from_vec(name),
        entry: entry_word(choice, entry),
    })
}
