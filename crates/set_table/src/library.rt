//! The base library among the images, and how many types and references there are.

ghost use Rattle.std.specs.Prelude.{◌≡◌, ◌<◌, ◌^◌, codes, length};
ghost use Rattle.machine.specs.Texts.{same_text};
ghost use Rattle.world_rows.specs.World.{size_of};
ghost use Rattle.tiny_rows.specs.Rows.{rows_seen};
ghost use Rattle.set_names.specs.Names.{seen_all};
ghost use Rattle.set_table.specs.Whole.{library_number};

use msspot_read::Image;
use set_names::Names;
use tiny_rows::{assembly_name, type_count, type_ref_count};

/// The image's assembly has the base library's name (II.22.2).
fn is_library(image: &Image<'_>) -> bool
    ensures { result ≡ same_text (rows_seen image.now).name (codes "mscorlib") }
{
    assembly_name(image).name == b"mscorlib".as_slice()
}

/// The first image whose assembly has the base library's name.
pub fn find_library(names: &Names<'_, '_>) -> Option<u32>
    requires { length names.now < 2 ^ 32 }
    ensures { result ≡ library_number (seen_all names.now) }
{
    for file in 0..names.count() as u32 {
        match names.image(file) {
            Some(image) => {
                if is_library(image) {
                    return Some(file);
                }
            }
            None => return None,
        }
    }
    None
}

/// More than any chain of superclasses, interfaces or scopes has that goes in no circle.
pub fn count_types(names: &Names<'_, '_>) -> u64
    requires { length names.now < 2 ^ 32 }
    ensures { result ≡ size_of (seen_all names.now) }
{
    let mut size = 0;
    for file in 0..names.count() as u32 {
        match names.image(file) {
            Some(image) => {
                size += 2 * u64::from(type_count(image)) + u64::from(type_ref_count(image));
            }
            None => return size,
        }
    }
    size
}
