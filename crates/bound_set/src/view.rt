//! The images of a found set, read in place.

ghost use Rattle.std.specs.Prelude.{◌≡◌, ◌<◌, ◌^◌, Some, IfOk, length, take, drop, slice_index, slice_get};
ghost use Rattle.board_program.specs.Parts.{set_parts};
ghost use Rattle.boot_scan.specs.Sets.{images_in};
ghost use Rattle.bound_set.specs.Set.{IsFound};

use board_model::law::found_images_stand;
use boot_scan::Set;
use boot_scan::law::images_are_a_format;
use msspot_read::Image;
use plain_types::fault::NoMemory;
use std::alloc::Global;

/// An array of 32 places has 32.
fn is_whole(places: &[u32; 32])
    ensures { length places.now ≡ 32 }
{}

/// A set's lists have 32 places each.
pub fn is_sized(set: &Set)
    ensures places { length set.now.at ≡ 32 }
    ensures sizes { length set.now.size ≡ 32 }
{
    is_whole(&set.at);
    is_whole(&set.size);
}

/// The bytes of an image of a set.
fn bytes_of<'a>(flash: &'a [u8], set: &Set, k: u16) -> &'a [u8]
    requires found { IsFound flash.now set.now }
    requires there { k < set.now.count }
    ensures { result.now ≡ take (slice_index set.now.size k) (drop (slice_index set.now.at k) flash.now) }
{
    let start = set.at[usize::from(k)] as usize;
    let size = set.size[usize::from(k)] as usize;
    &flash[start..start + size]
}

/// An image of a set.
fn image_of<'a>(flash: &'a [u8], set: &Set, k: u16) -> Image<'a>
    requires found { IsFound flash.now set.now }
    requires there { k < set.now.count }
    ensures { Some result ≡ slice_get (set_parts (images_in flash.now set.now)) k }
{
    is_sized(set);
    found_images_stand();
    images_are_a_format();
    match Image::view(bytes_of(flash, set, k)) {
        Ok(image) => image,
        Err(_) => unreachable!(),
    }
}

/// The images of a set that was found in the flash, one after the other.
pub fn view_set<'a>(alloc: Global, flash: &'a [u8], set: &Set) -> Result<Vec<Image<'a>>, NoMemory>
    requires { IsFound flash.now set.now }
    ensures images { IfOk result (λ images. images.items ≡ set_parts (images_in flash.now set.now)) }
    ensures few { IfOk result (λ images. length images.items < 2 ^ 32) }
{
    is_sized(set);
    let mut images = Vec::new(alloc);
    for k in 0..set.count {
        images.push(image_of(flash, set, k))?;
    }
    Ok(images)
}
