//! The images that stand one after the other.

ghost use Rattle.std.specs.Prelude.{◌≡◌, ◌≤◌, ◌+◌, drop, length};
ghost use Rattle.deploy_model.specs.Banks.{walk, MOST_IMAGES as most};
ghost use Rattle.boot_scan.specs.Images.{FORMAT};
ghost use Rattle.boot_scan.specs.Sets.{walked_view, IsTold};

use crate::image::{ends, image_at};
use crate::sets::{MOST_IMAGES, Set};

/// The images from a place on.
#[derive(Clone, Copy)]
pub enum Walked {
    /// At a place no image stands, or one more than a set has begins.
    Stuck {
        at: u32,
    },
    /// All of them: how many have an entry, and how many bytes they have together.
    Walks {
        set: Set,
        entries: u16,
        total: usize,
    },
}

/// The bytes from a place on.
pub fn rest_of(bytes: &[u8], place: usize) -> &[u8]
    ensures { result.now ≡ drop place bytes.now }
{
    &bytes[place.min(bytes.len())..]
}

/// The images one after the other from a place up to the end of the bytes or to an erased place.
pub fn walk(bytes: &[u8], start: usize) -> Walked
    requires long { length bytes.now ≤ 4294967295 }
    requires begins { start ≤ 4294967295 }
    ensures walked { walked_view bytes.now result ≡ walk FORMAT most start (drop start bytes.now) }
    ensures told { IsTold bytes.now result }
{
    let mut set = Set::empty();
    let mut entries = 0;
    let mut place = start;
    'images: while !ends(rest_of(bytes, place)) {
        if usize::from(set.count) == MOST_IMAGES {
            return Walked::Stuck { at: place as u32 };
        }
        match image_at(rest_of(bytes, place)) {
            None => return Walked::Stuck { at: place as u32 },
            Some(image) => {
                set.add(place as u32, image.size);
                entries += image.has_entry as u16;
                place += image.size as usize;
            }
        }
    }
    Walked::Walks {
        set,
        entries,
        total: place - start,
    }
}
