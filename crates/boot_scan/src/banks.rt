//! What is found where a set may begin: at the front of the flash, or in a bank.

ghost use Rattle.std.specs.Prelude.{◌≡◌, ◌≤◌, ◌*◌, drop, take, length, slice_index};
ghost use Rattle.byteorder.specs.Endian.{little_number};
ghost use Rattle.deploy_model.specs.Banks.{walk, judge, is_late, holds, old_found, bank_found, bank_of, number_in, MOST_IMAGES as most};
ghost use Rattle.boot_scan.specs.Images.{FORMAT};
ghost use Rattle.boot_scan.specs.Sets.{found_view, AreInside};

use crate::sets::Found;
use crate::walk::{Walked, rest_of, walk};
use byteorder::{ByteOrder, LittleEndian};

/// The marker of an image, which is also that of a flash of the format before: `MSSpot1` and a zero.
const IMAGE_MARKER: [u8; 8] = [0x4D, 0x53, 0x53, 0x70, 0x6F, 0x74, 0x31, 0x00];

/// The bank marker: `MSSpot2` and a zero.
const BANK_MARKER: [u8; 8] = [0x4D, 0x53, 0x53, 0x70, 0x6F, 0x74, 0x32, 0x00];

/// How far apart the banks begin, and how many bytes each has.
const BANKS_APART: usize = 131_072;

const BANK_SIZE: usize = 122_880;

/// Where a bank has its number and its images.
const NUMBER: usize = 8;

const BODY: usize = 16;

/// The last end of a set of the format before, of which all that is read lies in bank 0.
const LAST_END: usize = 122_876;

/// What is found at one place.
#[derive(Clone, Copy)]
pub struct Read {
    pub found: Found,
    /// It is a set that ends past bank 0.
    pub late: bool,
}

/// A byte of the flash. Bytes behind its end count as 0.
fn byte_at(bytes: &[u8], at: usize) -> u8
    ensures { result ≡ slice_index bytes.now at }
{
    match bytes.get(at) {
        Some(byte) => *byte,
        None => 0,
    }
}

/// Whether a marker stands at the front of some bytes.
#[tactic(auto, using(crate::proofs::BankLaws::marker_goes_on, crate::proofs::BankLaws::marker_stops, crate::proofs::BankLaws::marker_done))]
fn has_marker(bytes: &[u8], marker: &[u8]) -> bool
    ensures { result ≡ holds marker.now 0 bytes.now }
{
    for (k, byte) in marker.iter().enumerate() {
        if byte_at(bytes, k) != *byte {
            return false;
        }
    }
    true
}

/// The set whose images begin at a place, in what begins at its front.
fn read_set(bytes: &[u8], front: u32, start: usize) -> Read
    requires long { length bytes.now ≤ 4294967295 }
    requires begins { start ≤ 4294967295 }
    ensures found { found_view bytes.now result.found ≡ judge FORMAT front (walk FORMAT most start (drop start bytes.now)) }
    ensures inside { AreInside bytes.now result.found }
    ensures late { result.late ≡ is_late (judge FORMAT front (walk FORMAT most start (drop start bytes.now))) }
{
    match walk(bytes, start) {
        Walked::Stuck { at } => Read {
            found: Found::Bad { at },
            late: false,
        },
        Walked::Walks {
            set,
            entries,
            total,
        } => {
            if entries == 1 {
                Read {
                    found: Found::Set(set),
                    late: total > LAST_END,
                }
            } else {
                Read {
                    found: Found::Bad { at: front },
                    late: false,
                }
            }
        }
    }
}

/// What is found by the format before: images from the first byte on.
#[tactic(auto, unfolding(deploy_model::specs::Banks::old_found))]
pub fn read_front(flash: &[u8]) -> Read
    requires { length flash.now ≤ 4294967295 }
    ensures found { found_view flash.now result.found ≡ old_found FORMAT flash.now }
    ensures inside { AreInside flash.now result.found }
    ensures late { result.late ≡ is_late (old_found FORMAT flash.now) }
{
    if has_marker(flash, &IMAGE_MARKER) {
        read_set(flash, 0, 0)
    } else {
        Read {
            found: Found::Nothing,
            late: false,
        }
    }
}

/// The bytes of a bank, 0 or 1.
fn bank_bytes(flash: &[u8], bank: usize) -> &[u8]
    requires { bank ≤ 1 }
    ensures { result.now ≡ bank_of bank flash.now }
{
    let rest = rest_of(flash, BANKS_APART * bank);
    &rest[..rest.len().min(BANK_SIZE)]
}

/// What is found in a bank, 0 or 1.
#[tactic(auto, unfolding(deploy_model::specs::Banks::bank_found))]
pub fn read_bank(flash: &[u8], bank: usize) -> Found
    requires { bank ≤ 1 }
    ensures found { found_view flash.now result ≡ bank_found FORMAT bank (bank_of bank flash.now) }
    ensures inside { AreInside flash.now result }
{
    if !has_marker(bank_bytes(flash, bank), &BANK_MARKER) {
        return Found::Nothing;
    }
    let base = BANKS_APART * bank;
    let end = flash.len().min(base + BANK_SIZE);
    read_set(&flash[..end], base as u32, base + BODY).found
}

/// The number of a bank, 0 or 1.
pub fn number_of(flash: &[u8], bank: usize) -> u32
    requires { bank ≤ 1 }
    ensures { result ≡ number_in (bank_of bank flash.now) }
{
    let bytes = bank_bytes(flash, bank);
    let number = [
        byte_at(bytes, NUMBER),
        byte_at(bytes, NUMBER + 1),
        byte_at(bytes, NUMBER + 2),
        byte_at(bytes, NUMBER + 3),
    ];
    LittleEndian::read_u32(&number)
}
