//! Sets of one image, and what a flash that holds them has: a reading of images written for itself, beside the
//! definitions' words.

ghost use Rattle.std.specs.Prelude.{◌≡◌, ◌≤◌, ◌+◌, length, IfOk, IfSome};

use byteorder::{ByteOrder, LittleEndian};
use flash_trait::flash::FLASH_SIZE;
use little_endian::u32_at;
use std::alloc::{AllocError, Global};
use wire_packets::payload::{IN_A_BANK, LATE_OLD_FORMAT, NOT_FOUND, OLD_FORMAT};

/// The marker of an image, which is also that of a flash of the format before.
pub const IMAGE: [u8; 8] = *b"MSSpot1\0";

/// The marker of a bank.
pub const BANK: [u8; 8] = *b"MSSpot2\0";

/// How many bytes a bank has.
const BANK_SIZE: usize = 122_880;

/// The last end of a set of the format before that lies in bank 0.
const LAST_END: usize = 122_876;

/// What stands in a flash before a session: a set of the tag `a` somewhere, or none.
#[derive(Clone, Copy, Debug, PartialEq, Eq)]
pub enum Start {
    Empty,
    /// In a bank, with this number.
    Bank(usize, u32),
    /// From the first byte on, with so many bytes.
    Old(u32),
}

/// A set as it stands: where its images begin, how many bytes they have, and the sum of those.
#[derive(Clone, Copy, Debug, PartialEq, Eq)]
pub struct Seen {
    pub at: usize,
    pub size: usize,
    pub sum: u32,
}

/// What is found, and where.
#[derive(Clone, Copy, Debug, PartialEq, Eq)]
pub struct Located {
    pub kind: u8,
    pub bank: u32,
    pub number: u32,
    pub set: Option<Seen>,
}

/// A set of one image with an entry: the marker, its size, and the tag in all other bytes.
pub fn set(alloc: Global, tag: u8, size: u32) -> Result<Vec<u8>, AllocError>
    requires { 64 ≤ size }
    ensures { IfOk result (λ set. length set.items ≡ size) }
{
    let mut set = vec![in alloc; tag; size as usize]?;
    set[..8].copy_from_slice(&IMAGE);
    LittleEndian::write_u32(&mut set[8..12], size);
    Ok(set)
}

/// The content of a flash that holds this.
pub fn content(alloc: Global, start: Start) -> Result<Vec<u8>, AllocError> {
    let mut content = vec![in alloc; 0xFF; FLASH_SIZE]?;
    match start {
        Start::Empty => {}
        Start::Bank(bank, number) => {
            let set = set(alloc, b'a', 3000)?;
            let at = if bank == 0 { 0 } else { 131_072 };
            content[at..at + 8].copy_from_slice(&BANK);
            LittleEndian::write_u32(&mut content[at + 8..at + 12], number);
            content[at + 12..at + 16].fill(0);
            content[at + 16..at + 3016].copy_from_slice(set.as_slice());
        }
        Start::Old(size) => {
            let size = size.clamp(64, 262_144);
            let set = set(alloc, b'a', size)?;
            content[..size as usize].copy_from_slice(set.as_slice());
        }
    }
    Ok(content)
}

/// The size of the image at the front of some bytes.
fn image_size(bytes: &[u8]) -> Option<usize>
    ensures { IfSome result (λ size. size ≤ length bytes.now) }
{
    if bytes.len() < 64 || !bytes.starts_with(&IMAGE) {
        return None;
    }
    let size = u32_at(bytes, 8) as usize;
    if size < 64 || size > bytes.len() {
        return None;
    }
    Some(size)
}

/// How many bytes the images have, where at most 32 stand one after the other up to the end or to four bytes 0xFF.
fn images_size(bytes: &[u8]) -> Option<usize>
    ensures { IfSome result (λ size. size ≤ length bytes.now) }
{
    let mut rest = bytes;
    for _ in 0..33 {
        if rest.is_empty() || rest.starts_with(&[0xFF; 4]) {
            return Some(bytes.len().saturating_sub(rest.len()));
        }
        let size = image_size(rest)?;
        rest = &rest[size..];
    }
    None
}

/// The set whose images begin here.
fn standing(at: usize, bytes: &[u8]) -> Option<Seen> {
    let size = images_size(bytes)?;
    let mut sum = 0u32;
    for byte in &bytes[..size] {
        sum = sum.wrapping_add(u32::from(*byte));
    }
    Some(Seen { at, size, sum })
}

/// The set of a bank.
fn in_bank(content: &[u8], bank: usize) -> Option<Seen>
    requires { length content.now ≡ 262144 }
{
    let at = if bank == 0 { 0 } else { 131_072 };
    let bytes = &content[at..at + BANK_SIZE];
    if !bytes.starts_with(&BANK) {
        return None;
    }
    standing(at + 16, &bytes[16..])
}

/// What boot finds.
pub fn locate(content: &[u8]) -> Located
    requires { length content.now ≡ 262144 }
{
    let old = if content.starts_with(&IMAGE) {
        standing(0, content)
    } else {
        None
    };
    if let Some(set) = old {
        if set.size > LAST_END {
            return Located {
                kind: LATE_OLD_FORMAT,
                bank: 0,
                number: 0,
                set: old,
            };
        }
    }
    let first = in_bank(content, 0);
    let second = in_bank(content, 1);
    let numbers = [u32_at(content, 8), u32_at(content, 131_080)];
    if first.is_some() && (second.is_none() || numbers[0] >= numbers[1]) {
        return Located {
            kind: IN_A_BANK,
            bank: 0,
            number: numbers[0],
            set: first,
        };
    }
    if second.is_some() {
        return Located {
            kind: IN_A_BANK,
            bank: 1,
            number: numbers[1],
            set: second,
        };
    }
    let kind = if old.is_some() { OLD_FORMAT } else { NOT_FOUND };
    Located {
        kind,
        bank: 0,
        number: 0,
        set: old,
    }
}

/// What the board tells of it: kind, bank, number and marks.
pub fn banks_told(content: &[u8]) -> [u8; 11]
    requires { length content.now ≡ 262144 }
{
    let at = locate(content);
    let first = content.starts_with(&IMAGE) || content.starts_with(&BANK);
    let second = content[131_072..].starts_with(&BANK);
    let mut told = [0u8; 11];
    told[1] = at.kind;
    LittleEndian::write_u32(&mut told[2..6], at.bank);
    LittleEndian::write_u32(&mut told[6..10], at.number);
    told[10] = u8::from(first) + 2 * u8::from(second);
    told
}
