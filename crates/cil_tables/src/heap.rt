//! The entries of the heaps (ECMA-335 II.24.2.3, II.24.2.4).

ghost use Rattle.std.specs.Prelude.{◌≡◌, length, MatchOption};
ghost use Rattle.std.specs.List.{position_or_len};
ghost use Rattle.std.specs.Option.{option_copied};
ghost use Rattle.file_tables.specs.Heaps as heaps;
ghost use Rattle.cil_tables.specs.Texts.{is_zero, IsFirstZero};

use crate::view::rest;
use file_tables::compressed::compressed;

/// The entry at an offset of `#Blob`.
#[tactic(auto, unfolding(file_tables::specs::Heaps::blob_at, file_tables::specs::Heaps::counted))]
pub fn blob(heap: &[u8], at: usize) -> Option<&[u8]>
    ensures { option_copied result ≡ heaps.blob_at heap.now at }
{
    let (count, behind) = compressed(rest(heap, at))?;
    let count = count as usize;
    if count > behind.len() {
        return None;
    }
    Some(&behind[..count])
}

/// The literal at an offset of `#US`, without its last byte.
#[tactic(auto, unfolding(file_tables::specs::Heaps::user_string_at, file_tables::specs::Heaps::units_of))]
pub fn user_string(heap: &[u8], at: usize) -> Option<&[u8]>
    ensures { option_copied result ≡ heaps.user_string_at heap.now at }
{
    let entry = blob(heap, at)?;
    if entry.is_empty() {
        return Some(entry);
    }
    if entry.len() % 2 == 0 {
        return None;
    }
    Some(&entry[..entry.len() - 1])
}

/// The place of the first zero byte.
#[tactic(auto, using(crate::proofs::Texts::no_zero))]
pub fn zero_place(bytes: &[u8]) -> Option<usize>
    ensures { MatchOption result (position_or_len is_zero bytes.now ≡ length bytes.now) (IsFirstZero bytes.now) }
{
    for (i, b) in bytes.iter().enumerate() {
        if *b == 0 {
            return Some(i);
        }
    }
    None
}

/// The text at an offset of `#Strings`.
pub fn string(heap: &[u8], at: usize) -> Option<&str>
    ensures { option_copied result ≡ heaps.string_at heap.now at }
{
    let rest = rest(heap, at);
    match zero_place(rest) {
        None => None,
        Some(end) => match str::from_utf8(&rest[..end]) {
            Ok(text) => Some(text),
            Err(_) => None,
        },
    }
}
