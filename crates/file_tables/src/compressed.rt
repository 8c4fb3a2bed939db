//! Compressed numbers (ECMA-335 II.23.2).

ghost use Rattle.std.specs.Prelude.{◌≡◌, option_map};
ghost use Rattle.file_tables.specs.Compressed.{compressed_at};

/// The compressed number at the front, below 2^29, and the bytes behind it. None where no number stands there whole.
#[tactic(auto, unfolding(crate::specs::Compressed::compressed_at))]
pub fn compressed(bytes: &[u8]) -> Option<(u32, &[u8])>
    ensures { option_map (λ x. (x.0, x.1.now)) result ≡ compressed_at bytes.now }
{
    match bytes {
        [a @ 0..=0x7F, rest @ ..] => Some((u32::from(*a), rest)),
        [a @ 0x80..=0xBF, b, rest @ ..] => {
            Some((u32::from(*a - 0x80) * 0x100 + u32::from(*b), rest))
        }
        [a @ 0xC0..=0xDF, b, c, d, rest @ ..] => {
            let high = u32::from(*a - 0xC0) * 0x100 + u32::from(*b);
            let low = u32::from(*c) * 0x100 + u32::from(*d);
            Some((high * 0x1_0000 + low, rest))
        }
        _ => None,
    }
}
