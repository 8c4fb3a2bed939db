//! The numbers of job words.

ghost use Rattle.std.specs.Prelude.{◌≡◌, ◌<◌, ◌^◌, true};
ghost use Rattle.std.specs.Option.{SomeIff};
ghost use Rattle.std.specs.Str.Parse.{digits_value};
ghost use Rattle.std.specs.Char.{is_ascii_digit};
ghost use Rattle.std.specs.List.{list_all};
ghost use Rattle.numerals.specs.Numerals.{is_numeral, number_up_to};

/// Whether each byte is a decimal digit.
fn are_digits(bytes: &[u8]) -> bool
    ensures { result ≡ list_all is_ascii_digit bytes.now }
{
    bytes.iter().all(|byte| byte.is_ascii_digit())
}

/// Whether a word is `0`, or decimal digits of which the first is no zero.
fn is_numeral(word: &[u8]) -> bool
    ensures { result ≡ is_numeral word.now }
{
    match word {
        [] => false,
        [only] => only.is_ascii_digit(),
        [first, ..] => *first != b'0' && are_digits(word),
    }
}

/// The number that a numeral writes, where it fits.
fn value(word: &str) -> Option<u64>
    requires { is_numeral word.now ≡ true }
    ensures { SomeIff result (digits_value 10 word.now < 2 ^ 64) (digits_value 10 word.now) }
{
    word.parse::<u64>().ok()
}

/// The number of a word, where it is `0` or decimal digits of which the first is no zero, and at most `most`.
#[tactic(auto, unfolding(crate::specs::Numerals::number_up_to))]
pub fn number(word: &str, most: u64) -> Option<u64>
    ensures { result ≡ number_up_to most word.now }
{
    if !is_numeral(word.as_bytes()) {
        return None;
    }
    match value(word) {
        Some(number) if number <= most => Some(number),
        _ => None,
    }
}
