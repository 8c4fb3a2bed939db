//! Texts as UTF-16 units.

ghost use Rattle.std.specs.Prelude.{◌≡◌, ◌+◌, ◌≤◌, IfOk, IfErr, Some, length, slice_get};
ghost use Rattle.std.specs.Char.Escape.{encode_utf16};
ghost use Rattle.machine.specs.Texts.{units_of_name};

/// The unit of a number of a character; past the last one how many units further it is.
fn char_unit(c: char, k: u64) -> Result<u16, u64>
    ensures unit { IfOk result (λ unit. slice_get (encode_utf16 c) k ≡ Some unit) }
    ensures past { IfErr result (λ left. k ≡ length (encode_utf16 c) + left) }
{
    let mut room = [0; 2];
    let units = c.encode_utf16(&mut room);
    if k < units.len() as u64 {
        Ok(units[k as usize])
    } else {
        Err(k - units.len() as u64)
    }
}

/// The unit of a number of a text; past the last one how many units further it is.
pub fn text_unit(text: &str, k: u64) -> Result<u16, u64>
    ensures unit { IfOk result (λ unit. slice_get (units_of_name text.now) k ≡ Some unit) }
    ensures past { IfErr result (λ left. k ≡ length (units_of_name text.now) + left) }
{
    let mut left = k;
    for c in text.chars() {
        match char_unit(c, left) {
            Ok(unit) => return Ok(unit),
            Err(past) => left = past,
        }
    }
    Err(left)
}

/// How many units a text has: at most as many as its bytes.
pub fn count_units(text: &str) -> u64
    ensures count { result ≡ length (units_of_name text.now) }
    ensures most { result ≤ length text.now }
{
    let mut count = 0;
    for c in text.chars() {
        count += c.len_utf16() as u64;
    }
    count
}
