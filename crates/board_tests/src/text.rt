//! Cases that are written as text: a line a case.

use plain_types::elem::Elem;
use std::test::Fail;

/// The number of decimal digits; 0 where there are none.
pub fn number(text: &str) -> Result<u16, Fail> {
    let mut number: u32 = 0;
    for digit in text.chars() {
        let value = digit.to_digit(10).ok_or("a digit")?;
        number = number.wrapping_mul(10).wrapping_add(value);
    }
    Ok((number & 0xFFFF) as u16)
}

/// A part of a text between marks, from 0; empty where there is none.
pub fn part(text: &str, mark: char, n: usize) -> &str {
    match text.split(mark).nth(n) {
        Some(part) => part.trim(),
        None => "",
    }
}

/// The element of a short name; `Void` of another text.
pub fn elem_of(text: &str) -> Elem {
    match text {
        "O" => Elem::Object,
        "S" => Elem::String,
        "I1" => Elem::I1,
        "I4" => Elem::I4,
        "U4" => Elem::U4,
        _ => Elem::Void,
    }
}

/// An answer in words.
pub fn yes_or_no(answer: bool) -> &'static str {
    match answer {
        true => "yes",
        false => "no",
    }
}
