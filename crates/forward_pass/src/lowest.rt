//! The lowest of the rules that are broken.

ghost use Rattle.std.specs.Prelude.{◌≡◌, Some};
ghost use Rattle.forward_pass.specs.Told.{lower_of};

/// Control falls where it may not.
pub const FALLS_BADLY: u8 = 45;
/// More or fewer types come where others stand.
pub const OTHER_DEPTH: u8 = 52;
/// A type comes where another stands that it doesn't fit.
pub const OTHER_TYPE: u8 = 53;
/// The stack isn't empty where a try begins.
pub const NOT_EMPTY: u8 = 54;

/// The lowest, where one rule is broken and maybe another.
pub fn lowest_with(other: Option<u8>, rule: u8) -> u8
    ensures { lower_of other (Some rule) ≡ Some result }
{
    match other {
        Some(other) => other.min(rule),
        None => rule,
    }
}

/// The lower of two rules, where any is broken.
pub fn lower(a: Option<u8>, b: Option<u8>) -> Option<u8>
    ensures { result ≡ lower_of a b }
{
    match b {
        Some(rule) => Some(lowest_with(a, rule)),
        None => a,
    }
}
