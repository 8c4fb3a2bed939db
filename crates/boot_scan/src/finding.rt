//! The set that boot finds, and where it stands.

ghost use Rattle.std.specs.Prelude.{◌≡◌, ◌≤◌, ℕ, List, length, not, ◌&&◌, ◌||◌, nat_le};
ghost use Rattle.deploy_model.specs.Banks.{found, locate, first_bad, is_set};
ghost use Rattle.boot_scan.specs.Images.{FORMAT};
ghost use Rattle.boot_scan.specs.Sets.{found_view, located_view, AreInside};

use crate::banks::{number_of, read_bank, read_front};
use crate::sets::Found;

/// Where what is found stands.
#[derive(Clone, Copy, Debug, PartialEq, Eq)]
pub enum Place {
    /// There is no set.
    Nowhere,
    /// At the front of the flash, as in the format before; it ends at or before byte 122,876.
    Front,
    /// At the front of the flash, as in the format before; it ends later.
    LateFront,
    /// In a bank, 0 or 1, that has this number.
    Bank { bank: u8, number: u32 },
}

/// What is found, and where it stands.
#[derive(Clone, Copy, Debug, PartialEq, Eq)]
pub struct Located {
    pub found: Found,
    pub place: Place,
}

/// The first of three places where something is found.
fn first_bad(old: Found, first: Found, second: Found) -> Found
    ensures view { (bytes : List ℕ) → found_view bytes result ≡ first_bad (found_view bytes old) (found_view bytes first) (found_view bytes second) }
    ensures inside { (bytes : List ℕ) → AreInside bytes old → AreInside bytes first → AreInside bytes second → AreInside bytes result }
{
    match old {
        Found::Nothing => match first {
            Found::Nothing => second,
            _ => first,
        },
        _ => old,
    }
}

/// Whether a set is found.
fn is_set(found: &Found) -> bool
    ensures { (bytes : List ℕ) → result ≡ is_set (found_view bytes found.now) }
{
    matches!(found, Found::Set(_))
}

/// Whether the set of bank 0 goes before that of bank 1: it is there, and its number is not the lower one of two.
fn goes_first(first: &Found, second: &Found, n: u32, m: u32) -> bool
    ensures { (bytes : List ℕ) → result ≡ (is_set (found_view bytes first.now) && (not (is_set (found_view bytes second.now)) || nat_le m n)) }
{
    is_set(first) && (!is_set(second) || m <= n)
}

/// Which set boot finds, and where it stands: one at the front that ends past bank 0; else that of the bank with the
/// greater number, of bank 0 where the numbers are equal; else one at the front; else no set, and the first place that
/// shows it.
pub fn locate(flash: &[u8]) -> Located
    requires { length flash.now ≤ 4294967295 }
    ensures located { located_view flash.now result ≡ locate FORMAT flash.now }
    ensures inside { AreInside flash.now result.found }
{
    let old = read_front(flash);
    if old.late {
        return Located {
            found: old.found,
            place: Place::LateFront,
        };
    }
    let first = read_bank(flash, 0);
    let second = read_bank(flash, 1);
    let (n, m) = (number_of(flash, 0), number_of(flash, 1));
    if goes_first(&first, &second, n, m) {
        Located {
            found: first,
            place: Place::Bank { bank: 0, number: n },
        }
    } else if is_set(&second) {
        Located {
            found: second,
            place: Place::Bank { bank: 1, number: m },
        }
    } else if is_set(&old.found) {
        Located {
            found: old.found,
            place: Place::Front,
        }
    } else {
        Located {
            found: first_bad(old.found, first, second),
            place: Place::Nowhere,
        }
    }
}

/// What boot finds in the flash: the images of a set, or none, or the place that shows that there is no set.
pub fn find(flash: &[u8]) -> Found
    requires { length flash.now ≤ 4294967295 }
    ensures found { found_view flash.now result ≡ found FORMAT flash.now }
    ensures inside { AreInside flash.now result }
{
    locate(flash).found
}
