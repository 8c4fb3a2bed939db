//! Distances in the shortened code.

ghost use Rattle.std.specs.Prelude.{◌≡◌, ℕ, ◌+◌, ◌^◌, ◌<◌, unsigned_abs, length, map, if◌then◌else◌, Some, None};
ghost use Rattle.std.specs.List.{range_with_len};
ghost use Rattle.assemblies.specs.Closed.{Each};
ghost use Rattle.cil_code.specs.Instructions.{HasTarget, target_at};
ghost use Rattle.image_form.specs.Codes.{target};
ghost use Rattle.code_shrink.specs.Limits.{is_near, first_far};
ghost use Rattle.code_shrink.specs.Shrunk.{moved};
ghost use Rattle.code_shrink.specs.Starts.{Rise, place_in};

use crate::starts::{Start, place};
use cil_code::switch_target;

/// The distance in the shortened code for one of an instruction that ends at `next`.
pub fn moved(starts: &[Start], next: u32, distance: i64) -> i64
    requires rise { Rise starts.now }
    requires near { unsigned_abs (target next distance) < 2 ^ 32 }
    ensures { result ≡ moved (place_in starts.now) next distance }
{
    let to = (i64::from(next) + distance).unsigned_abs() as u32;
    i64::from(place(starts, to)) - i64::from(place(starts, next))
}

/// The distance, where two bytes can't say it.
pub fn outside(distance: i64) -> Option<i64>
    ensures { result ≡ (if is_near distance then None else Some distance) }
{
    if distance < -32_768 || distance > 32_767 {
        Some(distance)
    } else {
        None
    }
}

/// The first distance of a switch that is outside. The switch stands at `at`, has so many targets and ends at `next`.
pub fn outside_target(
    code: &[u8],
    starts: &[Start],
    at: u32,
    targets: u32,
    next: u32,
) -> Option<i64>
    requires rise { Rise starts.now }
    requires there { (k : ℕ) → k < targets → HasTarget code.now at k }
    requires near { Each (λ z. unsigned_abs z < 2 ^ 32) (map (target next) (map (target_at code.now at) (range_with_len 0 targets))) }
    ensures { result ≡ first_far (map (moved (place_in starts.now) next) (map (target_at code.now at) (range_with_len 0 targets))) }
{
    for k in 0..targets {
        let distance = moved(starts, next, switch_target(code, at, k));
        if let Some(distance) = outside(distance) {
            return Some(distance);
        }
    }
    None
}
