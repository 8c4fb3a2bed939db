//! Full names.

ghost use Rattle.std.specs.Prelude.{◌≡◌, ◌+◌, ◌<◌, IfOk, IfErr, Some, length, slice_get};
ghost use Rattle.member_keys.specs.Seen.{class_seen};
ghost use Rattle.class_table.specs.Seen.{classes_seen};
ghost use Rattle.class_names.specs.Units.{full_units, own_units};
ghost use Rattle.class_names.specs.Ends.{from_end};

use crate::own::{count_own, own_unit};
use class_queries::enclosing;
use class_table::ClassTable;
use member_keys::ClassId;

/// The unit behind the name of a type in which another one is nested.
const PLUS: u16 = 0x2B;

/// How many units the full name of a class has.
fn count_units(table: &ClassTable<'_>, class: ClassId) -> u128
    ensures { result ≡ length (full_units (classes_seen table.now) (class_seen class)) }
{
    let mut class = class;
    let mut count: u128 = 0;
    for _step in 0..table.size {
        let own = u128::from(count_own(table, class));
        match enclosing(table, class) {
            Some(outer) => {
                class = outer;
                count += own + 1;
            }
            None => return count + own,
        }
    }
    count + u128::from(count_own(table, class))
}

/// The unit of a class's own part that has so many units behind it there.
fn own_from_end(table: &ClassTable<'_>, class: ClassId, behind: u128) -> Option<u16>
    ensures { result ≡ from_end (own_units (classes_seen table.now) (class_seen class)) behind }
{
    let own = u128::from(count_own(table, class));
    if behind >= own {
        return None;
    }
    match own_unit(table, class, (own - behind - 1) as u64) {
        Ok(unit) => Some(unit),
        Err(_) => unreachable!(),
    }
}

/// The unit of a full name that has so many units behind it.
fn unit_from_end(table: &ClassTable<'_>, class: ClassId, behind: u128) -> Option<u16>
    ensures { result ≡ from_end (full_units (classes_seen table.now) (class_seen class)) behind }
{
    let mut class = class;
    let mut left = behind;
    for _step in 0..table.size {
        let own = u128::from(count_own(table, class));
        if left < own {
            return own_from_end(table, class, left);
        }
        class = enclosing(table, class)?;
        if left == own {
            return Some(PLUS);
        }
        left -= own + 1;
    }
    own_from_end(table, class, left)
}

/// The unit of a number of a class's full name: its namespace and a dot, and its name, behind those of the types that it is
/// nested in, each with a plus sign. Past the last one how many units further it is. In the time of the name, and without memory.
pub fn name_unit(table: &ClassTable<'_>, class: ClassId, k: u32) -> Result<u16, u32>
    ensures unit { IfOk result (λ unit. slice_get (full_units (classes_seen table.now) (class_seen class)) k ≡ Some unit) }
    ensures past { IfErr result (λ left. k ≡ length (full_units (classes_seen table.now) (class_seen class)) + left) }
{
    let count = count_units(table, class);
    let at = u128::from(k);
    if count <= at {
        return Err((at - count) as u32);
    }
    match unit_from_end(table, class, count - at - 1) {
        Some(unit) => Ok(unit),
        None => unreachable!(),
    }
}
