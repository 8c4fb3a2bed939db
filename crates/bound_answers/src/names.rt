//! The full names of types.

ghost use Rattle.std.specs.Prelude.{◌≡◌, Some, slice_get};
ghost use Rattle.classes.specs.Queries.{class_of};
ghost use Rattle.board_ids.specs.Ids.{cli_type, plain_type};
ghost use Rattle.member_keys.specs.Seen.{class_seen};
ghost use Rattle.class_table.specs.Seen.{classes_seen};
ghost use Rattle.set_names.specs.Names.{seen_all};
ghost use Rattle.bound_answers.specs.Names.{brackets, name, type_units};

use crate::set::BoundSet;
use board_types::board::BoardType;
use member_keys::ClassId;
use tiny_types::{BoundTypes, class_of_type};

/// The unit of a number of so many pairs of brackets.
#[tactic(auto, using(crate::proofs::BracketLaws::opening, crate::proofs::BracketLaws::closing, crate::proofs::BracketLaws::past))]
fn bracket(ranks: u16, k: u32) -> Option<u16>
    ensures { result ≡ slice_get (brackets ranks) k }
{
    if k >= 2 * u32::from(ranks) {
        None
    } else if k % 2 == 0 {
        Some(u16::from(b'['))
    } else {
        Some(u16::from(b']'))
    }
}

/// The unit of a number of the full name of a type whose class is told.
fn class_unit(types: &BoundTypes<'_, '_>, of: BoardType, class: ClassId, k: u32) -> Option<u16>
    requires { Some (class_seen class) ≡ class_of (classes_seen types.now) (plain_type of.elem of.of) }
    ensures { result ≡ slice_get (type_units (classes_seen types.now) (cli_type of)) k }
{
    match class_names::name_unit(types.table(), class, k) {
        Ok(unit) => Some(unit),
        Err(left) => bracket(of.ranks, left),
    }
}

/// The k-th UTF-16 unit of a type's full name: that of its class, and the brackets of an array (ECMA-335 II.14.2). `None`
/// exactly past the last one. In the time of the name.
pub fn name_unit(set: &BoundSet<'_, '_, '_, '_>, of: BoardType, k: u32) -> Option<u16>
    ensures { result ≡ slice_get (name (seen_all set.now) of) k }
{
    let types = set.types();
    match class_of_type(types, of) {
        Some(class) => class_unit(types, of, class, k),
        None => bracket(of.ranks, k),
    }
}
