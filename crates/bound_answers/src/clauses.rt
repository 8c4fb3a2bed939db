//! The clauses of methods with the classes that their catches name.

ghost use Rattle.std.specs.Prelude.{◌≡◌, Some, slice_get};
ghost use Rattle.std.specs.Option.{option_map};
ghost use Rattle.assemblies.specs.Rows.{TypeDef};
ghost use Rattle.assemblies.specs.Binding.{resolve};
ghost use Rattle.world_rows.specs.World.{size_of};
ghost use Rattle.member_keys.specs.Seen.{class_seen};
ghost use Rattle.tiny_members.specs.Rows.{token_seen};
ghost use Rattle.member_keys.specs.declared.keys.ClassId.{ClassId};
ghost use Rattle.tiny_clauses.specs.Clauses.{kind_seen, clause_seen};
ghost use Rattle.set_names.specs.Names.{seen_all};
ghost use Rattle.bound_answers.specs.Told as told;
ghost use Rattle.bound_answers.specs.Standing.{IsThere};

use crate::set::BoundSet;
use board_types::board::{ClauseAt, NO_ROW, TypeAt};
use member_keys::ClassId;
use tiny_clauses::{ClauseKind, ClauseRow};
use tiny_members::TypeToken;
use tiny_rows::type_count;

/// The number of a finally's kind; a catch has 0.
const FINALLY: u16 = 2;

/// From these numbers on a token is a row of the references to types, and of the type specifications.
const REFERENCE: u16 = 0x4000;

const SPECIFICATION: u16 = 0x8000;

/// The row of no type.
const NO_TYPE: TypeAt = TypeAt {
    assembly: 0,
    row: NO_ROW,
};

/// The type of a row of an image; `None` where there is no such row.
fn own_type(set: &BoundSet<'_, '_, '_, '_>, file: u16, row: u16) -> Option<ClassId>
    ensures { option_map class_seen result ≡ resolve (size_of (seen_all set.now)) (seen_all set.now) file (TypeDef row) }
{
    let image = set.image(file)?;
    if row < type_count(image) {
        Some(ClassId {
            file: u32::from(file),
            row: u32::from(row),
        })
    } else {
        None
    }
}

/// The class that a token of an image names; `None` where there is none, and for a type specification.
#[tactic(auto, using(crate::proofs::SetLaws::token_own, crate::proofs::SetLaws::token_named, crate::proofs::SetLaws::token_none))]
pub fn named(set: &BoundSet<'_, '_, '_, '_>, file: u16, token: TypeToken) -> Option<ClassId>
    ensures { option_map class_seen result ≡ resolve (size_of (seen_all set.now)) (seen_all set.now) file (token_seen token) }
{
    let word = token.0;
    if word < REFERENCE {
        own_type(set, file, word)
    } else if word < SPECIFICATION {
        set.referenced(file, word - REFERENCE)
    } else {
        None
    }
}

/// A class of the set as the board names it.
fn type_at(set: &BoundSet<'_, '_, '_, '_>, class: Option<ClassId>) -> TypeAt
    requires { (c : ClassId) → class ≡ Some c → IsThere (seen_all set.now) (class_seen c) }
    ensures { result ≡ told.type_at (option_map class_seen class) }
{
    let _table = set.types().table();
    match class {
        Some(class) => TypeAt {
            assembly: class.file as u16,
            row: class.row as u16,
        },
        None => NO_TYPE,
    }
}

/// The class that a clause takes.
fn class_taken(set: &BoundSet<'_, '_, '_, '_>, file: u16, kind: ClauseKind) -> TypeAt
    ensures { result ≡ told.class_taken (seen_all set.now) file (kind_seen kind) }
{
    match kind {
        ClauseKind::Catch(token) => type_at(set, named(set, file, token)),
        ClauseKind::Finally | ClauseKind::Other => NO_TYPE,
    }
}

/// The number of a clause's kind.
fn kind_number(kind: ClauseKind) -> u16
    ensures { result ≡ told.kind_number (kind_seen kind) }
{
    match kind {
        ClauseKind::Finally => FINALLY,
        ClauseKind::Catch(_) | ClauseKind::Other => 0,
    }
}

/// A clause of an image as the board sees it.
fn tell(set: &BoundSet<'_, '_, '_, '_>, file: u16, clause: ClauseRow) -> ClauseAt
    ensures { result ≡ told.clause_told (seen_all set.now) file (clause_seen clause) }
{
    ClauseAt {
        kind: kind_number(clause.kind),
        class: class_taken(set, file, clause.kind),
        try_start: clause.try_start,
        try_end: clause.try_end,
        start: clause.start,
        end: clause.end,
    }
}

/// The k-th clause of a method; `None` exactly past the last one.
pub fn clause(set: &BoundSet<'_, '_, '_, '_>, method: TypeAt, k: u16) -> Option<ClauseAt>
    ensures { result ≡ slice_get (told.clauses (seen_all set.now) method) k }
{
    let image = set.image(method.assembly)?;
    let row = tiny_clauses::clause(image, method.row, k)?;
    Some(tell(set, method.assembly, row))
}
