//! The types that tokens of code name (ECMA-335 II.22.2, II.22.37, II.22.38, II.22.39).

ghost use Rattle.std.specs.Prelude.{◌≡◌, ◌<◌, ◌+◌, length, slice_index};
ghost use Rattle.std.specs.Option.{option_map};
ghost use Rattle.machine.specs.Data.{Id};
ghost use Rattle.member_keys.specs.Seen.{class_seen, type_seen};
ghost use Rattle.type_names.specs.Resolved.{type_id, type_resolved};
ghost use Rattle.operand_facts.specs.Named.{spec_meant, spec_row, type_meant};

use cil_rows::{TypeSpecRow, read_row};
use cil_sig::spec_sig;
use ecma_types::id::TypeId;
use file_tables::numbers::TYPE_SPEC;
use member_keys::{ClassId, ElementKey, TypeKey};
use member_reading::{bytes, read_type};
use type_names::{TypeNames, from_zero, split_token};

/// A type's row from 0.
#[tactic(auto, using(crate::proofs::RowLaws::from_one))]
fn class_of(of: TypeId) -> ClassId
    requires { 0 < of.row }
    ensures { (c : Id) → of ≡ type_id c → class_seen result ≡ c }
{
    ClassId {
        file: u32::from(of.file),
        row: of.row - 1,
    }
}

/// The class that a token names.
fn find_class(names: &TypeNames<'_>, file: u16, token: u32) -> Option<ClassId>
    requires { file < length names.now }
    ensures { option_map class_seen result ≡ type_resolved names.now file token }
{
    match names.resolve_type(file, token) {
        Ok(of) => Some(class_of(of)),
        Err(_) => None,
    }
}

/// The type that the blob of a specification says (ECMA-335 II.23.2.14).
#[tactic(auto, using(crate::proofs::TokenLaws::spec_formed, crate::proofs::TokenLaws::spec_faulty))]
fn read_spec(names: &TypeNames<'_>, file: u16, blob: &[u8]) -> Option<TypeKey>
    requires { file < length names.now }
    ensures { option_map type_seen result ≡ spec_meant names.now file blob.now }
{
    match spec_sig(blob) {
        Ok(of) => read_type(names, file, &of),
        Err(_) => None,
    }
}

/// The row of a specification, from 0.
fn find_row(names: &TypeNames<'_>, file: u16, n: u32) -> Option<TypeSpecRow>
    requires { file < length names.now }
    ensures { result ≡ option_map (λ row. record { signature = slice_index row 0 }) (spec_row names.now file n) }
{
    let tables = names.tables(file);
    if n >= tables.rows(TYPE_SPEC) {
        return None;
    }
    Some(read_row(tables, n + 1))
}

/// The type that a token of a file names: a class, or an array that a specification spells; `None` exactly where there is none.
pub fn find_type(names: &TypeNames<'_>, file: u16, token: u32) -> Option<TypeKey>
    requires { file < length names.now }
    ensures { option_map type_seen result ≡ type_meant names.now file token }
{
    let at = split_token(token);
    if at.table == TYPE_SPEC {
        let tables = names.tables(file);
        let n = from_zero(tables.rows(TYPE_SPEC), at.row);
        let row = find_row(names, file, n)?;
        read_spec(names, file, bytes(tables, row.signature))
    } else {
        let class = find_class(names, file, token)?;
        Some(TypeKey {
            ranks: 0,
            element: ElementKey::Class(class),
        })
    }
}
