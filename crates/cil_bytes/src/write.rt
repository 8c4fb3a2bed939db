//! Numbers, zeros and the entries of heaps at the end of a list of bytes.

ghost use Rattle.std.specs.Prelude.{◌≡◌, ◌++◌, ◌<◌, ◌≤◌, ◌+◌, ◌*◌, ◌^◌, ◌-◌, OnOk, length, map, replicate, take, [], ◌∷◌};
ghost use Rattle.std.specs.List.{flat_map};
ghost use Rattle.cil_layout.specs.Layout.{two, four, spelled, token_width as width_of_token, column_width as width_of_column};
ghost use Rattle.cil_layout.specs.Heaps.{name_entry, padded};
ghost use Rattle.cil_layout.specs.Text.{compressed, blob_entry, text_bytes};

use cil_layout::places::Widths;
use file_tables::schema::{Coded, Column};
use plain_types::fault::NoMemory;

/// A number of two bytes, the lowest first.
pub fn push_two(out: &mut Vec<u8>, number: u16) -> Result<(), NoMemory>
    ensures { OnOk result (out.new.items ≡ out.old.items ++ two number) }
{
    out.extend_from_slice(&number.to_le_bytes())?;
    Ok(())
}

/// A number of four bytes, the lowest first.
pub fn push_four(out: &mut Vec<u8>, number: u32) -> Result<(), NoMemory>
    ensures { OnOk result (out.new.items ≡ out.old.items ++ four number) }
{
    out.extend_from_slice(&number.to_le_bytes())?;
    Ok(())
}

/// Bytes as they are.
pub fn push_bytes(out: &mut Vec<u8>, bytes: &[u8]) -> Result<(), NoMemory>
    ensures { OnOk result (out.new.items ≡ out.old.items ++ bytes.now) }
{
    out.extend_from_slice(bytes)?;
    Ok(())
}

/// So many zeros.
#[tactic(auto, using(crate::proofs::Pieces::zeros_more))]
pub fn push_zeros(out: &mut Vec<u8>, count: usize) -> Result<(), NoMemory>
    ensures { OnOk result (out.new.items ≡ out.old.items ++ replicate count 0) }
{
    for _ in 0..count {
        out.push(0)?;
    }
    Ok(())
}

/// Zeros up to a multiple of 4.
pub fn pad(out: &mut Vec<u8>) -> Result<(), NoMemory>
    ensures { OnOk result (out.new.items ≡ padded out.old.items) }
{
    let past = out.len() % 4;
    push_zeros(out, if past == 0 { 0 } else { 4 - past })
}

/// Bytes with zeros up to a multiple of 4.
pub fn push_padded(out: &mut Vec<u8>, bytes: &[u8]) -> Result<(), NoMemory>
    ensures { OnOk result (out.new.items ≡ out.old.items ++ padded bytes.now) }
{
    push_bytes(out, bytes)?;
    let past = bytes.len() % 4;
    push_zeros(out, if past == 0 { 0 } else { 4 - past })
}

/// The entry of a name.
pub fn push_name(out: &mut Vec<u8>, name: &str) -> Result<(), NoMemory>
    ensures { OnOk result (out.new.items ≡ out.old.items ++ name_entry name.now) }
{
    let bytes = name.as_bytes();
    match bytes {
        [] => Ok(()),
        [_, ..] => {
            push_bytes(out, bytes)?;
            out.push(0)?;
            Ok(())
        }
    }
}

/// A compressed number.
pub fn push_compressed(out: &mut Vec<u8>, number: u32) -> Result<(), NoMemory>
    requires { number < 2 ^ 29 }
    ensures { OnOk result (out.new.items ≡ out.old.items ++ compressed number) }
{
    if number < 128 {
        out.push(number as u8)?;
    } else if number < 16_384 {
        push_bytes(out, &[(128 + number / 256) as u8, (number % 256) as u8])?;
    } else {
        let bytes = [
            (192 + number / 0x0100_0000) as u8,
            (number / 0x0001_0000 % 256) as u8,
            (number / 256 % 256) as u8,
            (number % 256) as u8,
        ];
        push_bytes(out, &bytes)?;
    }
    Ok(())
}

/// The entry of a blob.
pub fn push_blob(out: &mut Vec<u8>, bytes: &[u8]) -> Result<(), NoMemory>
    requires { length bytes.now < 2 ^ 29 }
    ensures { OnOk result (out.new.items ≡ out.old.items ++ blob_entry bytes.now) }
{
    push_compressed(out, bytes.len() as u32)?;
    push_bytes(out, bytes)
}

/// Lists of bytes one behind the other.
#[tactic(auto, using(crate::proofs::Pieces::grown))]
pub fn push_parts(out: &mut Vec<u8>, parts: &[&[u8]]) -> Result<(), NoMemory>
    ensures { OnOk result (out.new.items ≡ out.old.items ++ flat_map (λ part. part.now) parts.now) }
{
    for part in parts {
        push_bytes(out, part)?;
    }
    Ok(())
}

/// How wide an index of a kind is.
fn token_width(widths: Widths, coded: Coded) -> u8
    ensures { result ≡ width_of_token widths coded }
{
    match coded {
        Coded::TypeDefOrRef => widths.types,
        Coded::MemberRefParent => widths.parents,
        Coded::ResolutionScope => widths.scopes,
        _ => 2,
    }
}

/// How wide a column is (ECMA-335 II.24.2.6).
fn column_width(widths: Widths, column: Column) -> u8
    ensures { result ≡ width_of_column widths column }
{
    match column {
        Column::Two | Column::Guid | Column::RowOf(_) | Column::ListOf(_) => 2,
        Column::Four => 4,
        Column::Strings => widths.strings,
        Column::Blob => widths.blobs,
        Column::Token(coded) | Column::TokenOrNone(coded) => token_width(widths, coded),
    }
}

/// The numbers of a row, each as wide as its column; of more numbers or more columns the rest is left out.
pub fn push_numbers(
    out: &mut Vec<u8>,
    widths: Widths,
    columns: &[Column],
    numbers: &[u32],
) -> Result<(), NoMemory>
    ensures { OnOk result (out.new.items ≡ out.old.items ++ spelled (map (width_of_column widths) columns.now) numbers.now) }
{
    let [column, columns @ ..] = columns else {
        return Ok(());
    };
    let [number, numbers @ ..] = numbers else {
        return Ok(());
    };
    let bytes = number.to_le_bytes();
    let count = usize::from(column_width(widths, *column)).min(4);
    push_bytes(out, &bytes[..count])?;
    push_numbers(out, widths, columns, numbers)
}
