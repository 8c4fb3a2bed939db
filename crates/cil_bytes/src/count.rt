//! What the builder counts beside the rows.

ghost use Rattle.std.specs.Prelude.{◌≡◌, ◌<◌, ◌≤◌, ◌+◌, ◌*◌, ◌-◌, ℕ, List, ◌^◌, min, length, slice_index, if◌then◌else◌, ◌==◌};
ghost use Rattle.cil_layout.specs.Asked.{padded_length, row_weight, one_if, if_filled, name_weight, signature_weight};
ghost use Rattle.cil_layout.specs.Text.{literal_size, compressed_length, text_size};

use cil_layout::rows::{FIELD_RVA, MOST_WEIGHT, ROW_WEIGHT, Row};

/// A weight with some more, up to the first one that is too large.
pub fn heavier(weight: u32, more: usize) -> u32
    requires { weight ≤ MOST_WEIGHT + 1 }
    ensures { result ≡ min (weight + more) (MOST_WEIGHT + 1) }
{
    let room = MOST_WEIGHT + 1 - weight;
    if more < room as usize {
        weight + more as u32
    } else {
        MOST_WEIGHT + 1
    }
}

/// The same with bytes up to a multiple of 4.
fn heavier_padded(weight: u32, len: usize) -> u32
    requires { weight ≤ MOST_WEIGHT + 1 }
    ensures { result ≡ min (weight + padded_length len) (MOST_WEIGHT + 1) }
{
    let whole = heavier(weight, len / 4 * 4);
    if len.is_multiple_of(4) {
        whole
    } else {
        heavier(whole, 4)
    }
}

/// The same with a name.
pub fn heavier_name(weight: u32, name: &str) -> u32
    requires { weight ≤ MOST_WEIGHT + 1 }
    ensures { result ≡ min (weight + name_weight name.now) (MOST_WEIGHT + 1) }
{
    heavier(heavier(weight, name.len()), 1)
}

/// The same with a signature.
fn heavier_signature(weight: u32, signature: &[u8]) -> u32
    requires { weight ≤ MOST_WEIGHT + 1 }
    ensures { result ≡ min (weight + signature_weight signature.now) (MOST_WEIGHT + 1) }
{
    heavier(heavier(weight, signature.len()), 4)
}

/// The weight of a field's data, and of the row of FieldRVA that places it.
fn heavier_data(weight: u32, bytes: &[u8]) -> u32
    requires { weight ≤ MOST_WEIGHT + 1 }
    ensures { result ≡ min (weight + (ROW_WEIGHT * if_filled bytes.now + padded_length (length bytes.now))) (MOST_WEIGHT + 1) }
{
    match bytes {
        [] => weight,
        [_, ..] => heavier_padded(heavier(weight, ROW_WEIGHT as usize), bytes.len()),
    }
}

/// The same with a row, its names, signatures and bytes.
pub fn heavier_row(weight: u32, row: &Row) -> u32
    requires { weight ≤ MOST_WEIGHT + 1 }
    ensures { result ≡ min (weight + row_weight row.now) (MOST_WEIGHT + 1) }
{
    let bare = heavier(weight, ROW_WEIGHT as usize);
    match row {
        Row::TypeDef(t) => heavier_name(heavier_name(bare, t.namespace.as_str()), t.name.as_str()),
        Row::Field(f) => heavier_data(
            heavier_signature(heavier_name(bare, f.name.as_str()), f.signature.as_slice()),
            f.bytes.as_slice(),
        ),
        Row::MethodDef(m) => heavier_padded(
            heavier_signature(heavier_name(bare, m.name.as_str()), m.signature.as_slice()),
            m.body.as_slice().len(),
        ),
        Row::AssemblyRef(a) => heavier_name(bare, a.name.as_str()),
        Row::TypeRef(t) => heavier_name(heavier_name(bare, t.namespace.as_str()), t.name.as_str()),
        Row::MemberRef(m) => heavier_signature(
            heavier_name(bare, m.name.as_str()),
            m.signature.as_slice(),
        ),
        Row::TypeSpec(signature) => heavier_signature(bare, signature.as_slice()),
        Row::Locals(signature) => heavier_signature(bare, signature.as_slice()),
        Row::InterfaceImpl(_) => bare,
        Row::NestedClass(_) => bare,
        Row::ClassLayout(_) => bare,
        Row::Literal(units) => {
            let len = units.as_slice().len();
            heavier(heavier(heavier(weight, len), len), 5)
        }
    }
}

/// The bytes of a literal's entry.
pub fn text_len(units: usize) -> u32
    requires { 2 * units + 5 ≤ MOST_WEIGHT }
    ensures { result ≡ text_size units }
{
    let bytes = 2 * units as u32 + 1;
    if bytes < 128 {
        bytes + 1
    } else if bytes < 16_384 {
        bytes + 2
    } else {
        bytes + 4
    }
}

/// Counts a row in its table, and in FieldRVA the row of its data.
pub fn count_row(counts: &mut [u32], table: u8, data_rows: u32)
    requires tables { length counts.old ≡ 64 }
    requires room { (k : ℕ) → k < 64 → slice_index counts.old k + data_rows < 2 ^ 31 }
    ensures { (k : ℕ) → k < 64 → slice_index counts.new k ≡ slice_index counts.old k + (one_if (table == k) + (if k == FIELD_RVA then data_rows else 0)) }
{
    let rva = counts[FIELD_RVA as usize];
    counts[FIELD_RVA as usize] = rva + data_rows;
    if (table as usize) < counts.len() {
        counts[table as usize] += 1;
    }
}
