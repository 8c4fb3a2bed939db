//! The heaps, and the bodies and data.

ghost use Rattle.std.specs.Prelude.{◌≡◌, ◌++◌, ◌<◌, ◌≤◌, ◌+◌, ◌*◌, ◌^◌, IfOk, OnOk, length, [], ◌∷◌, sum_by, if◌then◌else◌};
ghost use Rattle.cil_layout.specs.Asked.{row_weight};
ghost use Rattle.cil_layout.specs.Heaps.{padded, name_entry, strings_of, blobs_of, texts_of, content_of};
ghost use Rattle.cil_layout.specs.Text.{compressed, text_bytes, unit_bytes, is_special};
ghost use Rattle.std.specs.List.{flat_map, list_any};

use crate::write::{pad, push_blob, push_bytes, push_compressed, push_name, push_padded};
use cil_layout::fixed::MODULE_TYPE;
use cil_layout::rows::Row;
use plain_types::fault::NoMemory;
use std::alloc::Global;

/// The heaps as they grow, and the bodies and data.
#[derive(Drop)]
pub struct Heaps {
    pub strings: Vec<u8>,
    pub blobs: Vec<u8>,
    pub texts: Vec<u8>,
    pub content: Vec<u8>,
}

/// Whether a unit is more than a plain character (ECMA-335 II.24.2.4).
fn is_special_unit(unit: u16) -> bool
    ensures { result ≡ is_special unit }
{
    unit >= 256
        || (1..=8).contains(&unit)
        || (0x0E..=0x1F).contains(&unit)
        || unit == 0x27
        || unit == 0x2D
        || unit == 0x7F
}

/// The units of a literal.
fn push_units(out: &mut Vec<u8>, units: &[u16]) -> Result<(), NoMemory>
    ensures { OnOk result (out.new.items ≡ out.old.items ++ flat_map unit_bytes units.now) }
{
    for unit in units {
        push_bytes(out, &[(*unit % 256) as u8, (*unit / 256) as u8])?;
    }
    Ok(())
}

/// Whether one of the units is special.
fn has_special(units: &[u16]) -> bool
    ensures { result ≡ list_any is_special units.now }
{
    units.iter().any(|unit| is_special_unit(*unit))
}

/// The last byte of a literal's entry.
fn special_byte(units: &[u16]) -> u8
    ensures { result ≡ (if list_any is_special units.now then 1 else 0) }
{
    if has_special(units) { 1 } else { 0 }
}

/// The entry of a literal.
fn push_text(out: &mut Vec<u8>, units: &[u16]) -> Result<(), NoMemory>
    requires { length units.now < 2 ^ 28 }
    ensures { OnOk result (out.new.items ≡ out.old.items ++ (compressed (2 * length units.now + 1) ++ text_bytes units.now)) }
{
    push_compressed(out, 2 * units.len() as u32 + 1)?;
    push_units(out, units)?;
    out.push(special_byte(units))?;
    Ok(())
}

impl Heaps {
    /// Adds the entries, the body and the data of a row.
    fn push_row(&mut self, row: &Row) -> Result<(), NoMemory>
        requires { row_weight row.now ≤ 4194304 }
        ensures strings { OnOk result (self.new.strings.items ≡ self.old.strings.items ++ strings_of row.now) }
        ensures blobs { OnOk result (self.new.blobs.items ≡ self.old.blobs.items ++ blobs_of row.now) }
        ensures texts { OnOk result (self.new.texts.items ≡ self.old.texts.items ++ texts_of row.now) }
        ensures content { OnOk result (self.new.content.items ≡ self.old.content.items ++ content_of row.now) }
    {
        match row {
            Row::TypeDef(t) => {
                push_name(&mut self.strings, t.namespace.as_str())?;
                push_name(&mut self.strings, t.name.as_str())
            }
            Row::Field(f) => {
                push_name(&mut self.strings, f.name.as_str())?;
                push_blob(&mut self.blobs, f.signature.as_slice())?;
                push_padded(&mut self.content, f.bytes.as_slice())
            }
            Row::MethodDef(m) => {
                push_name(&mut self.strings, m.name.as_str())?;
                push_blob(&mut self.blobs, m.signature.as_slice())?;
                push_padded(&mut self.content, m.body.as_slice())
            }
            Row::AssemblyRef(a) => push_name(&mut self.strings, a.name.as_str()),
            Row::TypeRef(t) => {
                push_name(&mut self.strings, t.namespace.as_str())?;
                push_name(&mut self.strings, t.name.as_str())
            }
            Row::MemberRef(m) => {
                push_name(&mut self.strings, m.name.as_str())?;
                push_blob(&mut self.blobs, m.signature.as_slice())
            }
            Row::TypeSpec(signature) => push_blob(&mut self.blobs, signature.as_slice()),
            Row::Locals(signature) => push_blob(&mut self.blobs, signature.as_slice()),
            Row::InterfaceImpl(_) => Ok(()),
            Row::NestedClass(_) => Ok(()),
            Row::ClassLayout(_) => Ok(()),
            Row::Literal(units) => push_text(&mut self.texts, units.as_slice()),
        }
    }
}

/// The heaps of an assembly with this name and these rows, and its bodies and data.
#[tactic(auto, using(crate::proofs::Pieces::grown, crate::proofs::Pieces::weighs))]
pub fn heaps_of(alloc: Global, name: &str, rows: &[Row]) -> Result<Heaps, NoMemory>
    requires { sum_by row_weight rows.now ≤ 4194304 }
    ensures strings { IfOk result (λ h. h.strings.items ≡ padded (0 ∷ MODULE_TYPE ++ name_entry name.now ++ flat_map strings_of rows.now)) }
    ensures blobs { IfOk result (λ h. h.blobs.items ≡ padded (0 ∷ flat_map blobs_of rows.now)) }
    ensures texts { IfOk result (λ h. h.texts.items ≡ padded (0 ∷ flat_map texts_of rows.now)) }
    ensures content { IfOk result (λ h. h.content.items ≡ flat_map content_of rows.now) }
{
    let mut heaps = Heaps {
        strings: Vec::from_slice(alloc, &[0])?,
        blobs: Vec::from_slice(alloc, &[0])?,
        texts: Vec::from_slice(alloc, &[0])?,
        content: Vec::new(alloc),
    };
    push_bytes(&mut heaps.strings, &MODULE_TYPE)?;
    push_name(&mut heaps.strings, name)?;
    for row in rows {
        heaps.push_row(row)?;
    }
    pad(&mut heaps.strings)?;
    pad(&mut heaps.blobs)?;
    pad(&mut heaps.texts)?;
    Ok(heaps)
}
