//! The fields of an image (ECMA-335 II.22.15).

ghost use Rattle.std.specs.Prelude.{◌≡◌, ℕ, ◌<◌, ◌^◌, IfOk, Some, length, map, slice_get};
ghost use Rattle.std.specs.Option.{option_map};
ghost use Rattle.machine.specs.Throw.{on_some};
ghost use Rattle.assemblies.specs.Binding.{id_at, numbered, field_owner};
ghost use Rattle.class_table.specs.Outlines.{outline_seen};
ghost use Rattle.class_table.specs.Seen.{field_seen};
ghost use Rattle.tiny_rows.specs.Rows.{rows_seen};
ghost use Rattle.set_names.specs.Names.{seen_all};
ghost use Rattle.set_table.specs.Subject.{IsSubject, outline_in, field_in};

use crate::owners::field_spans;
use crate::subject::Subject;
use class_table::{ClassRow, FieldRow};
use plain_types::fault::NoMemory;
use row_owners::find_owners;
use set_signatures::field_type;
use std::alloc::Global;
use tiny_members::{field, field_count};

/// The field of a row.
fn read_field<'a>(subject: &Subject<'_, '_, 'a>, n: u32, owner: Option<u32>) -> FieldRow<'a>
    requires subject { IsSubject subject.now }
    requires row { n < length (rows_seen subject.now.image.now).fields }
    ensures row { Some (field_seen subject.now.tokens.file n result) ≡ option_map (field_in subject.now n) (slice_get (rows_seen subject.now.image.now).fields n) }
    ensures owner { result.owner ≡ owner }
{
    let Some(of) = field(subject.image, n) else {
        unreachable!();
    };
    FieldRow {
        name: of.name,
        signature: field_type(&subject.tokens, of.signature),
        kind: of.kind,
        owner,
    }
}

/// The type that has each field.
fn field_owners(
    alloc: Global,
    subject: &Subject<'_, '_, '_>,
    classes: &[ClassRow<'_>],
) -> Result<Vec<Option<u32>>, NoMemory>
    requires subject { IsSubject subject.now }
    requires classes { map outline_seen classes.now ≡ map (outline_in subject.now) (rows_seen subject.now.image.now).types }
    requires few { length classes.now < 2 ^ 32 }
    ensures size { IfOk result (λ owners. length owners.items ≡ length (rows_seen subject.now.image.now).fields) }
    ensures each { IfOk result (λ owners. (n : ℕ) → on_some (slice_get owners.items n) (option_map (id_at subject.now.tokens.file)) ≡ field_owner (seen_all subject.now.names.now) (id_at subject.now.tokens.file n)) }
{
    let spans = field_spans(alloc, classes)?;
    let owners = find_owners(alloc, &spans, u32::from(field_count(subject.image)))?;
    Ok(owners)
}

/// The fields of the image in the order of their rows, each token replaced by what it names, and the first type in whose
/// range each lies.
pub fn read_fields<'a>(
    alloc: Global,
    subject: &Subject<'_, '_, 'a>,
    classes: &[ClassRow<'a>],
) -> Result<Vec<FieldRow<'a>>, NoMemory>
    requires subject { IsSubject subject.now }
    requires classes { map outline_seen classes.now ≡ map (outline_in subject.now) (rows_seen subject.now.image.now).types }
    requires few { length classes.now < 2 ^ 32 }
    ensures rows { IfOk result (λ rows. numbered (field_seen subject.now.tokens.file) 0 rows.items ≡ numbered (field_in subject.now) 0 (rows_seen subject.now.image.now).fields) }
    ensures owners { IfOk result (λ rows. (n : ℕ) → on_some (slice_get rows.items n) (λ row. option_map (id_at subject.now.tokens.file) row.owner) ≡ field_owner (seen_all subject.now.names.now) (id_at subject.now.tokens.file n)) }
{
    let owners = field_owners(alloc, subject, classes)?;
    let mut rows = Vec::new(alloc);
    for n in 0..field_count(subject.image) {
        let owner = owners[n as usize];
        rows.push(read_field(subject, u32::from(n), owner))?;
    }
    Ok(rows)
}
