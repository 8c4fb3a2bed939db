//! The methods of an image (ECMA-335 II.22.26).

ghost use Rattle.std.specs.Prelude.{◌≡◌, ℕ, ◌<◌, ◌^◌, IfOk, Some, length, map, slice_get};
ghost use Rattle.std.specs.Option.{option_map};
ghost use Rattle.machine.specs.Throw.{on_some};
ghost use Rattle.assemblies.specs.Binding.{id_at, numbered, method_owner};
ghost use Rattle.class_table.specs.Outlines.{outline_seen};
ghost use Rattle.class_table.specs.Seen.{method_seen};
ghost use Rattle.tiny_rows.specs.Rows.{rows_seen};
ghost use Rattle.set_names.specs.Names.{seen_all};
ghost use Rattle.set_table.specs.Subject.{IsSubject, outline_in, method_in};

use crate::owners::method_spans;
use crate::subject::Subject;
use class_table::{ClassRow, MethodRow};
use plain_types::fault::NoMemory;
use row_owners::find_owners;
use set_signatures::method_signature;
use std::alloc::Global;
use tiny_members::{method, method_count};

/// The method of a row.
fn read_method<'a>(
    alloc: Global,
    subject: &Subject<'_, '_, 'a>,
    n: u32,
    owner: Option<u32>,
) -> Result<MethodRow<'a>, NoMemory>
    requires subject { IsSubject subject.now }
    requires row { n < length (rows_seen subject.now.image.now).methods }
    ensures row { IfOk result (λ row. Some (method_seen subject.now.tokens.file n row) ≡ option_map (method_in subject.now n) (slice_get (rows_seen subject.now.image.now).methods n)) }
    ensures owner { IfOk result (λ row. row.owner ≡ owner) }
{
    let Some(of) = method(subject.image, n) else {
        unreachable!();
    };
    let signature = method_signature(alloc, &subject.tokens, of.signature)?;
    Ok(MethodRow {
        name: of.name,
        signature,
        is_static: of.is_static,
        is_virtual: of.is_virtual,
        is_newslot: of.is_newslot,
        is_abstract: of.is_abstract,
        body: of.body,
        owner,
    })
}

/// The type that has each method.
fn method_owners(
    alloc: Global,
    subject: &Subject<'_, '_, '_>,
    classes: &[ClassRow<'_>],
) -> Result<Vec<Option<u32>>, NoMemory>
    requires subject { IsSubject subject.now }
    requires classes { map outline_seen classes.now ≡ map (outline_in subject.now) (rows_seen subject.now.image.now).types }
    requires few { length classes.now < 2 ^ 32 }
    ensures size { IfOk result (λ owners. length owners.items ≡ length (rows_seen subject.now.image.now).methods) }
    ensures each { IfOk result (λ owners. (n : ℕ) → on_some (slice_get owners.items n) (option_map (id_at subject.now.tokens.file)) ≡ method_owner (seen_all subject.now.names.now) (id_at subject.now.tokens.file n)) }
{
    let spans = method_spans(alloc, classes)?;
    let owners = find_owners(alloc, &spans, u32::from(method_count(subject.image)))?;
    Ok(owners)
}

/// The methods of the image in the order of their rows, each token replaced by what it names, and the first type in whose
/// range each lies.
pub fn read_methods<'a>(
    alloc: Global,
    subject: &Subject<'_, '_, 'a>,
    classes: &[ClassRow<'a>],
) -> Result<Vec<MethodRow<'a>>, NoMemory>
    requires subject { IsSubject subject.now }
    requires classes { map outline_seen classes.now ≡ map (outline_in subject.now) (rows_seen subject.now.image.now).types }
    requires few { length classes.now < 2 ^ 32 }
    ensures rows { IfOk result (λ rows. numbered (method_seen subject.now.tokens.file) 0 rows.items ≡ numbered (method_in subject.now) 0 (rows_seen subject.now.image.now).methods) }
    ensures owners { IfOk result (λ rows. (n : ℕ) → on_some (slice_get rows.items n) (λ row. option_map (id_at subject.now.tokens.file) row.owner) ≡ method_owner (seen_all subject.now.names.now) (id_at subject.now.tokens.file n)) }
{
    let owners = method_owners(alloc, subject, classes)?;
    let mut rows = Vec::new(alloc);
    for n in 0..method_count(subject.image) {
        let owner = owners[n as usize];
        rows.push(read_method(alloc, subject, u32::from(n), owner)?)?;
    }
    Ok(rows)
}
