//! The virtual method of a name and a signature that a class itself has.

ghost use Rattle.std.specs.Prelude.{◌≡◌, ℕ, ◌<◌, ◌≤◌, length, slice_get};
ghost use Rattle.std.specs.List.{find};
ghost use Rattle.std.specs.Option.{option_copied, option_map};
ghost use Rattle.assemblies.specs.Binding.{numbered, range};
ghost use Rattle.classes.specs.Classes.{OwnMethod};
ghost use Rattle.classes.specs.Queries.{is_virtual_named, method_signature_eq, own_virtual};
ghost use Rattle.machine.specs.Texts.{same_text};
ghost use Rattle.member_keys.specs.Seen.{class_seen, signature_seen};
ghost use Rattle.class_table.specs.Seen.{classes_seen, method_seen};
ghost use Rattle.class_targets.specs.Virtual.{slot_of};
ghost use Rattle.tiny_types.specs.Named.{IsRowOf, slot_seen};
ghost use Rattle.tiny_types.specs.Small.{IsSmall};

use board_types::board::TypeAt;
use class_queries::find_class;
use class_table::{ClassTable, FileRows, MethodRow};
use member_keys::ClassId;

/// A virtual method, and whether it begins a slot of its own (ECMA-335 II.10.3.1).
#[derive(Clone, Copy, Debug)]
pub struct Virtual {
    pub method: TypeAt,
    pub is_newslot: bool,
}

/// Whether both methods have signatures with a form, and these are equal.
#[tactic(auto, using(member_keys::proofs::KeyLaws::same_signature))]
fn is_same_signature(a: &MethodRow<'_>, b: &MethodRow<'_>) -> bool
    ensures { result ≡ method_signature_eq (option_map signature_seen a.now.signature) (option_map signature_seen b.now.signature) }
{
    match (&a.signature, &b.signature) {
        (Some(a), Some(b)) => a == b,
        _ => false,
    }
}

/// Whether both texts are equal.
#[tactic(auto, using(member_keys::proofs::KeyLaws::same_bytes))]
fn is_same_text(a: &str, b: &str) -> bool
    ensures { result ≡ same_text a.now b.now }
{
    a == b
}

/// Whether a row is that of a virtual method of the other row's name and signature.
#[tactic(auto, using(crate::proofs::OwnLaws::named_is))]
fn is_wanted(row: &MethodRow<'_>, wanted: &MethodRow<'_>) -> bool
    ensures { (m : OwnMethod) → IsRowOf wanted.now m → (file n : ℕ) → result ≡ is_virtual_named m (method_seen file n row.now) }
{
    row.is_virtual && is_same_text(row.name, wanted.name) && is_same_signature(row, wanted)
}

/// The first virtual method of the name and signature among so many rows from the first on, as far as they are there.
fn first_wanted(
    rows: &[MethodRow<'_>],
    file: u32,
    first: u32,
    count: u32,
    wanted: &MethodRow<'_>,
) -> Option<Virtual>
    requires file { file < 65535 }
    requires rows { length rows.now ≤ 65535 }
    ensures { (m : OwnMethod) → IsRowOf wanted.now m → option_map slot_seen result ≡ option_map slot_of (find (is_virtual_named m) (numbered (method_seen file) first (range first count rows.now))) }
{
    let start = first as usize;
    let end = rows.len().min(start + count as usize);
    for place in start..end {
        let row = &rows[place];
        if is_wanted(row, wanted) {
            return Some(Virtual {
                method: TypeAt {
                    assembly: file as u16,
                    row: place as u16,
                },
                is_newslot: row.is_newslot,
            });
        }
    }
    None
}

/// What a file says.
fn find_file<'t, 'a>(table: &'t ClassTable<'a>, file: u32) -> Option<&'t FileRows<'a>>
    ensures { option_copied result ≡ slice_get table.now.files.items file }
{
    table.files.get(file as usize)
}

/// The virtual method of a name and signature that a class has. In the time of the number of its methods.
pub fn own_virtual(
    table: &ClassTable<'_>,
    class: ClassId,
    wanted: &MethodRow<'_>,
) -> Option<Virtual>
    requires { IsSmall table.now }
    ensures { (m : OwnMethod) → IsRowOf wanted.now m → option_map slot_seen result ≡ option_map slot_of (own_virtual (classes_seen table.now) m (class_seen class)) }
{
    let row = find_class(table, class)?;
    let file = find_file(table, class.file)?;
    first_wanted(
        &file.methods,
        class.file,
        row.first_method,
        row.method_count,
        wanted,
    )
}
