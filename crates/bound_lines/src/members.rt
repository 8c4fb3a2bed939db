//! The fields and methods that tokens of code name.

ghost use Rattle.std.specs.Prelude.{◌≡◌};
ghost use Rattle.std.specs.Option.{option_map};
ghost use Rattle.assemblies.specs.Binding.{id_at, resolve_field, resolve_method};
ghost use Rattle.world_rows.specs.World.{size_of};
ghost use Rattle.image_form.specs.Signatures.{member_token};
ghost use Rattle.member_keys.specs.Seen.{class_seen};
ghost use Rattle.class_table.specs.Seen.{field_owner, method_owner};
ghost use Rattle.set_names.specs.Names.{seen_all};

use bound_answers::BoundSet;
use class_table::ClassTable;
use member_keys::ClassId;
use set_binding::ReferenceTable;

/// From this number on a token is a row of the references.
const REFERENCE: u16 = 0x4000;

/// A field of an image, where a type has it.
fn own_field(table: &ClassTable<'_>, file: u16, row: u16) -> Option<ClassId>
    ensures { option_map class_seen result ≡ option_map (λ owner. id_at file row) (field_owner table.now (id_at file row)) }
{
    let rows = table.files.get(usize::from(file))?;
    let _owner = rows.fields.get(usize::from(row))?.owner?;
    Some(ClassId {
        file: u32::from(file),
        row: u32::from(row),
    })
}

/// A method of an image, where a type has it.
fn own_method(table: &ClassTable<'_>, file: u16, row: u16) -> Option<ClassId>
    ensures { option_map class_seen result ≡ option_map (λ owner. id_at file row) (method_owner table.now (id_at file row)) }
{
    let rows = table.files.get(usize::from(file))?;
    let _owner = rows.methods.get(usize::from(row))?.owner?;
    Some(ClassId {
        file: u32::from(file),
        row: u32::from(row),
    })
}

/// The field that a token of an image's code names.
pub fn field_named(set: &BoundSet<'_, '_, '_, '_>, file: u16, word: u16) -> Option<ClassId>
    ensures { option_map class_seen result ≡ resolve_field (size_of (seen_all set.now)) (seen_all set.now) file (member_token word) }
{
    if word < REFERENCE {
        own_field(set.types().table(), file, word)
    } else {
        let row = u32::from(word - REFERENCE);
        set.bindings()
            .resolved(u32::from(file), ReferenceTable::Fields, row)
    }
}

/// The method that a token of an image's code names.
pub fn method_named(set: &BoundSet<'_, '_, '_, '_>, file: u16, word: u16) -> Option<ClassId>
    ensures { option_map class_seen result ≡ resolve_method (size_of (seen_all set.now)) (seen_all set.now) file (member_token word) }
{
    if word < REFERENCE {
        own_method(set.types().table(), file, word)
    } else {
        let row = u32::from(word - REFERENCE);
        set.bindings()
            .resolved(u32::from(file), ReferenceTable::Methods, row)
    }
}
