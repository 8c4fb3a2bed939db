//! The types that tokens of code name.

ghost use Rattle.std.specs.Prelude.{◌≡◌, ℕ, ◌<◌, Some, slice_get};
ghost use Rattle.std.specs.Option.{option_copied, option_map};
ghost use Rattle.machine.specs.Throw.{on_some};
ghost use Rattle.classes.specs.Classes.{ClassToken};
ghost use Rattle.assemblies.specs.Rows.{TypeSpec};
ghost use Rattle.assemblies.specs.Binding.{operand_type};
ghost use Rattle.world_rows.specs.World.{size_of};
ghost use Rattle.image_bytes.specs.Layout.{rows_of};
ghost use Rattle.image_form.specs.Signatures.{type_token};
ghost use Rattle.member_keys.specs.Seen.{class_seen, type_seen};
ghost use Rattle.scope_walk.specs.Walk.{value_at};
ghost use Rattle.tiny_rows.specs.Rows.{rows_seen};
ghost use Rattle.tiny_members.specs.Rows.{field_type_in};
ghost use Rattle.set_names.specs.Names.{seen_all};
ghost use Rattle.set_binding.specs.Columns.{named_by};

use bound_answers::{BoundSet, named};
use member_keys::{ClassId, ElementKey, TypeKey};
use msspot_read::Image;
use set_binding::Bindings;
use set_signatures::{Tokens, field_type};
use tiny_members::TypeToken;
use tiny_rows::type_count;

/// From this number on a token is a row of the type specifications.
const SPECIFICATION: u16 = 0x8000;

/// The table of type specifications.
const TYPE_SPEC: u8 = 9;

/// A class as a type.
fn class_key(class: Option<ClassId>) -> Option<TypeKey>
    ensures { option_map type_seen result ≡ option_map ClassToken (option_map class_seen class) }
{
    match class {
        Some(class) => Some(TypeKey {
            ranks: 0,
            element: ElementKey::Class(class),
        }),
        None => None,
    }
}

/// The signature of a row of an image's type specifications.
fn read_spec<'a>(image: &Image<'a>, row: u16) -> &'a [u8]
    requires { row < rows_of image.now 9 }
    ensures { field_type_in image.now result.now ≡ slice_get (rows_seen image.now).specs row }
{
    image.has_rows();
    let columns = image.row(TYPE_SPEC, row);
    image.sig(columns.columns[0])
}

/// The same; `None` where there is no such row.
#[tactic(auto, using(crate::proofs::SpecLaws::spec_past))]
fn spec<'a>(image: &Image<'a>, row: u16) -> Option<&'a [u8]>
    ensures { on_some (option_copied result) (field_type_in image.now) ≡ slice_get (rows_seen image.now).specs row }
{
    image.has_rows();
    if row >= image.rows(TYPE_SPEC) {
        return None;
    }
    Some(read_spec(image, row))
}

/// What an image's references to types name.
fn references(bindings: &Bindings, file: u16) -> &[Option<ClassId>]
    ensures { (n : ℕ) → value_at result.now n ≡ named_by bindings.now.files.items file 1 n }
{
    match bindings.files.get(usize::from(file)) {
        Some(bound) => &bound.types,
        None => &[],
    }
}

/// The type of a row of an image's type specifications (ECMA-335 II.22.39); `None` where there is no such row, or a token of its
/// signature names nothing.
fn specified(set: &BoundSet<'_, '_, '_, '_>, file: u16, row: u16) -> Option<TypeKey>
    ensures { option_map type_seen result ≡ operand_type (size_of (seen_all set.now)) (seen_all set.now) file (TypeSpec row) }
{
    let at = u32::from(file);
    let image = set.names().image(at)?;
    image.has_rows();
    let signature = spec(image, row)?;
    let tokens = Tokens {
        file: at,
        types: u32::from(type_count(image)),
        references: references(set.bindings(), file),
    };
    field_type(&tokens, signature)
}

/// The type that a token of an image's code names.
pub fn type_named(set: &BoundSet<'_, '_, '_, '_>, file: u16, word: u16) -> Option<TypeKey>
    ensures { option_map type_seen result ≡ operand_type (size_of (seen_all set.now)) (seen_all set.now) file (type_token word) }
{
    if word < SPECIFICATION {
        class_key(named(set, file, TypeToken(word)))
    } else {
        specified(set, file, word - SPECIFICATION)
    }
}
