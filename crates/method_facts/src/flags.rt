//! Flags of rows as the table tells them (ECMA-335 II.23.1.5, II.23.1.10, II.23.1.15).

ghost use Rattle.std.specs.Prelude.{◌≡◌, Bool};
ghost use Rattle.file_tables.specs.Bytes.{has_bit};
ghost use Rattle.class_table.specs.Seen.{field_kind_seen};
ghost use Rattle.ecma_effects.specs.Known.{without_bytes};
ghost use Rattle.ecma_types.specs.declared.stack.PlaceType.{PlaceType};
ghost use Rattle.verify_ops.specs.Facts.{kind_of};

use class_table::FieldKind;

const STATIC: u16 = 0x10;

const LITERAL: u16 = 0x40;

const HAS_DATA: u16 = 0x100;

const ABSTRACT: u16 = 0x400;

const INTERFACE: u32 = 0x20;

/// The flag of abstract types, which is told here of all of which `newobj` makes no object.
const UNMADE: u32 = 0x80;

/// The flags that tell where a field is kept.
pub fn field_flags(kind: FieldKind<'_>) -> u16
    ensures { (class of : PlaceType) → kind_of (record { class = class; of = of; flags = result }) ≡ without_bytes (field_kind_seen kind.entry) }
{
    match kind {
        FieldKind::Instance => 0,
        FieldKind::Static => STATIC,
        FieldKind::Literal => STATIC + LITERAL,
        FieldKind::Data(_) => STATIC + HAS_DATA,
    }
}

/// The flags that tell whether a method is static and abstract.
pub fn method_flags(is_static: bool, is_abstract: bool) -> u16
    ensures is_static { has_bit result 4 ≡ is_static }
    ensures is_abstract { has_bit result 10 ≡ is_abstract }
{
    match (is_static, is_abstract) {
        (false, false) => 0,
        (true, false) => STATIC,
        (false, true) => ABSTRACT,
        (true, true) => STATIC + ABSTRACT,
    }
}

/// The flags that tell whether `newobj` makes no object of a type, and whether it is an interface.
pub fn class_flags(is_unmade: bool, is_interface: bool) -> u32
    ensures is_unmade { has_bit result 7 ≡ is_unmade }
    ensures is_interface { has_bit result 5 ≡ is_interface }
{
    match (is_unmade, is_interface) {
        (false, false) => 0,
        (true, false) => UNMADE,
        (false, true) => INTERFACE,
        (true, true) => UNMADE + INTERFACE,
    }
}
