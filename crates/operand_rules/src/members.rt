//! Which fields and methods instructions take (ECMA-335 III.3.19, III.4.2, III.4.10, III.4.17, III.4.21).

ghost use Rattle.std.specs.Prelude.{◌≡◌, not};
ghost use Rattle.verify_ops.specs.Facts.{is_abstract, is_callable as may_be_called, is_instance_field as is_of_instance, is_static_field as is_of_class, is_data_field as has_data, is_new as makes_new, is_made as makes_objects};

use ecma_types::stack::PlaceType;
use file_tables::bytes::has_bit;
use place_types::types::is_reference;
use plain_types::elem::Elem;
use verify_ops::facts::{FieldOperand, MethodOperand};
use verify_ops::table::is_void;

/// The bit of a static field or method (II.23.1.5, II.23.1.10).
const STATIC: u32 = 4;
/// The bit of a literal (II.23.1.5).
const LITERAL: u32 = 6;
/// The bit of a field that has data in the file (II.23.1.5).
const HAS_DATA: u32 = 8;
/// The bit of an abstract method (II.23.1.10).
const ABSTRACT: u32 = 10;
/// The bit of an interface (II.23.1.15).
const INTERFACE: u32 = 5;
/// The bit of an abstract class (II.23.1.15).
const ABSTRACT_CLASS: u32 = 7;

/// Whether it is an instance field of a class.
pub fn is_instance_field(field: &FieldOperand) -> bool
    ensures { result ≡ is_of_instance field.now }
{
    !has_bit(u64::from(field.flags), STATIC) && is_reference(&field.class)
}

/// Whether it is a static field that is neither a literal nor a data field.
pub fn is_static_field(field: &FieldOperand) -> bool
    ensures { result ≡ is_of_class field.now }
{
    let flags = u64::from(field.flags);
    has_bit(flags, STATIC) && !has_bit(flags, HAS_DATA) && !has_bit(flags, LITERAL)
}

/// Whether it is a static field with data in the file.
pub fn is_data_field(field: &FieldOperand) -> bool
    ensures { result ≡ has_data field.now }
{
    let flags = u64::from(field.flags);
    has_bit(flags, STATIC) && has_bit(flags, HAS_DATA)
}

/// Whether `callvirt` takes the method.
pub fn is_callable(method: &MethodOperand<'_>) -> bool
    ensures { result ≡ may_be_called method.now }
{
    !has_bit(u64::from(method.flags), STATIC) && method.this && is_reference(&method.class)
}

/// Whether objects are made of the class.
fn is_made(class: &PlaceType, flags: u32) -> bool
    ensures { result ≡ makes_objects class.now flags }
{
    let flags = u64::from(flags);
    let is_one = class.ranks == 0 && class.elem != Elem::String && is_reference(class);
    is_one && !has_bit(flags, ABSTRACT_CLASS) && !has_bit(flags, INTERFACE)
}

/// Whether `newobj` takes the method: a constructor with a body, which gives nothing back, of a class of which objects are made.
pub fn is_new(method: &MethodOperand<'_>) -> bool
    ensures { result ≡ makes_new method.now }
{
    let is_constructor = method.constructor && method.this;
    let gives_nothing = is_void(&method.returns) && !has_bit(u64::from(method.flags), ABSTRACT);
    is_constructor && is_made(&method.class, method.class_flags) && gives_nothing
}

/// Whether a method has a body.
pub fn has_body(method: &MethodOperand<'_>) -> bool
    ensures { result ≡ not (is_abstract method.now) }
{
    !has_bit(u64::from(method.flags), ABSTRACT)
}
