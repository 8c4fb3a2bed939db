//! The rules of classes as tests of a table's rows.
#![tactic(auto)]

mod entry;
mod library;
mod members;
mod places;
mod setting;
mod signatures;
mod supers;
mod values;

pub use entry::{entry_well, is_main};
pub use library::{Library, find_library, library_class};
pub use members::{field_stands_well, method_stands_well};
pub use places::{is_number_class, is_reference_class, is_user};
pub use setting::Setting;
pub use signatures::{
    data_sig_fits, field_signature_fits, is_data_type, is_handle, method_signature_fits, sig_fits,
    signature_fits,
};
pub use supers::{
    extends_well, find_under, is_class, is_enclosed_well, may_be_extended, may_be_implemented,
    under_object,
};
pub use values::{has_no_field, has_no_instance_field, value_well};
