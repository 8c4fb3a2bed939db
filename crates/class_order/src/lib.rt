//! The order of a table's classes: which is the other one, stands below it or implements it, which is the nearest above two, and what
//! types without arrays fit where others are wanted.
#![tactic(auto)]

mod basic;
mod chains;
pub mod law;
mod order;
mod types;

pub use basic::{BasicClasses, find_basic};
pub use chains::common_superclass;
pub use order::{Order, is_or_implements, order_of};
pub use types::{BaseType, array_fits, class_of, fits, is_same, type_of_class};
