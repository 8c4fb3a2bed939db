//! The traits of the outside: store, sink, link and hub. The plain types, the types of the board and of assemblies, numbers in words and the flash stand in crates of their own, and are handed on here.
#![tactic(auto)]

pub mod files;
pub mod hub;
pub mod link;
pub mod sink;
pub mod store;

pub use board_types::board::{BoardType, ClauseAt, Known, TypeAt};
pub use board_types::subclass::Subclass;
pub use board_types::{board, subclass};
pub use ecma_types::id::{FieldId, MethodId, TypeId};
pub use ecma_types::lattice::Lattice;
pub use ecma_types::stack::{PlaceType, StackType};
pub use ecma_types::{id, lattice, stack};
pub use files::NamedFile;
pub use flash_trait::flash::{FLASH_SIZE, Flash, FlashErr, SECTOR_SIZE, SECTORS, Stop};
pub use flash_trait::{flash, flash_law};
pub use hub::Hub;
pub use link::{Coming, Got, Link, RECEIVE_SIZE};
pub use numerals::numeral;
pub use numerals::numeral::number;
pub use plain_types::elem::Elem;
pub use plain_types::fault::{Failed, Fault, Limit, NoMemory, Place, WHOLE_FILE};
pub use plain_types::list::{Items, Text};
pub use plain_types::{elem, fault, list};
pub use sink::Sink;
pub use store::{FailedCall, Store, StoreErr};
