//! The base library as tables: every type, field, method and native, with the bodies in CIL.
#![tactic(auto)]

pub mod collections;
pub mod exceptions;
pub mod library;
pub mod numbers;
pub mod objects;
pub mod op;
pub mod parts;
pub mod shape;
pub mod strings;
