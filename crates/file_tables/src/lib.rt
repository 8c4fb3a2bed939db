//! What the bytes of a file are as parts of a PE file and tables of metadata (ECMA-335 II.22 to II.25): the schema of
//! the tables, which code and definitions read alike, and in `specs/` the parts and the first broken rule.
#![tactic(auto)]

pub mod bytes;
pub mod compressed;
pub mod numbers;
pub mod schema;

/// The most bytes of a file: 4 MiB.
pub const MOST_FILE_BYTES: usize = 4_194_304;
