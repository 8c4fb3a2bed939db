//! Files by name.

use plain_types::list::{Items, Text};

/// A file: its name, and its bytes.
#[derive(Debug, Drop)]
pub struct NamedFile {
    pub name: Text,
    pub bytes: Items<u8>,
}
