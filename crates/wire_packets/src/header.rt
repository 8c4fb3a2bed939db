//! What stands where in a packet's header, by the offset of its first byte. The signature is at 0, and the payload
//! behind the header. All numbers are little-endian.

/// The sum of the header's other bytes, of four bytes.
pub const HEADER_CHECK: usize = 8;

/// The sum of the payload's bytes, of four bytes.
pub const DATA_CHECK: usize = 12;

/// The command, of four bytes.
pub const COMMAND: usize = 16;

/// The packet's own number, of two bytes.
pub const SEQ: usize = 20;

/// The number of the request that a reply answers, of two bytes.
pub const REPLY_SEQ: usize = 22;

/// The flags, of four bytes.
pub const FLAGS: usize = 24;

/// How many bytes the payload has, of four bytes.
pub const PAYLOAD_SIZE: usize = 28;

/// How many bytes a header has.
pub const HEADER: usize = 32;

/// How many bytes of a header stand behind its check.
pub const FIELDS_SIZE: usize = HEADER - DATA_CHECK;
