//! The commands of requests, the statuses of replies, and the kinds of ends that a run has.

/// Begins a session; the reply tells the flash's shape.
pub const OPEN: u32 = 1;

/// Reads some bytes of the flash.
pub const READ: u32 = 2;

/// Programs some bytes of the flash.
pub const PROGRAM: u32 = 3;

/// Erases a sector of the flash.
pub const ERASE: u32 = 4;

/// Boots and runs what the flash holds; the reply tells how that ended.
pub const RUN: u32 = 5;

/// Reads some bytes of the result text.
pub const FETCH: u32 = 6;

/// Ends a session.
pub const CLOSE: u32 = 7;

/// Asks which set the flash holds and in which bank, and which markers stand.
pub const BANKS: u32 = 8;

/// Asks for the board's epoch, over datagrams. Its number is 0, and the reply's number is 0.
pub const HELLO: u32 = 9;

/// Boots what the flash holds and gets its run ready, as [`RUN`] does, but no instruction is done.
pub const START: u32 = 16;

/// Tells the place at which a started run is to stop, or that it isn't to stop.
pub const BREAK: u32 = 17;

/// Lets a started run go on to its next stop or its end.
pub const CONTINUE: u32 = 18;

/// Asks for a frame of a started run.
pub const FRAME: u32 = 19;

/// Asks for a value of a frame of a started run.
pub const VALUE: u32 = 20;

/// The request was done.
pub const DONE: u8 = 0;

/// It is no request of a known command and payload; nothing changed.
pub const NO_REQUEST: u8 = 1;

/// The flash failed.
pub const FLASH_FAILED: u8 = 2;

/// The board has no memory left for it.
pub const NO_MEMORY: u8 = 3;

/// The run ended by itself, or its memory or steps were spent. All three numbers of the reply are 0.
pub const ENDED: u8 = 0;

/// The flash holds no set. All three numbers are 0.
pub const NO_SET: u8 = 9;

/// What the flash holds is no good set. The first number is the place, and the others are 0.
pub const BAD_SET: u8 = 10;

/// A reference of the set has no definition. The numbers are its assembly, table and row.
pub const UNRESOLVED: u8 = 11;

/// The run met code that can't be done. The first number is the place, and the others are 0.
pub const BAD_CODE: u8 = 12;
