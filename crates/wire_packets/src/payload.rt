//! What stands where in the payloads of requests and of replies, and the kinds that they tell.
//!
//! All numbers are little-endian. A request's payload is counted from its first byte. A reply's is counted from the
//! byte behind its status, which is [`DONE`](crate::command::DONE); a reply of another status has the status alone.
//! Open, Banks, Continue, Hello and Close ask by their command alone. The replies to Program, Erase, Break, Hello and
//! Close have nothing behind the status; those to Read and Fetch have the bytes that were asked for.

// ---- requests

/// Read and Fetch: the place of the first byte, of four bytes.
pub const RANGE_AT: usize = 0;

/// Read and Fetch: how many bytes are asked for, of four bytes.
pub const RANGE_LENGTH: usize = 4;

/// Read and Fetch: how many bytes the payload has.
pub const RANGE_SIZE: usize = 8;

/// The most bytes that one request reads, fetches or programs.
pub const MAX_PIECE: usize = 1016;

/// Program: the place of the first byte, of four bytes.
pub const PROGRAM_AT: usize = 0;

/// Program: the bytes, from 1 to [`MAX_PIECE`] of them up to the payload's end.
pub const PROGRAM_BYTES: usize = 4;

/// Erase: the number of the sector, of four bytes.
pub const ERASE_SECTOR: usize = 0;

/// Erase: how many bytes the payload has.
pub const ERASE_SIZE: usize = 4;

/// Run and Start: the most steps, of eight bytes.
pub const RUN_STEPS: usize = 0;

/// Run and Start: the most cells, of four bytes, from 1 to 4,194,304.
pub const RUN_CELLS: usize = 8;

/// Run and Start: how many bytes the payload has.
pub const RUN_SIZE: usize = 12;

/// Break: the assembly of the set, of two bytes.
pub const BREAK_ASSEMBLY: usize = 0;

/// Break: the method of that assembly, of two bytes.
pub const BREAK_METHOD: usize = 2;

/// Break: the place in the method's code, of four bytes, or [`NO_PLACE`].
pub const BREAK_PLACE: usize = 4;

/// Break: how many bytes the payload has.
pub const BREAK_SIZE: usize = 8;

/// The place of a Break that says that the run isn't to stop.
pub const NO_PLACE: u32 = 0xFFFF_FFFF;

/// Frame: which frame, of four bytes. The innermost has the number 0.
pub const FRAME_INDEX: usize = 0;

/// Frame: how many bytes the payload has.
pub const FRAME_SIZE: usize = 4;

/// Value: the frame, of four bytes.
pub const VALUE_FRAME: usize = 0;

/// Value: the part of the frame, of one byte: [`OF_ARGUMENTS`], [`OF_LOCALS`] or [`OF_STACK`].
pub const VALUE_PART: usize = 4;

/// Value: which value of that part, of two bytes, from 0.
pub const VALUE_INDEX: usize = 5;

/// Value: how many bytes the payload has.
pub const VALUE_SIZE: usize = 7;

/// The part of a frame that holds its arguments.
pub const OF_ARGUMENTS: u8 = 0;

/// The part of a frame that holds its locals.
pub const OF_LOCALS: u8 = 1;

/// The part of a frame that holds its evaluation stack.
pub const OF_STACK: u8 = 2;

// ---- the reply to Open

/// How many sectors the flash has, of four bytes.
pub const SHAPE_SECTORS: usize = 0;

/// How many bytes a sector has, of four bytes.
pub const SHAPE_SECTOR_SIZE: usize = 4;

/// How many bytes the reply to Open has.
pub const SHAPE_SIZE: usize = 8;

// ---- the replies to Run and Start

/// How the run ended, of one byte: [`ENDED`](crate::command::ENDED), [`NO_SET`](crate::command::NO_SET),
/// [`BAD_SET`](crate::command::BAD_SET), [`UNRESOLVED`](crate::command::UNRESOLVED) or, of Run,
/// [`BAD_CODE`](crate::command::BAD_CODE).
pub const END_KIND: usize = 0;

/// The first of three numbers of four bytes each, which are 0 where the kind doesn't use them.
pub const END_FIRST: usize = 1;

/// The second number.
pub const END_SECOND: usize = 5;

/// The third number.
pub const END_THIRD: usize = 9;

/// The length of the result text, of four bytes, at most [`MAX_TEXT`]; 0 in the reply to Start.
pub const END_TEXT: usize = 13;

/// How many bytes the reply to Run or Start has.
pub const END_SIZE: usize = 17;

/// The most bytes that a result text has.
pub const MAX_TEXT: u32 = 4_259_851;

// ---- the reply to Banks

/// What the flash holds, of one byte: [`NOT_FOUND`], [`OLD_FORMAT`], [`LATE_OLD_FORMAT`] or [`IN_A_BANK`].
pub const BANKS_KIND: usize = 0;

/// The bank of the set, of four bytes: 0 or 1, and 0 unless the kind is [`IN_A_BANK`].
pub const BANKS_BANK: usize = 1;

/// The number of the set, of four bytes, and 0 unless the kind is [`IN_A_BANK`].
pub const BANKS_NUMBER: usize = 5;

/// Which markers stand, of one byte: the sum of [`FIRST_MARK`] and [`SECOND_MARK`], each where it holds.
pub const BANKS_MARKS: usize = 9;

/// How many bytes the reply to Banks has.
pub const BANKS_SIZE: usize = 10;

/// The flash holds no set.
pub const NOT_FOUND: u8 = 0;

/// It holds a set that begins at 0 and ends at or before byte 122,876.
pub const OLD_FORMAT: u8 = 1;

/// It holds a set that begins at 0 and ends later.
pub const LATE_OLD_FORMAT: u8 = 2;

/// It holds a set in one of its two banks.
pub const IN_A_BANK: u8 = 3;

/// The flash begins with one of the two markers.
pub const FIRST_MARK: u8 = 1;

/// Bank 1 begins with the marker of banks.
pub const SECOND_MARK: u8 = 2;

// ---- the reply to Continue

/// How the run stands, of one byte: [`STOPPED`], [`FINISHED`] or [`BAD_CODE`](crate::command::BAD_CODE).
pub const STATE_KIND: usize = 0;

/// How many steps were done since Start, of eight bytes.
pub const STATE_STEPS: usize = 1;

/// The number of frames, the length of the result text, or the place of the bad code, of four bytes.
pub const STATE_COUNT: usize = 9;

/// How many bytes the reply to Continue has.
pub const STATE_SIZE: usize = 13;

/// The run stands at the place of the last Break.
pub const STOPPED: u8 = 0;

/// The run ended, and Fetch gives its text.
pub const FINISHED: u8 = 1;

// ---- the reply to Frame

/// The assembly of the frame's method, of two bytes.
pub const SEEN_ASSEMBLY: usize = 0;

/// The method in that assembly, of two bytes.
pub const SEEN_METHOD: usize = 2;

/// The place in the method's code, of four bytes.
pub const SEEN_PLACE: usize = 4;

/// How many arguments the frame has, of two bytes.
pub const SEEN_ARGUMENTS: usize = 8;

/// How many locals it has, of two bytes.
pub const SEEN_LOCALS: usize = 10;

/// How many values stand on its evaluation stack, of two bytes.
pub const SEEN_STACK: usize = 12;

/// How many bytes the reply to Frame has.
pub const SEEN_SIZE: usize = 14;

// ---- the reply to Value

/// What the value is, of one byte, from [`INT32`] to [`METHOD`].
pub const SHOWN_KIND: usize = 0;

/// The number of an [`INT32`] or [`INT64`], a signed number of eight bytes.
pub const SHOWN_NUMBER: usize = 1;

/// The assembly of the class of an [`OBJECT`], of two bytes.
pub const SHOWN_ASSEMBLY: usize = 9;

/// The class of an [`OBJECT`] in that assembly, of two bytes.
pub const SHOWN_TYPE: usize = 11;

/// How many bytes the reply to Value has.
pub const SHOWN_SIZE: usize = 13;

/// A value of the type int32.
pub const INT32: u8 = 0;

/// A value of the type int64.
pub const INT64: u8 = 1;

/// No reference.
pub const NULL: u8 = 2;

/// A reference to an object.
pub const OBJECT: u8 = 3;

/// A reference to an array.
pub const ARRAY: u8 = 4;

/// A managed pointer.
pub const POINTER: u8 = 5;

/// A handle of a field.
pub const FIELD_HANDLE: u8 = 6;

/// A value of a user value type.
pub const STRUCTURE: u8 = 7;

/// A pointer to a method.
pub const METHOD: u8 = 8;
