//! The refusals of code.

/// The rule that a body breaks whose header, sections or size are faulty.
pub const FAULTY_BODY: u8 = 40;
/// The rule that an opcode breaks which the table of instructions hasn't.
pub const NO_SUCH_OPCODE: u8 = 41;
/// The rule that an instruction breaks whose bytes go past the end of the code.
pub const PAST_THE_END: u8 = 42;

/// A rule of refusal that code breaks.
#[derive(Clone, Copy, Debug, PartialEq, Eq)]
pub struct CodeFault {
    /// [`FAULTY_BODY`], [`NO_SUCH_OPCODE`] or [`PAST_THE_END`].
    pub rule: u8,
    /// 0 for a faulty body, else the offset in the code of the instruction.
    pub offset: u32,
}
