//! What the answering end does with a packet.

/// What to do with a packet that came.
#[derive(Clone, Copy, Debug, PartialEq, Eq)]
pub enum Act {
    /// It is the next request: do it, and keep its reply.
    Do,
    /// It is the last request again: send the kept reply again.
    Resend,
    /// It is neither.
    Ignore,
}
