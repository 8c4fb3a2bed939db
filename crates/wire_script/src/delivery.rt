//! What a network delivers.

use wire_packets::packet::Packet;

/// What comes next in a turn.
#[derive(Debug, Drop, PartialEq, Eq)]
pub enum Delivery {
    /// A request reaches the board.
    ToBoard(Packet),
    /// A reply reaches the tool.
    ToTool(Packet),
    /// The turn has no delivery left.
    TurnOver,
}

/// A delivery that a turn plans. Requests and replies of a session are numbered from 0.
#[derive(Clone, Copy, Debug, PartialEq, Eq)]
pub enum Planned {
    Request(u16),
    Reply(u16),
    NewestRequest,
    NewestReply,
}
