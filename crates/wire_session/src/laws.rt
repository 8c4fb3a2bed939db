//! Laws of sessions. Each function does nothing: its contract is the law.

ghost use Rattle.std.specs.Prelude.{◌≡◌, ℕ, List, Some, Option, nat_lt, length};
ghost use Rattle.std.specs.List.{range_with_len};
ghost use Rattle.wire_packets.specs.declared.packet.Packet.{Packet};
ghost use Rattle.wire_session.specs.Asking.{Asking, after_ask, has_turn, after_turns};
ghost use Rattle.wire_session.specs.Answering.{nothing_done, numbers_done};

/// Whatever packets come, in whatever order and however often: the requests that are done have the numbers 1, 2, 3 and
/// so on, so no number is done twice.
pub fn done_in_order()
    ensures { (reply : Packet → Packet) (packets : List Packet) →
        let done = numbers_done reply nothing_done packets in done ≡ range_with_len 1 (length done) }
{}

/// A request that stays open has eight turns.
pub fn eight_turns()
    ensures { (asking : Asking) (command : ℕ) (payload : List ℕ) (n : ℕ) →
        has_turn (after_turns n (after_ask asking command payload)) ≡ nat_lt n 8 }
{}
