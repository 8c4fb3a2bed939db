//! Laws of what arrives over a link and of the packets in it. Each function does nothing: its contract is the law.

ghost use Rattle.std.specs.Prelude.{◌≡◌, ℕ, ◌+◌, ◌-◌, IsTrue, List, [], ◌∷◌, ◌++◌, length, Some, None};
ghost use Rattle.mf_types.specs.LinkCalls.{LinkState, IsSilent, FailsToReceive, SendKeeps};
ghost use Rattle.wire_packets.specs.declared.packet.Packet.{Packet};
ghost use Rattle.wire_packets.specs.Placed.{Placed, placed};
ghost use Rattle.packet_inbox.specs.Arrived.{Arrived, received};
ghost use Rattle.packet_inbox.specs.Reading.{HasRead};
ghost use Rattle.packet_inbox.specs.Taking.{TakesFrom};

/// What arrived in two steps is joined. Nothing arrives at a silence, at a failure, and while something is sent. Over a
/// link that tells what is to come, what arrived is what the two states tell.
pub fn arrivals()
    ensures joined { (a b : List ℕ) (first mid last : LinkState) → Arrived a first mid → Arrived b mid last → Arrived (a ++ b) first last }
    ensures nothing { (link : LinkState) → Arrived [] link link }
    ensures silent { (old new : LinkState) → IsSilent old new → Arrived [] old new }
    ensures failed { (old new : LinkState) → FailsToReceive old new → Arrived [] old new }
    ensures sent { (old new : LinkState) → SendKeeps old new → Arrived [] old new }
    ensures told { (bytes : List ℕ) (first last : LinkState) → IsTrue first.tells → Arrived bytes first last → received first last ≡ bytes }
{}

/// A reader begins with nothing; each packet that it takes is the next of the stream, with the place where it ends; where
/// it finds none it has taken all of them; and bytes that come go behind those that it holds.
pub fn reading()
    ensures begins { (from : ℕ) → HasRead from [] [] [] }
    ensures takes { (from : ℕ) (bytes : List ℕ) (taken : List Placed) (p : Packet) (old new : List ℕ) →
        HasRead from bytes taken old → TakesFrom (Some p) old new →
        HasRead from bytes (taken ++ (record { packet = p; end = from + (length bytes - length new) }) ∷ []) new }
    ensures all { (from : ℕ) (bytes : List ℕ) (taken : List Placed) (old new : List ℕ) →
        HasRead from bytes taken old → TakesFrom None old new → HasRead from bytes taken new × (placed from bytes ≡ taken) }
    ensures comes { (from : ℕ) (bytes more : List ℕ) (taken : List Placed) (held : List ℕ) →
        HasRead from bytes taken held → HasRead from (bytes ++ more) taken (held ++ more) }
{}
