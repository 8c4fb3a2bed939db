//! Laws of the spelling of packets. Each function does nothing: its contract is the law.

ghost use Rattle.std.specs.Prelude.{◌≡◌, ℕ, ◌+◌, ◌-◌, ◌<◌, ◌≤◌, List, [], ◌∷◌, ◌++◌, length, drop, map, slice_get, Some};
ghost use Rattle.std.specs.List.{flat_map, AllByRecursion};
ghost use Rattle.wire_packets.specs.declared.packet.Packet.{Packet};
ghost use Rattle.wire_packets.specs.declared.decoding.Decoded.TheVariants.{Whole, Short, Damaged};
ghost use Rattle.wire_packets.specs.Spelling.{spelling, IsPacket, Spells};
ghost use Rattle.wire_packets.specs.Decoding.{decoded};
ghost use Rattle.wire_packets.specs.declared.packet.TheConstants.{MAX_PACKET};
ghost use Rattle.wire_packets.specs.Placed.{Placed, placed};
ghost use Rattle.wire_packets.specs.Stream.{packets, unread};

/// What is spelt is read back, whatever follows it.
pub fn reads_back()
    ensures { (p : Packet) (rest : List ℕ) → IsPacket p →
        decoded (spelling p ++ rest) ≡ Whole p (length (spelling p)) }
{}

/// No form of a packet begins another.
pub fn one_form()
    ensures { (p q : Packet) (a b x y : List ℕ) → Spells p a → Spells q b → a ++ x ≡ b ++ y → (p ≡ q) × (a ≡ b) }
{}

/// The spellings of packets, joined, are the stream of these packets, whatever follows.
pub fn packets_again()
    ensures { (ps : List Packet) (rest : List ℕ) → AllByRecursion IsPacket ps →
        packets (flat_map spelling ps ++ rest) ≡ ps ++ packets rest }
{}

/// A stream is read from its front: a packet is taken away, a damaged byte is dropped, and where it is short reading
/// ends and the rest is left.
pub fn stream_steps()
    ensures whole { (bytes : List ℕ) (p : Packet) (n : ℕ) → decoded bytes ≡ Whole p n →
        (packets bytes ≡ p ∷ packets (drop n bytes)) × (unread bytes ≡ unread (drop n bytes)) }
    ensures damaged { (bytes : List ℕ) → decoded bytes ≡ Damaged →
        (packets bytes ≡ packets (drop 1 bytes)) × (unread bytes ≡ unread (drop 1 bytes)) }
    ensures short { (bytes : List ℕ) → decoded bytes ≡ Short → (packets bytes ≡ []) × (unread bytes ≡ bytes) }
{}

/// It makes no difference in which pieces a stream comes: the packets of a piece come first, and what it leaves unread
/// goes before the next piece.
pub fn in_pieces()
    ensures packets { (a b : List ℕ) → packets (a ++ b) ≡ packets a ++ packets (unread a ++ b) }
    ensures unread { (a b : List ℕ) → unread (a ++ b) ≡ unread (unread a ++ b) }
{}

/// The packets of a stream that begins at a place, each with the place where it ends: they are the packets of the
/// stream, end inside it, and come in pieces as these do.
pub fn ends_of_packets()
    ensures packets { (from : ℕ) (bytes : List ℕ) → map (λ p. p.packet) (placed from bytes) ≡ packets bytes }
    ensures inside { (from i : ℕ) (bytes : List ℕ) (p : Placed) → slice_get (placed from bytes) i ≡ Some p → p.end ≤ from + length bytes }
    ensures pieces { (from : ℕ) (a b : List ℕ) →
        placed from (a ++ b) ≡ placed from a ++ placed (from + (length a - length (unread a))) (unread a ++ b) }
{}

/// What is left unread is the beginning of a packet and shorter than one can be.
pub fn unread_is_short()
    ensures beginning { (bytes : List ℕ) → decoded (unread bytes) ≡ Short }
    ensures fewer { (bytes : List ℕ) → length (unread bytes) ≤ length bytes }
    ensures room { (bytes : List ℕ) → length (unread bytes) < MAX_PACKET }
{}
