//! Laws of what is said. Each function does nothing: its contract is the law.

ghost use Rattle.std.specs.Prelude.{◌≡◌, ℕ, ◌+◌, ◌-◌, ◌<◌, ◌≤◌, List, [], ◌∷◌, ◌++◌, length, take, slice_get, Some};
ghost use Rattle.mf_types.specs.LinkCalls.{Sent};
ghost use Rattle.wire_packets.specs.declared.packet.Packet.{Packet};
ghost use Rattle.wire_packets.specs.Placed.{Placed};
ghost use Rattle.wire_packets.specs.Spelling.{spelling};
ghost use Rattle.spoken.specs.Speaks.{Said, Speaks, MayGoOn};

/// One who speaks begins with nothing, and may hear more at any time. What was said whole goes on in one of two ways: the
/// last request is said once more, up to eight times; or the next one is said, where the one before it was answered by a
/// packet that ends before this send. A send that fails says a front of its request.
pub fn speaking()
    ensures begins { (requests : List Packet) (heard : List Placed) → Speaks requests [] 0 [] heard }
    ensures hears { (requests : List Packet) (said : List Said) (missing : ℕ) (sends : List Sent) (heard more : List Placed) →
        Speaks requests said missing sends heard → Speaks requests said missing sends (heard ++ more) }
    ensures again { (requests : List Packet) (front : List Said) (p : Packet) (times n : ℕ) (sends : List Sent) (sent : Sent) (heard : List Placed) →
        Speaks requests (front ++ (record { request = p; times = times }) ∷ []) 0 sends heard → times < 8 →
        1 ≤ n → n ≤ length (spelling p) → sent.bytes ≡ take n (spelling p) →
        Speaks requests (front ++ (record { request = p; times = times + 1 }) ∷ []) (length (spelling p) - n) (sends ++ sent ∷ []) heard }
    ensures next { (requests : List Packet) (said : List Said) (p : Packet) (n : ℕ) (sends : List Sent) (sent : Sent) (heard : List Placed) →
        Speaks requests said 0 sends heard → slice_get requests (length said) ≡ Some p → MayGoOn said sent.taken heard →
        1 ≤ n → n ≤ length (spelling p) → sent.bytes ≡ take n (spelling p) →
        Speaks requests (said ++ (record { request = p; times = 1 }) ∷ []) (length (spelling p) - n) (sends ++ sent ∷ []) heard }
{}
