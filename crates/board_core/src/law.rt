//! Laws of what a board makes of a packet. Each function does nothing: its contract is the law.

ghost use Rattle.std.specs.Prelude.{◌≡◌, ◌++◌, ◌∷◌, [], List, ℕ, Some, None, false};
ghost use Rattle.flash_trait.specs.Flash.{Operation};
ghost use Rattle.flash_trait.specs.FlashCalls.{FlashState, IsCut};
ghost use Rattle.wire_packets.specs.declared.packet.Packet.{Packet};
ghost use Rattle.deploy_model.specs.Board.{Parts, Outcome, Works};
ghost use Rattle.deploy_model.specs.Tool.{Tool};
ghost use Rattle.deploy_model.specs.World.{to_board, stops};
ghost use Rattle.deploy_model.specs.Play.{due_operation};
ghost use Rattle.board_core.specs.declared.handled.Handled.{Handled};
ghost use Rattle.board_core.specs.Handling.{CoreState, begun, Handles};
ghost use Rattle.board_core.specs.Worlds.{world_of, dark_world, CanBe, tells_trouble, WentWell, Leaves};

/// Where a board gives a reply or nothing, the world goes by one delivery to the board: to the board, the text and the
/// content that the board has then, with the reply behind the others. The outcome is one that the content allows; it is
/// one that works, with the operation that was due done whole, where the reply tells neither a failure of the flash nor
/// want of memory.
pub fn deliveries()
    ensures reply { (parts : Parts) (p r : Packet) (old new : CoreState) (f g : FlashState) (tool : Tool) (requests replies : List Packet) (start : List ℕ) →
        Handles parts p old new f g (Handled.Reply r) → (outcome : Outcome) × CanBe p f.content outcome
        × (to_board parts (world_of old f.content tool requests replies start) outcome (Some p) ≡ world_of new g.content tool requests (replies ++ r ∷ []) start) }
    ensures works { (parts : Parts) (p r : Packet) (old new : CoreState) (f g : FlashState) (tool : Tool) (requests replies : List Packet) (start : List ℕ) →
        Handles parts p old new f g (Handled.Reply r) → tells_trouble r ≡ false →
        (to_board parts (world_of old f.content tool requests replies start) Works (Some p) ≡ world_of new g.content tool requests (replies ++ r ∷ []) start)
        × WentWell (due_operation (world_of old f.content tool requests replies start) p) f g }
    ensures quiet { (parts : Parts) (p : Packet) (old new : CoreState) (f g : FlashState) (tool : Tool) (requests replies : List Packet) (start : List ℕ) →
        Handles parts p old new f g Handled.Quiet →
        (to_board parts (world_of old f.content tool requests replies start) Works (Some p) ≡ world_of new g.content tool requests replies start)
        × WentWell (due_operation (world_of old f.content tool requests replies start) p) f g }
{}

/// Where the power stops, an operation was due, the stop that was armed came in it, and the world goes by this stop. The board begins anew.
pub fn stopped_deliveries()
    ensures { (parts : Parts) (p : Packet) (old new : CoreState) (f g : FlashState) (tool : Tool) (requests replies : List Packet) (start : List ℕ) →
        Handles parts p old new f g Handled.Off →
        (op : Operation) × (due_operation (world_of old f.content tool requests replies start) p ≡ Some op) × IsCut op f g
        × (stops (world_of old f.content tool requests replies start) g.content (Some p) ≡ dark_world g.content tool requests replies start) × (new ≡ begun) }
{}

/// At each moment of a delivery the content is the old one, or one that a stop of the operation that was due may leave.
pub fn moments_of_deliveries()
    ensures { (parts : Parts) (p : Packet) (old new : CoreState) (f g : FlashState) (h : Handled) (tool : Tool) (requests replies : List Packet) (start : List ℕ) →
        Handles parts p old new f g h → Leaves (due_operation (world_of old f.content tool requests replies start) p) f g }
{}
