//! Laws of the deployment. Each function does nothing: its contract is the law.

ghost use Rattle.std.specs.Prelude.{◌≡◌, ◌≤◌, ◌<◌, ◌==◌, ◌+◌, ◌-◌, ◌⊎◌, ℕ, suc, List, [], ◌∷◌, ◌++◌, length, true, false, slice_index, slice_get, Option, Some};
ghost use Rattle.std.specs.List.{range_with_len};
ghost use Rattle.flash_trait.specs.Flash.{Operation, AreBytes, IsStopped};
ghost use Rattle.wire_packets.specs.declared.packet.Packet.{Packet};
ghost use Rattle.wire_session.specs.declared.act.Act.TheVariants.{Do};
ghost use Rattle.wire_packets.specs.declared.command.TheConstants.{BANKS, DONE, FLASH_FAILED, NO_MEMORY};
ghost use Rattle.wire_packets.specs.declared.payload.TheConstants.{LATE_OLD_FORMAT};
ghost use Rattle.wire_session.specs.Replies.{matches};
ghost use Rattle.wire_session.specs.Answering.{act_on};
ghost use Rattle.deploy_model.specs.Banks.{Format, placed, IsFormat, found, set_in, locate, ROOM, BODY, base, MOST_IMAGES, AreImages, joined, images_at, entries, WholeSet};
ghost use Rattle.deploy_model.specs.Deployment.{Deploying, HasFailed, next_of, given_way, banks, banks_bytes, plan_for, is_spent, operations, after_all};
ghost use Rattle.deploy_model.specs.Moments.{Through, IsDeployable, Safe, IsKept};
ghost use Rattle.deploy_model.specs.Board.{Parts, operation_asked, reply_to};
ghost use Rattle.deploy_model.specs.World.{World, Event, Begin, run, ArePossible, FitsWork, asleep, begins};
ghost use Rattle.deploy_model.specs.Tool.{Goal, DeploysAndRuns, OnlyRuns};
ghost use Rattle.deploy_model.specs.Numbers.{numbers_of, MOST_REQUESTS, ENOUGH_TURNS};
ghost use Rattle.deploy_model.specs.Play.{play, playing, honest, ended, CanRun, HasTheRun, fetch_count};
ghost use Rattle.wire_script.specs.declared.net.Item.{Item};
ghost use Rattle.flash_trait.specs.declared.flash.Stop.{Stop};
ghost use Rattle.deploy_model.specs.Promise.{IsSound, SafeWork};

/// A deployment without a network: before each of its operations, at each stop inside one and at the end, what is found
/// is what was found at its start or the new set at its bank. After the last operation it is the new set.
pub fn safe_operations()
    ensures moments { (f : Format) (set start : List ℕ) → IsFormat f → IsDeployable f set → length start ≡ 262144 → is_spent (banks f start) ≡ false →
        Through (Safe f start set (plan_for (banks f start)).target) (operations (plan_for (banks f start)) set) start }
    ensures end { (f : Format) (set start : List ℕ) → IsFormat f → IsDeployable f set → length start ≡ 262144 → is_spent (banks f start) ≡ false →
        found f (after_all (operations (plan_for (banks f start)) set) start) ≡ set_in f (plan_for (banks f start)).target set }
{}

/// What the operations keep at each of these moments, of any start: all outside the target bank, but for the first eight
/// bytes where the start has a set that ends behind bank 0; and the target as it was, as long as its marker is whole,
/// until it is the new one.
pub fn kept_by_operations()
    ensures { (f : Format) (set start : List ℕ) → length set ≤ ROOM → AreBytes set → length start ≡ 262144 →
        Through (IsKept start set (plan_for (banks f start)) ((locate f start).kind == LATE_OLD_FORMAT)) (operations (plan_for (banks f start)) set) start }
{}

/// The content after the last operation of a deployment: the start's, with the set and its number placed in the target
/// bank. Where the start has a set of the format before that ends behind bank 0, its first eight bytes are zeros too.
pub fn sets_are_placed()
    ensures { (f : Format) (set start : List ℕ) → length set ≤ ROOM → AreBytes set → length start ≡ 262144 →
        let plan = plan_for (banks f start) in
        after_all (operations plan set) start ≡ placed (given_way ((locate f start).kind == LATE_OLD_FORMAT) start) plan.target plan.number set }
{}

/// Whatever packets are lost, repeated or reordered, wherever the power stops and operations fail, and through any
/// number of sessions and sets: the world is sound.
pub fn sound_worlds()
    ensures { (parts : Parts) (content : List ℕ) (events : List Event) → IsFormat parts.format → length content ≡ 262144 → AreBytes content →
        ArePossible parts (asleep content) events → IsSound parts (run parts events (asleep content)) }
{}

/// The board does the requests of a session by their numbers, 1, 2, 3 and so on, up to the one in which the power stops:
/// so none is done twice. While the power is on, the last of them is the board's last number.
pub fn numbers_in_order()
    ensures order { (parts : Parts) (content : List ℕ) (events : List Event) →
        let done = numbers_of parts events (asleep content) [] in done ≡ range_with_len 1 (length done) }
    ensures last { (parts : Parts) (content : List ℕ) (events : List Event) →
        let w = run parts events (asleep content) in w.on ≡ true → length (numbers_of parts events (asleep content) []) ≡ w.board.last }
{}

/// A session asks fewer than 5,000 requests, whatever happens: Open, Banks and at most 140 operations, Run, the pieces of
/// a text, and Close.
pub fn numbers_are_few()
    ensures { (parts : Parts) (content : List ℕ) (events : List Event) → ArePossible parts (asleep content) events →
        (run parts events (asleep content)).tool.asking.asked < MOST_REQUESTS }
{}

/// Sessions on one flash, one after the other, are one list of events: a session that begins in a world goes as one that
/// begins with its content alone, and lists of events follow each other. So the laws hold of any number of sessions.
pub fn sessions_follow()
    ensures begins { (parts : Parts) (goal : Goal) (events : List Event) (w : World) →
        run parts (Begin goal ∷ events) w ≡ run parts (Begin goal ∷ events) (asleep w.content) }
    ensures joins { (parts : Parts) (events more : List Event) (w : World) → run parts (events ++ more) w ≡ run parts more (run parts events w) }
    ensures possible { (parts : Parts) (events more : List Event) (w : World) → ArePossible parts w events → ArePossible parts (run parts events w) more →
        ArePossible parts w (events ++ more) }
{}

/// The contents that a stop inside an operation may leave, for the moments of a flash: where the board does a request,
/// each is safe.
pub fn safe_stops()
    ensures { (parts : Parts) (content : List ℕ) (events : List Event) → IsFormat parts.format → length content ≡ 262144 → AreBytes content →
        ArePossible parts (asleep content) events → let w = run parts events (asleep content) in w.on ≡ true →
        (i : ℕ) (p : Packet) (op : Operation) → slice_get w.requests i ≡ Some p → act_on w.board p ≡ Do → operation_asked p ≡ Some op →
        (left : List ℕ) → IsStopped op w.content left → SafeWork parts w.tool.goal.work w.start left }
{}

/// What a script of the network and a stop stand for are events that can happen, one after the other, whatever they are.
pub fn scripts_can_happen()
    ensures { (parts : Parts) (w : World) (turns : ℕ) (script : List Item) (stop : Option Stop) →
        let p = play parts turns 0 script (playing w stop) in (run parts p.events w ≡ p.world) × ArePossible parts w p.events }
{}

/// The turns of a script suffice: a request takes at most eight, and a session asks fewer than 5,000. So with 40,000 turns
/// a play comes to its end, and more turns change nothing.
pub fn turns_suffice()
    ensures { (parts : Parts) (goal : Goal) (content : List ℕ) (script : List Item) (stop : Option Stop) (turns more : ℕ) →
        IsFormat parts.format → length content ≡ 262144 → AreBytes content → FitsWork parts goal.work → ENOUGH_TURNS ≤ turns → ENOUGH_TURNS ≤ more →
        play parts turns 0 script (playing (begins (asleep content) goal) stop) ≡ play parts more 0 script (playing (begins (asleep content) goal) stop) }
{}

/// The board's replies to a deployment's requests are those that the tool waits for.
pub fn replies_match()
    ensures operation { (last : Option ℕ) (p : Packet) (op : Operation) → operation_asked p ≡ Some op →
        (matches last p (reply_to p (DONE ∷ [])) ≡ true) × (matches last p (reply_to p (FLASH_FAILED ∷ [])) ≡ true) }
    ensures banks { (f : Format) (content : List ℕ) (last : Option ℕ) (p : Packet) → AreBytes content → p.command ≡ BANKS →
        matches last p (reply_to p (DONE ∷ banks_bytes (banks f content))) ≡ true }
{}

/// A deployment fails by a failure of the flash alone: where it is told as failed at a reply that its last request waited
/// for, other than want of memory, this reply has status 2.
pub fn failed_by_the_flash()
    ensures { (d : Deploying) (last : Option ℕ) (request reply : Packet) → matches last request reply ≡ true → (d.asked ≡ 2 → request.command ≡ BANKS) →
        (slice_index reply.payload.items 0 ≡ NO_MEMORY → ⊥) → (next_of d (Some reply.payload.items)).0 ≡ HasFailed →
        slice_index reply.payload.items 0 ≡ FLASH_FAILED }
{}

/// Over a network that delivers what is sent, and a flash that doesn't fail, a session deploys its set: in two turns and
/// one for each operation it is told as done, and it is what is found. Then its run is asked for, its text is fetched,
/// and the session is closed. A session that only runs needs one turn in the place of those.
pub fn honest_networks_deploy()
    ensures deploys { (parts : Parts) (goal : Goal) (set content : List ℕ) → IsFormat parts.format → IsDeployable parts.format set → length content ≡ 262144 → AreBytes content →
        is_spent (banks parts.format content) ≡ false → goal.work ≡ DeploysAndRuns set →
        let plan = plan_for (banks parts.format content) in
        let w = honest parts (suc (suc (length (operations plan set)))) (begins (asleep content) goal) in
        (w.tool.told ≡ true) × (found parts.format w.content ≡ set_in parts.format plan.target set) }
    ensures runs { (parts : Parts) (goal : Goal) (set content : List ℕ) → IsDeployable parts.format set → AreBytes content →
        is_spent (banks parts.format content) ≡ false → goal.work ≡ DeploysAndRuns set →
        let ops = operations (plan_for (banks parts.format content)) set in
        let deployed = after_all ops content in CanRun parts goal deployed →
        HasTheRun parts goal deployed (honest parts (suc (suc (length ops)) + (2 + fetch_count (ended parts goal deployed).text)) (begins (asleep content) goal)) }
    ensures only_runs { (parts : Parts) (goal : Goal) (content : List ℕ) → goal.work ≡ OnlyRuns → CanRun parts goal content →
        HasTheRun parts goal content (honest parts (1 + (2 + fetch_count (ended parts goal content).text)) (begins (asleep content) goal)) }
{}

/// Images that are written one after the other into a bank, at most 32 of them and one with an entry, are found there.
pub fn sets_are_read()
    ensures { (f : Format) → IsFormat f → (images : List (List ℕ)) (bank : ℕ) → AreImages f images → length images ≤ MOST_IMAGES →
        (ROOM - length (joined images) ≡ 0) ⊎ (4 ≤ ROOM - length (joined images)) → entries f (images_at (base bank + BODY) images) ≡ 1 →
        set_in f bank (joined images) ≡ WholeSet (images_at (base bank + BODY) images) }
{}
