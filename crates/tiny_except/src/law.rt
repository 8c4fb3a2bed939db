//! The calls are the machine's, over a memory that stands for its state.

ghost use Rattle.std.specs.Prelude.{◌≡◌, ℕ, ◌+◌, ◌^◌, ◌<◌, Bool, List, ◌∷◌, length, Option, Some, slice_get};
ghost use Rattle.board_types.specs.declared.board.TypeAt.{TypeAt};
ghost use Rattle.board_types.specs.declared.board.Known.{Known};
ghost use Rattle.machine.specs.Data.{Id, CliType, Frame, State};
ghost use Rattle.machine.specs.Program.{Program, Method};
ghost use Rattle.machine.specs.Throw.{throw as throw_object, raise, left, leave as leave_by, take_up};
ghost use Rattle.machine_rename.specs.Again.{Nested};
ghost use Rattle.tiny_ram.specs.Memory.{Memory};
ghost use Rattle.memory_states.specs.Told.{Told};
ghost use Rattle.memory_states.specs.Values.{id_of};
ghost use Rattle.memory_states.specs.States.{Tells, IsThrown, StandsFor};
ghost use Rattle.tiny_except.specs.declared.clauses.Found.{Found};
ghost use Rattle.tiny_except.specs.declared.unwinding.Thrown.TheVariants.{Made, Object};
ghost use Rattle.tiny_except.specs.Unwinding.{class_in, thrown_after, left_after, ended_at, plan_at, taken_up};
ghost use Rattle.tiny_except.specs.Searches.{AllHaveSlots, IsThere};
ghost use Rattle.tiny_except.specs.Machine.{ThrowsAlike, GoesAlike};

/// A throw over the memory is the machine's throw by a plan: of an object that is there, and of one that is made for a known class.
/// Its cells don't do exactly where the machine's state after it has too many.
pub fn throws_are_the_machines()
    ensures object { (p : Program) (t : Told) (outer : Id → ℕ → ℕ → Bool) → Tells t p outer → Nested p outer → (m : Memory) (s : State) → StandsFor p outer m s → (class : TypeAt) (object : ℕ) → IsThrown p outer s.heap object (id_of class) → ThrowsAlike p outer s m.room (thrown_after t m class (Object (1 + object))) (throw_object p s (id_of class) object) }
    ensures made { (p : Program) (t : Told) (outer : Id → ℕ → ℕ → Bool) → Tells t p outer → Nested p outer → (m : Memory) (s : State) → StandsFor p outer m s → (known : Known) (class : TypeAt) (types : List CliType) → p.known known ≡ Some (id_of class) → p.fields (id_of class) ≡ Some types → ThrowsAlike p outer s m.room (thrown_after t m class (Made class (length types))) (raise p s known) }
{}

/// A leave over the memory is the machine's, which never lacks a case.
pub fn leaves_are_the_machines()
    ensures { (p : Program) (t : Told) (outer : Id → ℕ → ℕ → Bool) → Tells t p outer → Nested p outer → (m : Memory) (s : State) → StandsFor p outer m s → (g : Frame) (gs : List Frame) → s.frames ≡ g ∷ gs → (of : Method) → p.method g.method ≡ Some of → (target : ℕ) → target < 2 ^ 32 → GoesAlike p outer s (Some (left_after t target m)) (leave_by p s g gs (left p g.method g.place target 0 of.clauses) target) }
{}

/// The end of a finally takes up the plan in the memory as the machine does, and lacks a case where the machine does.
pub fn ends_are_the_machines()
    ensures { (p : Program) (t : Told) (outer : Id → ℕ → ℕ → Bool) → Tells t p outer → Nested p outer → (m : Memory) (s : State) → StandsFor p outer m s → (g : Frame) (gs : List Frame) → s.frames ≡ g ∷ gs → (ended : Found) → ended_at t m.frames ≡ Some ended → GoesAlike p outer s (taken_up t m (plan_at t m.frames)) (take_up p s g gs (slice_get g.slots ended.number)) }
{}

/// What the calls ask of the memory holds where it stands for a state.
pub fn slots_are_there()
    ensures slots { (p : Program) (t : Told) (outer : Id → ℕ → ℕ → Bool) → Tells t p outer → (m : Memory) (s : State) → StandsFor p outer m s → AllHaveSlots t m.frames }
    ensures plan { (p : Program) (t : Told) (outer : Id → ℕ → ℕ → Bool) → Tells t p outer → Nested p outer → (m : Memory) (s : State) → StandsFor p outer m s → IsThere m (plan_at t m.frames) }
    ensures class { (p : Program) (t : Told) (outer : Id → ℕ → ℕ → Bool) → Tells t p outer → Nested p outer → (m : Memory) (s : State) → StandsFor p outer m s → (object : ℕ) (class : Id) → IsThrown p outer s.heap object class → (of : TypeAt) × (class_in m.heap (1 + object) ≡ Some of) × (id_of of ≡ class) }
{}
