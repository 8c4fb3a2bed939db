//! Laws of memories that stand for states of the machine.

ghost use Rattle.std.specs.Prelude.{◌≡◌, ℕ, ◌+◌, ◌<◌, Bool, List, [], ◌∷◌, ◌++◌, map, length, Some};
ghost use Rattle.board_types.specs.declared.board.TypeAt.{TypeAt};
ghost use Rattle.board_types.specs.declared.board.BoardType.{BoardType};
ghost use Rattle.board_types.specs.declared.value.Value.{Value as RamValue};
ghost use Rattle.machine.specs.Data.{Id, CliType, Value, Thing, Instance, thing_at, thing_size, Frame, State, cell_of};
ghost use Rattle.machine.specs.Program.{Program, Method};
ghost use Rattle.machine.specs.Numbers.{zero_of};
ghost use Rattle.machine.specs.Calls.{start_frame};
ghost use Rattle.machine.specs.Trace.{cells};
ghost use Rattle.ram_words.specs.Elements.{type_held};
ghost use Rattle.tiny_ram.specs.Things.{Entry, entry_cells, fresh, object_shape};
ghost use Rattle.tiny_ram.specs.Memory.{RamFrame, Memory, used, entry_at, with_entry, pushed, fresh_frame};
ghost use Rattle.memory_states.specs.Values.{id_of, cli_type, IsValue, IsThing, AreThings};
ghost use Rattle.memory_states.specs.States.{StandsFor, IsMachineFrame};

/// The cells in use are those that the machine counts, in all and for each object.
pub fn cells_are_alike()
    ensures whole { (p : Program) (outer : Id → ℕ → ℕ → Bool) (m : Memory) (s : State) → StandsFor p outer m s → used m ≡ cells p s }
    ensures object { (p : Program) (room : ℕ) (e : Entry) (x : Thing) → IsThing p room e x → entry_cells e ≡ thing_size x }
    ensures element { (of : BoardType) → type_held of ≡ cell_of (cli_type of) }
{}

/// An object of the machine is there by its number and one more, and stays so when another is made.
pub fn objects_are_alike()
    ensures there { (p : Program) (room : ℕ) (es : List Entry) (xs : List Thing) → AreThings p room es xs → (n : ℕ) (x : Thing) → thing_at xs n ≡ Some x → (e : Entry) × (entry_at es n ≡ Some e) × IsThing p room e x }
    ensures made { (p : Program) (outer : Id → ℕ → ℕ → Bool) (m : Memory) (s : State) (e : Entry) (x : Thing) → StandsFor p outer m s → IsThing p m.room e x → StandsFor p outer (with_entry m e) (record s { heap = s.heap ++ x ∷ [] }) }
    ensures instance { (p : Program) (room : ℕ) (class : TypeAt) (types : List CliType) → p.fields (id_of class) ≡ Some types → IsThing p room (fresh (object_shape class (length types))) (Instance (id_of class) (map zero_of types)) }
{}

/// A new frame of a method without arguments is the machine's, for any callers.
pub fn frames_start_alike()
    ensures { (p : Program) (outer : Id → ℕ → ℕ → Bool) (heap : List Thing) (room : ℕ) (method : TypeAt) (m : Method) (initialiser : Bool) (fs : List RamFrame) (gs : List Frame) → p.method (id_of method) ≡ Some m → m.arguments ≡ [] → IsMachineFrame p outer heap room (record (fresh_frame method (length m.arguments ∷ length m.locals ∷ m.max_stack ∷ length m.clauses ∷ [])) { initialiser = initialiser }) fs (start_frame initialiser (id_of method) m []) gs }
{}

/// A push keeps a frame the machine's, where the stack has room.
pub fn pushes_are_alike()
    ensures { (p : Program) (outer : Id → ℕ → ℕ → Bool) (heap : List Thing) (room : ℕ) (f : RamFrame) (fs : List RamFrame) (g : Frame) (gs : List Frame) (k : IsMachineFrame p outer heap room f fs g gs) (r : RamValue) (v : Value) → IsValue room (f ∷ fs) r v → length g.stack < k.of.max_stack → IsMachineFrame p outer heap room (pushed f r) fs (record g { stack = v ∷ g.stack }) gs }
{}
