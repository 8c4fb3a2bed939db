//! What a memory's calls leave, and that its cells are the machine's.

ghost use Rattle.std.specs.Prelude.{◌≡◌, ◌≢◌, ◌+◌, ◌≤◌, ℕ, List, [], ◌∷◌, length, Some};
ghost use Rattle.board_types.specs.declared.board.TypeAt.{TypeAt};
ghost use Rattle.board_types.specs.declared.board.BoardType.{BoardType};
ghost use Rattle.machine.specs.Data.{Id, CliType, cell_of, thing_size, Value as StackValue, Instance, Text, Elements, Boxed, StaticCell};
ghost use Rattle.machine.specs.Program.{Method};
ghost use Rattle.machine.specs.Rows.{method_cells};
ghost use Rattle.ram_words.specs.Elements.{type_held};
ghost use Rattle.ram_words.specs.Headers.{static_shape};
ghost use Rattle.tiny_ram.specs.Things.{Entry, entry_cells, fresh, object_shape, array_shape, string_shape, box_shape};
ghost use Rattle.tiny_ram.specs.Memory.{Memory, RamFrame, frame_cells, used, fresh_frame, heap_cells, innermost, IsEntry, IsFrame, with_entry, with_frame, put_in, put_in_frame};

/// Every thing takes as many cells as the machine counts for it.
pub fn cells_are_the_machines()
    ensures objects { (class : TypeAt) (of : Id) (fields : List StackValue) → entry_cells (fresh (object_shape class (length fields))) ≡ thing_size (Instance of fields) }
    ensures arrays { (of : BoardType) (element : CliType) (values : List StackValue) → type_held of ≡ cell_of element → entry_cells (fresh (array_shape of (length values))) ≡ thing_size (Elements element values) }
    ensures strings { (units : List ℕ) → entry_cells (fresh (string_shape (length units))) ≡ thing_size (Text units) }
    ensures boxes { (of : BoardType) (type : CliType) (value : StackValue) → entry_cells (fresh (box_shape of)) ≡ thing_size (Boxed type value) }
    ensures statics { (type : CliType) (value : StackValue) → entry_cells (fresh static_shape) ≡ thing_size (StaticCell type value) }
    ensures frames { (method : TypeAt) (m : Method) → frame_cells (fresh_frame method (length m.arguments ∷ length m.locals ∷ m.max_stack ∷ length m.clauses ∷ [])) ≡ method_cells (Some m) }
{}

/// A new object is there by its number, and every other one stays.
pub fn objects_are_made()
    ensures new { (m : Memory) (e : Entry) → IsEntry (with_entry m e) (1 + heap_cells m.heap) e }
    ensures others { (m : Memory) (e x : Entry) (thing : ℕ) → IsEntry m thing x → IsEntry (with_entry m e) thing x }
{}

/// An object that gives way to one of its size is there by its number, and every other one stays.
pub fn objects_are_put()
    ensures here { (m : Memory) (e g : Entry) (thing : ℕ) → IsEntry m thing e → entry_cells g ≡ entry_cells e → IsEntry (put_in m thing g) thing g }
    ensures others { (m : Memory) (e g x : Entry) (thing other : ℕ) → IsEntry m thing e → entry_cells g ≡ entry_cells e → other ≢ thing → IsEntry m other x → IsEntry (put_in m thing g) other x }
{}

/// A new frame is there by its number where the cells do, and every other one stays.
pub fn frames_are_made()
    ensures new { (m : Memory) (f : RamFrame) → IsFrame (with_frame m f) (innermost m.room (f ∷ m.frames)) f }
    ensures others { (m : Memory) (f x : RamFrame) (thing : ℕ) → used m + frame_cells f ≤ m.room → IsFrame m thing x → IsFrame (with_frame m f) thing x }
{}

/// A frame that gives way to one of its size is there by its number, and every other one stays.
pub fn frames_are_put()
    ensures here { (m : Memory) (f g : RamFrame) (thing : ℕ) → IsFrame m thing f → frame_cells g ≡ frame_cells f → IsFrame (put_in_frame m thing g) thing g }
    ensures others { (m : Memory) (f g x : RamFrame) (thing other : ℕ) → IsFrame m thing f → frame_cells g ≡ frame_cells f → other ≢ thing → IsFrame m other x → IsFrame (put_in_frame m thing g) other x }
{}
