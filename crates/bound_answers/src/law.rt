//! Laws of what a bound set tells. The functions do nothing: their contracts are the laws.

ghost use Rattle.std.specs.Prelude.{◌≡◌, ℕ, List, Some};
ghost use Rattle.little_endian.specs.Numbers.{AreBytes};
ghost use Rattle.deploy_model.specs.Banks.{Format, Image, WholeSet, found};
ghost use Rattle.board_types.specs.declared.board.TypeAt.{TypeAt};
ghost use Rattle.board_types.specs.declared.board.BoardType.{BoardType};
ghost use Rattle.board_ids.specs.Ids.{cli_type, id_of};
ghost use Rattle.machine.specs.Natives.{name_of};
ghost use Rattle.assemblies.specs.Rows.{Assembly};
ghost use Rattle.board_model.specs.Bound.{bound_program, set_rows};
ghost use Rattle.memory_states.specs.Told.{told};
ghost use Rattle.memory_states.specs.States.{Tells};
ghost use Rattle.bound_answers.specs.Told.{bytes, sub, clauses};
ghost use Rattle.bound_answers.specs.Names.{name};
ghost use Rattle.bound_answers.specs.Standing.{AreImages, outer};

/// Which class is below which, and the clauses of methods, are those of the program of the set's images.
pub fn sets_tell_of_programs()
    ensures { (ps : List Assembly) → AreImages ps → Tells (told (sub ps) (clauses ps)) (bound_program ps) (outer ps) }
{}

/// The name of a type, where the program of the set's images has one, is the one that is told.
pub fn sets_tell_names()
    ensures { (ps : List Assembly) → AreImages ps → (of : BoardType) (units : List ℕ) → name_of (bound_program ps) (cli_type of) ≡ Some units → name ps of ≡ units }
{}

/// The bytes of a field, where the program of the set's images has some, are those that are told.
pub fn sets_tell_bytes()
    ensures { (ps : List Assembly) → AreImages ps → (field : TypeAt) (kept : List ℕ) → (bound_program ps).bytes (id_of field) ≡ Some kept → bytes ps field ≡ kept }
{}

/// The images of a set that is found in a flash, whose content is bytes, are such images.
pub fn found_sets_are_images()
    ensures { (f : Format) (content : List ℕ) → AreBytes content → (images : List Image) → found f content ≡ WholeSet images → AreImages (set_rows images) }
{}
