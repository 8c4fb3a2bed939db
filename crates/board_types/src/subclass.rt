//! What exceptions and natives need to know of a bound set of images.

ghost use Rattle.std.specs.Prelude.{◌≡◌, ℕ, Bool, List, Option, slice_get};
ghost use Rattle.board_types.specs.declared.board.TypeAt.{TypeAt};
ghost use Rattle.board_types.specs.declared.board.BoardType.{BoardType};
ghost use Rattle.board_types.specs.declared.board.ClauseAt.{ClauseAt};

use crate::board::{BoardType, ClauseAt, TypeAt};

/// The types, clauses, names and data of a bound set.
pub trait Subclass {
    /// The first is the second or one of its subclasses.
    ghost sub: { Self → TypeAt → TypeAt → Bool };

    /// The exception clauses of a method, in order.
    ghost clauses: { Self → TypeAt → List ClauseAt };

    /// The full name of a type, as UTF-16 units.
    ghost name: { Self → BoardType → List ℕ };

    /// The bytes of a data field.
    ghost bytes: { Self → TypeAt → List ℕ };

    /// Whether the first is the second or one of its subclasses.
    fn is_sub(&self, a: TypeAt, b: TypeAt) -> bool
        ensures { result ≡ sub self.now a b };

    /// The k-th clause of a method, and `None` exactly past the last one.
    fn clause(&self, method: TypeAt, k: u16) -> Option<ClauseAt>
        ensures { result ≡ slice_get (clauses self.now method) k };

    /// The k-th UTF-16 unit of a type's full name, and `None` exactly past the last one.
    fn name_unit(&self, of: BoardType, k: u32) -> Option<u16>
        ensures { result ≡ slice_get (name self.now of) k };

    /// The k-th byte of a data field, and `None` exactly past the last one.
    fn data_byte(&self, field: TypeAt, k: u32) -> Option<u8>
        ensures { result ≡ slice_get (bytes self.now field) k };
}
