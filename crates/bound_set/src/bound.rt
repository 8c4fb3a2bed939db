//! A bound set.

ghost use Rattle.bound_set.specs.Small.{FilesAreSmall};

use crate::library::{BasicRows, KnownClasses};
use board_types::board::{Known, TypeAt};
use plain_types::elem::Elem;
use set_binding::{Bindings, ReferenceTable};

/// A bound set: where its images begin in the flash, what their references name, and the base library's classes that are asked for
/// by their names. It holds no row, text or code.
#[derive(Drop)]
pub struct Bound {
    pub places: Vec<u32>,
    pub bindings: Bindings,
    pub known: KnownClasses,
    pub basic: BasicRows,
    ghost small: { FilesAreSmall bindings.files.items },
}

impl Bound {
    ghost use Rattle.std.specs.Prelude.{◌≡◌, ◌<◌, Some, IsSome, length, slice_get};
    ghost use Rattle.std.specs.Option.{option_map};
    ghost use Rattle.board_ids.specs.Ids.{id_of};
    ghost use Rattle.set_binding.specs.Tables.{number_of};
    ghost use Rattle.bound_set.specs.Inside.{kept_in};

    /// Where an image of the set begins in the flash.
    pub fn image_at(&self, assembly: u16) -> u32
        requires { assembly < length (kept_in self.now).places }
        ensures { Some result ≡ slice_get (kept_in self.now).places assembly }
    {
        self.places[usize::from(assembly)]
    }

    /// What a row of an image's references names, in constant time; an assembly is its row 0.
    pub fn resolved(&self, assembly: u16, table: ReferenceTable, row: u16) -> TypeAt
        requires { IsSome ((kept_in self.now).named assembly (number_of table) row) }
        ensures { Some (id_of result) ≡ (kept_in self.now).named assembly (number_of table) row }
    {
        match self
            .bindings
            .resolved(u32::from(assembly), table, u32::from(row))
        {
            Some(class) => TypeAt {
                assembly: class.file as u16,
                row: class.row as u16,
            },
            None => unreachable!(),
        }
    }

    /// The class of an exception that the machine makes; `None` where the base library lacks it.
    pub fn known(&self, which: Known) -> Option<TypeAt>
        ensures { option_map id_of result ≡ (kept_in self.now).known which }
    {
        self.known.class(which)
    }

    /// The base library's class of an element: of a primitive, of String or of Object; `None` where it lacks it, and where the element
    /// has none.
    pub fn basic(&self, elem: Elem) -> Option<TypeAt>
        ensures { option_map id_of result ≡ (kept_in self.now).basic elem }
    {
        self.basic.class(elem)
    }

    /// The base library's class of arrays; `None` where it lacks it.
    pub fn array(&self) -> Option<TypeAt>
        ensures { option_map id_of result ≡ (kept_in self.now).array }
    {
        self.basic.array
    }
}
