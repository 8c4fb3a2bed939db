//! The order of a world's types.

ghost use Rattle.std.specs.Prelude.{◌≡◌};
ghost use Rattle.std.specs.Option.{option_map};
ghost use Rattle.classes.specs.Queries.{array};
ghost use Rattle.member_keys.specs.Seen.{class_seen};
ghost use Rattle.class_table.specs.Seen.{classes_seen};
ghost use Rattle.class_order.specs.Types.{AreOrdered};
ghost use Rattle.world_lattice.specs.Order.{Merges, is_assignable, loaded_as};

use crate::spelling::{rowed, spelling};
use class_order::Order;
use ecma_types::lattice::Lattice;
use ecma_types::stack::{PlaceType, StackType};
use member_keys::ClassId;
use place_types::types::loaded;
use plain_types::fault::NoMemory;
use std::alloc::Global;
use std::marker::Model;

/// The types of a world by the order of its classes. A contract sees the table of the classes.
#[derive(Drop)]
pub struct WorldLattice<'t, 'a> {
    order: &'t Order<'t, 'a>,
}

impl<'t, 'a> Model for WorldLattice<'t, 'a> {
    ghost use Rattle.class_table.specs.declared.rows.ClassTable.{ClassTable};
    ghost use Rattle.class_order.specs.Types.{AreOrdered};

    ghost Value = { ClassTable };

    ghost view = { λ l. l.order.now.table.now };

    ghost invariant = { λ l. AreOrdered l.order.now };
}

impl<'t, 'a> WorldLattice<'t, 'a> {
    /// The order of the types of a table's classes.
    pub fn new(order: &'t Order<'t, 'a>) -> Self
        requires { AreOrdered order.now }
        ensures { result ≡ order.now.table.now }
    {
        WorldLattice { order }
    }

    /// The class of arrays; `None` where the base library lacks it.
    pub fn array(&self) -> Option<ClassId>
        ensures { option_map class_seen result ≡ array (classes_seen self.now) }
    {
        self.order.basic.array
    }
}

impl<'t, 'a> Lattice for WorldLattice<'t, 'a> {
    ghost is_assignable = { λ t from to. is_assignable (classes_seen t) from to };

    ghost merges = { λ t a b both. Merges (classes_seen t) a b both };

    ghost loaded_as = { λ _ of. loaded_as of };

    fn assignable(
        &self,
        alloc: Global,
        from: &StackType,
        to: &StackType,
    ) -> Result<bool, NoMemory> {
        cil_types::assignable(alloc, self.order, &rowed(*from), &rowed(*to))
    }

    fn merge(
        &self,
        alloc: Global,
        a: &StackType,
        b: &StackType,
    ) -> Result<Option<StackType>, NoMemory> {
        cil_types::merge(alloc, self.order, &rowed(*a), &rowed(*b))
    }

    fn loaded(&self, _alloc: Global, of: &PlaceType) -> Result<Option<StackType>, NoMemory> {
        match loaded(of) {
            Some(found) => Ok(Some(spelling(found))),
            None => Ok(None),
        }
    }
}
