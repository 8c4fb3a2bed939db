//! The instructions of a method of a world.

use cil_world::World;
use code_places::Listing;
use ecma_types::stack::PlaceType;
use world_lattice::WorldLattice;

/// The instructions of a method, with what its world and its signatures tell of it. Rows of types count from 1.
#[derive(Drop)]
pub struct MethodSteps<'m, 'a> {
    pub world: &'m World<'a>,
    /// The number of its file, from 0.
    pub file: u16,
    pub listing: &'m Listing<'a>,
    /// The order of the world's types.
    pub lattice: &'m WorldLattice<'m, 'a>,
    /// The types of its arguments, with `this` first.
    pub arguments: &'m [PlaceType],
    /// The types of its locals.
    pub locals: &'m [PlaceType],
    /// The type of its result; void has the element Void.
    pub result: PlaceType,
    /// System.Exception.
    pub exception: PlaceType,
}
