//! What is judged: a world, with what the tests of its rows stand on.
#![tactic(auto)]

use cil_world::World;
use class_checks::Setting;

/// A world, and what the rules of its classes stand on.
#[derive(Drop)]
pub struct Subject<'w, 'a> {
    pub world: &'w World<'a>,
    pub setting: Setting<'w, 'a>,
}
