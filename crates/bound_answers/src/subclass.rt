//! A bound set as exceptions and natives ask it.

use crate::set::BoundSet;
use board_types::board::{BoardType, ClauseAt, TypeAt};
use board_types::subclass::Subclass;

impl<'s, 'w, 't, 'a> Subclass for BoundSet<'s, 'w, 't, 'a> {
    ghost use Rattle.set_names.specs.Names.{seen_all};
    ghost use Rattle.bound_answers.specs.Told as told;
    ghost use Rattle.bound_answers.specs.Names as names;

    ghost sub = { λ s. told.sub (seen_all s) };

    ghost clauses = { λ s. told.clauses (seen_all s) };

    ghost name = { λ s. names.name (seen_all s) };

    ghost bytes = { λ s. told.bytes (seen_all s) };

    fn is_sub(&self, a: TypeAt, b: TypeAt) -> bool {
        crate::answers::is_sub(self, a, b)
    }

    fn clause(&self, method: TypeAt, k: u16) -> Option<ClauseAt> {
        crate::clauses::clause(self, method, k)
    }

    fn name_unit(&self, of: BoardType, k: u32) -> Option<u16> {
        crate::names::name_unit(self, of, k)
    }

    fn data_byte(&self, field: TypeAt, k: u32) -> Option<u8> {
        crate::answers::data_byte(self, field, k)
    }
}
