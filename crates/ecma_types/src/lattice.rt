//! What one instruction's typing needs to know of a world's types.

ghost use Rattle.std.specs.Prelude.{◌≡◌, Bool, Option, IfOk};
ghost use Rattle.ecma_types.specs.declared.stack.PlaceType.{PlaceType};
ghost use Rattle.ecma_types.specs.declared.stack.StackType.{StackType};

use crate::stack::{PlaceType, StackType};
use plain_types::fault::NoMemory;
use std::alloc::Global;

/// The types of a world with their order (ECMA-335 I.8.7, III.1.8.1.3).
pub trait Lattice {
    /// The first is assignable to the second.
    ghost is_assignable: { Self → StackType → StackType → Bool };

    /// What may stand for both of two types where two paths join: a type in one of its spellings, or none.
    ghost merges: { Self → StackType → StackType → Option StackType → Type 0 };

    /// The type on the stack of a value loaded from a place, which void and data types don't have.
    ghost loaded_as: { Self → PlaceType → Option StackType };

    /// Whether a value of the first type may stand where the second is wanted.
    fn assignable(&self, alloc: Global, from: &StackType, to: &StackType) -> Result<bool, NoMemory>
        ensures { IfOk result (λ answer. answer ≡ is_assignable self.now from.now to.now) };

    /// The type that stands for both, where there is one.
    fn merge(
        &self,
        alloc: Global,
        a: &StackType,
        b: &StackType,
    ) -> Result<Option<StackType>, NoMemory>
        ensures { IfOk result (λ both. merges self.now a.now b.now both) };

    /// The type on the stack of a value loaded from a place of this type, and `None` exactly for void and a data type.
    fn loaded(&self, alloc: Global, of: &PlaceType) -> Result<Option<StackType>, NoMemory>
        ensures { IfOk result (λ found. found ≡ loaded_as self.now of.now) };
}
