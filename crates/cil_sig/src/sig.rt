//! What a signature says.

ghost use Rattle.std.specs.Prelude.{◌≡◌};
ghost use Rattle.cil_sig.specs.declared.sig.SigFault.TheVariants.{NoMemory};

use plain_types::elem::Elem;
use plain_types::list::Items;
use std::alloc::{AllocError, AllocFailed};

/// A type in a signature.
#[derive(Clone, Copy, Debug, PartialEq, Eq)]
pub struct SigType {
    /// A managed pointer to the type that the other fields name; only parameters can be one.
    pub pointer: bool,
    /// How many array brackets stand round the element, at most 255.
    pub ranks: u16,
    pub elem: Elem,
    /// The coded TypeDef or TypeRef (II.23.2.8) where the element is `Class` or `Value`, else 0.
    pub token: u32,
}

/// The signature of a method.
#[derive(Debug, Drop)]
pub struct MethodSig {
    /// Whether the first argument is `this`, which the parameters don't have.
    pub this: bool,
    /// The type of the result, with the element `Void` where there is none.
    pub returns: SigType,
    pub params: Items<SigType>,
}

/// Why a signature wasn't read.
#[derive(Clone, Copy, Debug, PartialEq, Eq)]
pub enum SigFault {
    /// The grammar has no case at this offset, counted from the first byte of the blob.
    Bad { offset: u32 },
    /// The host has no memory left.
    NoMemory,
}

impl From<AllocError> for SigFault {
    ghost from_gives = { λ _ fault. fault ≡ NoMemory };

    fn from(_error: AllocError) -> SigFault {
        SigFault::NoMemory
    }
}

impl<T: Drop> From<AllocFailed<T>> for SigFault {
    ghost from_gives = { λ _ fault. fault ≡ NoMemory };

    fn from(_error: AllocFailed<T>) -> SigFault {
        SigFault::NoMemory
    }
}
