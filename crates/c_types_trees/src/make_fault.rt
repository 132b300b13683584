//! The fault of making a type or a program of a text that keeps all rules: an array too long for the tree, or no memory.
use std::alloc::AllocError;

/// Why a type or a program isn't made, though no rule is broken.
#[derive(Clone, Copy, Debug, PartialEq, Eq)]
pub enum MakeFault {
    /// An array has 2^32 elements or more, which the tree can't hold.
    Length,
    /// Memory ran out.
    NoMemory,
}

impl From<AllocError> for MakeFault {
    ghost use Rattle.std.specs.Prelude.{◌≡◌};
    ghost use Rattle.c_types_trees.specs.declared.make_fault.MakeFault.TheVariants.{NoMemory};

    ghost from_gives = { λ _ e. e ≡ NoMemory };

    fn from(_error: AllocError) -> MakeFault {
        MakeFault::NoMemory
    }
}
