//! The fault of the walk over a text's rules: a broken rule with the line of its phrase, or no memory.
use std::alloc::AllocError;

/// Why a text isn't accepted.
#[derive(Clone, Copy, Debug, PartialEq, Eq)]
pub enum WalkFault {
    /// The rule with the first number is broken at the line that is the second.
    Rule(u32, u32),
    /// Memory ran out.
    NoMemory,
}

impl From<AllocError> for WalkFault {
    ghost use Rattle.std.specs.Prelude.{◌≡◌};
    ghost use Rattle.c_types_rules.specs.declared.walk_fault.WalkFault.TheVariants.{NoMemory};

    ghost from_gives = { λ _ e. e ≡ NoMemory };

    fn from(_error: AllocError) -> WalkFault {
        WalkFault::NoMemory
    }
}
