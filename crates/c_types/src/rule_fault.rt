//! The fault of the whole check of a text: a broken rule, a quantity above its limit, or no memory.
ghost use Rattle.std.specs.Prelude.{◌≡◌};
ghost use Rattle.c_types.specs.Faults.{of_walk, of_making};

use c_tree::LimitName;
use c_types_program::MakeFault;
use c_types_rules::WalkFault;
use std::alloc::AllocError;
use thiserror::Error;

/// Why a text has no program.
#[derive(Clone, Copy, Debug, PartialEq, Eq, Error)]
pub enum RuleFault {
    /// The rule with this number is broken at this line.
    #[error("rule")]
    Rule(u32, u32),
    /// All rules hold, and this quantity is above its number.
    #[error("limit")]
    Limit(LimitName),
    /// Memory ran out.
    #[error("out of memory")]
    NoMemory,
}

impl From<AllocError> for RuleFault {
    ghost use Rattle.c_types.specs.declared.rule_fault.RuleFault.TheVariants.{NoMemory};

    ghost from_gives = { λ _ e. e ≡ NoMemory };

    fn from(_error: AllocError) -> RuleFault {
        RuleFault::NoMemory
    }
}

/// A broken rule stays the one that it is.
impl From<WalkFault> for RuleFault {
    ghost from_gives = { λ fault e. e ≡ of_walk fault };

    fn from(fault: WalkFault) -> RuleFault {
        match fault {
            WalkFault::Rule(number, line) => RuleFault::Rule(number, line),
            WalkFault::NoMemory => RuleFault::NoMemory,
        }
    }
}

/// A length that the tree can't hold is above its limit.
impl From<MakeFault> for RuleFault {
    ghost from_gives = { λ fault e. e ≡ of_making fault };

    fn from(fault: MakeFault) -> RuleFault {
        match fault {
            MakeFault::Length => RuleFault::Limit(LimitName::ArrayLength),
            MakeFault::NoMemory => RuleFault::NoMemory,
        }
    }
}
