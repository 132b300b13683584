//! Why a program has no graph: a quantity above its limit, or no memory.
use c_tree::LimitName;
use std::alloc::AllocError;
use thiserror::Error;

/// Why locations, vertices or the graph of a program aren't made.
#[derive(Clone, Copy, Debug, PartialEq, Eq, Error)]
pub enum GraphFault {
    /// This quantity is above its number.
    #[error("limit")]
    Limit(LimitName),
    /// Memory ran out.
    #[error("out of memory")]
    NoMemory,
}

impl From<AllocError> for GraphFault {
    ghost use Rattle.std.specs.Prelude.{◌≡◌};
    ghost use Rattle.dep_model.specs.declared.graph_fault.GraphFault.TheVariants.{NoMemory};

    ghost from_gives = { λ _ e. e ≡ NoMemory };

    fn from(_error: AllocError) -> GraphFault {
        GraphFault::NoMemory
    }
}
