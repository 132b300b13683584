//! Why a run gives no text.
use c_tree::StatementId;
use std::alloc::AllocError;
use thiserror::Error;

/// Why a run gives no text.
#[derive(Clone, Copy, Debug, PartialEq, Eq, Error)]
pub enum RunFault {
    /// An act of this statement is undefined.
    #[error("undefined act")]
    Undefined(StatementId),
    /// The run needs a further act.
    #[error("a further act")]
    Steps,
    /// Memory ran out.
    #[error("out of memory")]
    NoMemory,
}

impl From<AllocError> for RunFault {
    ghost use Rattle.std.specs.Prelude.{◌≡◌};
    ghost use Rattle.run_text.specs.declared.fault.RunFault.TheVariants.{NoMemory};

    ghost from_gives = { λ _ e. e ≡ NoMemory };

    fn from(_error: AllocError) -> RunFault {
        RunFault::NoMemory
    }
}
