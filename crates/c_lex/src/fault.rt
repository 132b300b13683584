//! The faults for which a text has no tokens.
use std::alloc::AllocError;
use thiserror::Error;

/// Why a text has no tokens, each with its line (ISO C99 6.4).
#[derive(Clone, Copy, Debug, PartialEq, Eq, Error)]
pub enum LexFault {
    /// A byte that begins no token, a quote whose character or string is none, or a joined line end
    /// where none may stand.
    #[error("bad byte")]
    BadByte(u32),
    /// A number that is no constant, or one that no type holds.
    #[error("bad number")]
    BadNumber(u32),
    /// A `/*` that isn't closed.
    #[error("open comment")]
    OpenComment(u32),
    /// Memory ran out.
    #[error("out of memory")]
    NoMemory,
}

impl From<AllocError> for LexFault {
    ghost use Rattle.std.specs.Prelude.{◌≡◌};
    ghost use Rattle.c_lex.specs.declared.fault.LexFault.TheVariants.{NoMemory};

    ghost from_gives = { λ _ e. e ≡ NoMemory };

    fn from(_error: AllocError) -> LexFault {
        LexFault::NoMemory
    }
}
