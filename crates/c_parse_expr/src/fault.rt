//! Why reading stops, with how many tokens were left there.
ghost use Rattle.std.specs.Prelude.{◌≡◌};
ghost use Rattle.c_parse_expr.specs.declared.fault.Stop.TheVariants.{Memory};

use std::alloc::AllocError;

/// Why nothing is read, with how many tokens were left there.
#[derive(Debug, Drop)]
pub enum Stop {
    /// Memory ran out.
    Memory,
    /// No tree goes on there.
    Syntax(usize),
    /// The tokens nest deeper than allowed.
    Deep(usize),
}

impl From<AllocError> for Stop {
    ghost from_gives = { λ _ e. e ≡ Memory };

    fn from(_error: AllocError) -> Stop {
        Stop::Memory
    }
}
