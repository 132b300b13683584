//! The reasons why a text isn't read, from its tokens to the rules that its tree must keep.
ghost use Rattle.std.specs.Prelude.{◌≡◌};
ghost use Rattle.c_reader.specs.Faults.{of_lexer, of_parser, of_check};

use c_lex::LexFault;
use c_parse::ParseFault;
use c_types::RuleFault;
use thiserror::Error;

/// Why a text isn't read. No inner fault is `NoMemory`.
#[derive(Debug, Error, Drop)]
pub enum ReadRefusal {
    /// The text has no tokens.
    #[error("{0}")]
    Lex(LexFault),
    /// Its tokens aren't in the grammar, or nest deeper than 100.
    #[error("{0}")]
    Parse(ParseFault),
    /// Its tree breaks a rule, or an array or an object is too large.
    #[error("{0}")]
    Check(RuleFault),
    /// Memory ran out.
    #[error("out of memory")]
    NoMemory,
}

impl From<LexFault> for ReadRefusal {
    ghost from_gives = { λ fault refusal. refusal ≡ of_lexer fault };

    fn from(fault: LexFault) -> ReadRefusal {
        match fault {
            LexFault::NoMemory => ReadRefusal::NoMemory,
            fault => ReadRefusal::Lex(fault),
        }
    }
}

impl From<ParseFault> for ReadRefusal {
    ghost from_gives = { λ fault refusal. refusal ≡ of_parser fault };

    fn from(fault: ParseFault) -> ReadRefusal {
        match fault {
            ParseFault::NoMemory => ReadRefusal::NoMemory,
            fault => ReadRefusal::Parse(fault),
        }
    }
}

impl From<RuleFault> for ReadRefusal {
    ghost from_gives = { λ fault refusal. refusal ≡ of_check fault };

    fn from(fault: RuleFault) -> ReadRefusal {
        match fault {
            RuleFault::NoMemory => ReadRefusal::NoMemory,
            fault => ReadRefusal::Check(fault),
        }
    }
}
