//! Why a file gives nothing of what is asked, with the faults of fetching, of reading and of the graph as causes.
ghost use Rattle.std.specs.Prelude.{◌≡◌};
ghost use Rattle.slicer_top.specs.declared.refusal.Refusal.TheVariants.{NoMemory};
ghost use Rattle.slicer_top.specs.Refusals as spec;
ghost use Rattle.slicer_top.specs.Refusals.{of_fetch, of_graph, of_reading};

use c_tree::StatementId;
use edge_io::FetchFault;
use slice_engine::{GraphFault, LexFault, LimitName, ParseFault, ReadRefusal, RuleFault};
use std::alloc::AllocError;

/// Why a file gives nothing of what is asked of it. No inner fault is `NoMemory`.
#[derive(Debug, Drop)]
pub enum Refusal {
    /// The file couldn't be read.
    Unreadable,
    /// The file is longer than 1,048,576 bytes.
    TooLong,
    /// The file with the input couldn't be read.
    NoInput,
    /// The file with the input is longer than 1,048,576 bytes.
    LongInput,
    /// The text has no tokens.
    Lex(LexFault),
    /// Its tokens aren't in the grammar, or nest deeper than 100.
    Parse(ParseFault),
    /// Its tree breaks a rule, or an array or an object is too large.
    Check(RuleFault),
    /// This quantity of the program's graph is above its number.
    Graph(LimitName),
    /// More lines are asked for than 64.
    TooMany,
    /// No statement starts on this line, and one starts on each line that was asked for before it.
    NoStart(u64),
    /// An act of the run is undefined: it is of a statement that starts on this line, and has this number.
    UndefinedAct(u32, StatementId),
    /// The run needs more acts than it may have.
    MoreSteps,
    /// There was no memory for the work.
    NoMemory,
}

impl From<AllocError> for Refusal {
    ghost from_gives = { λ _ refusal. refusal ≡ NoMemory };

    fn from(_: AllocError) -> Refusal {
        Refusal::NoMemory
    }
}

impl From<FetchFault> for Refusal {
    ghost from_gives = { λ fault refusal. refusal ≡ of_fetch fault };

    fn from(fault: FetchFault) -> Refusal {
        match fault {
            FetchFault::Failed => Refusal::Unreadable,
            FetchFault::TooLong => Refusal::TooLong,
            FetchFault::NoMemory => Refusal::NoMemory,
        }
    }
}

/// What a fault of the file with the input is.
pub(crate) fn of_input(fault: FetchFault) -> Refusal
    ensures { result ≡ spec.of_input fault }
{
    match fault {
        FetchFault::Failed => Refusal::NoInput,
        FetchFault::TooLong => Refusal::LongInput,
        FetchFault::NoMemory => Refusal::NoMemory,
    }
}

impl From<ReadRefusal> for Refusal {
    ghost from_gives = { λ fault refusal. refusal ≡ of_reading fault };

    fn from(fault: ReadRefusal) -> Refusal {
        match fault {
            ReadRefusal::Lex(fault) => Refusal::Lex(fault),
            ReadRefusal::Parse(fault) => Refusal::Parse(fault),
            ReadRefusal::Check(fault) => Refusal::Check(fault),
            ReadRefusal::NoMemory => Refusal::NoMemory,
        }
    }
}

impl From<GraphFault> for Refusal {
    ghost from_gives = { λ fault refusal. refusal ≡ of_graph fault };

    fn from(fault: GraphFault) -> Refusal {
        match fault {
            GraphFault::Limit(name) => Refusal::Graph(name),
            GraphFault::NoMemory => Refusal::NoMemory,
        }
    }
}
