//! What a call asks for, as plain data, and how its words are read.
ghost use Rattle.std.specs.Option.{unwrap_or};
ghost use Rattle.std.specs.String.{string_bytes};
ghost use Rattle.std.specs.Prelude.{◌≡◌, ◌<◌, ◌^◌, ◌∷◌, [], drop, IfOk, IfSome, MatchOption, MatchResult, All};
ghost use Rattle.std.specs.Str.{IsUtf8};
ghost use Rattle.clap.specs.Values.{kind_of};
ghost use Rattle.call_words.specs.Grammar.{IsInGrammar, IsNumber, command_of, decimal_from};
ghost use Rattle.call_words.specs.Requests.{Asked, CanAsk, IsRead, asked_by, asks, input_in, number_or, numbers_of, steps_in};
ghost use Rattle.call_words.specs.Clap.{others_found, value_found};
ghost use Rattle.call_words.specs.Forms.{texts};

use crate::deciding::{decimal, is_in_form, is_same};
use crate::grammar::{Command, form_of};
use crate::reading::read;
use crate::sorting::sort;
use clap::error::ErrorKind;
use clap::{ArgMatches, Error};
use edge_io::Text;
use std::alloc::{AllocError, Global};
use thiserror::Error as ErrorText;

// How many acts a run may have where that isn't said.
const MAX_ACTS: u64 = 10_000_000;

/// What a call asks for.
#[derive(Debug, Drop)]
pub enum Request {
    /// The slices of the program in a file at these lines, in their order, by so many workers.
    Slice {
        /// The name of the file.
        file: String,
        /// The lines, counted from 1. A line may be above the range of `u32`.
        lines: Vec<u64>,
        /// The number of workers, from 1 to 16.
        workers: u64,
    },
    /// The values at these lines, in a run of the program in a file on the bytes of another one.
    Trace {
        /// The name of the file.
        file: String,
        /// The lines, counted from 1. A line may be above the range of `u32`.
        lines: Vec<u64>,
        /// The name of the file with the input.
        input: String,
        /// How many acts the run may have, from 1 to 1,000,000,000.
        steps: u64,
    },
    /// What a run of the program in a file writes on the bytes of another one.
    Run {
        /// The name of the file.
        file: String,
        /// The name of the file with the input.
        input: String,
        /// How many acts the run may have, from 1 to 1,000,000,000.
        steps: u64,
    },
    /// The dependence graph of the program in a file, by so many workers.
    Graph {
        /// The name of the file.
        file: String,
        /// The number of workers, from 1 to 16.
        workers: u64,
    },
    /// The vertices of that graph that reach the statements on this line, by so many workers.
    Members {
        /// The name of the file.
        file: String,
        /// The line, counted from 1. It may be above the range of `u32`.
        line: u64,
        /// The number of workers, from 1 to 16.
        workers: u64,
    },
    /// The numbers of the slice of a large program that is made from a seed, by so many workers.
    Big {
        /// The seed, from 0 to 2,147,483,647.
        seed: u32,
        /// How many functions the program has beside `main`, from 1 to 1,000.
        size: u32,
        /// The number of workers, from 1 to 16.
        workers: u64,
    },
    /// The vertices of the dependence graph of the program in a file that the statements on this line reach, by so many workers.
    Forward {
        /// The name of the file.
        file: String,
        /// The line, counted from 1. It may be above the range of `u32`.
        line: u64,
        /// The number of workers, from 1 to 16.
        workers: u64,
    },
    /// The vertices of that graph through which the statements on the first line reach those on the second, by so many workers.
    Chop {
        /// The name of the file.
        file: String,
        /// The line where what is looked for begins, counted from 1. It may be above the range of `u32`.
        from: u64,
        /// The line where it ends, likewise.
        to: u64,
        /// The number of workers, from 1 to 16.
        workers: u64,
    },
}

impl Request {
    ghost use Rattle.std.specs.Prelude.{option_map};
    ghost use Rattle.call_words.specs.Requests.{asked_by, file_in, input_of, steps_of};

    /// The name of the file with the program; None where the program is made from a seed.
    pub fn file(&self) -> Option<&str>
        ensures { option_map (λ s. s.now) result ≡ file_in (asked_by self.now) }
    {
        match self {
            Request::Slice { file, .. } => Some(file.as_str()),
            Request::Trace { file, .. } => Some(file.as_str()),
            Request::Run { file, .. } => Some(file.as_str()),
            Request::Graph { file, .. } => Some(file.as_str()),
            Request::Members { file, .. } => Some(file.as_str()),
            Request::Big { .. } => None,
            Request::Forward { file, .. } => Some(file.as_str()),
            Request::Chop { file, .. } => Some(file.as_str()),
        }
    }

    /// The name of the file with the input, where one is asked for.
    pub fn input(&self) -> Option<&str>
        ensures { option_map (λ s. s.now) result ≡ input_of (asked_by self.now) }
    {
        match self {
            Request::Trace { input, .. } => Some(input.as_str()),
            Request::Run { input, .. } => Some(input.as_str()),
            Request::Slice { .. } => None,
            Request::Graph { .. } => None,
            Request::Members { .. } => None,
            Request::Big { .. } => None,
            Request::Forward { .. } => None,
            Request::Chop { .. } => None,
        }
    }

    /// How many acts a run may have, 0 where none is asked for.
    pub fn steps(&self) -> u64
        ensures { result ≡ steps_of (asked_by self.now) }
    {
        match self {
            Request::Trace { steps, .. } => *steps,
            Request::Run { steps, .. } => *steps,
            Request::Slice { .. } => 0,
            Request::Graph { .. } => 0,
            Request::Members { .. } => 0,
            Request::Big { .. } => 0,
            Request::Forward { .. } => 0,
            Request::Chop { .. } => 0,
        }
    }
}

/// Why words make no request.
#[derive(Clone, Copy, Debug, PartialEq, Eq, ErrorText)]
pub enum WordsFault {
    /// They are outside the grammar.
    #[error("the words are outside the grammar")]
    Usage,
    /// There was no memory for what they ask for.
    #[error("out of memory")]
    NoMemory,
}

impl From<AllocError> for WordsFault {
    ghost use Rattle.call_words.specs.declared.request.WordsFault.TheVariants.{NoMemory};

    ghost from_gives = { λ _ fault. fault ≡ NoMemory };

    fn from(_: AllocError) -> WordsFault {
        WordsFault::NoMemory
    }
}

/// What the words of a call ask for; the first of them is the command's name.
///
/// Err: `Usage` exactly where they are outside the grammar, but that `NoMemory` may come at any time.
pub fn read_words(alloc: Global, words: &[Text]) -> Result<Request, WordsFault>
    ensures read { MatchResult result (IsRead words.now) (λ fault. fault ≡ WordsFault.Usage → IsInGrammar words.now → ⊥) }
{
    let Some(texts) = texts_of(alloc, words)? else {
        return Err(WordsFault::Usage);
    };
    let Some((name, rest)) = texts.as_slice().split_first() else {
        return Err(WordsFault::Usage);
    };
    let Some(command) = command_named(name) else {
        return Err(WordsFault::Usage);
    };
    let form = form_of(command);
    let sorted = sort(alloc, rest)?;
    if !is_in_form(&form, &sorted) {
        return Err(WordsFault::Usage);
    }
    match read(alloc, &form, texts.as_slice()) {
        Ok(matches) => Ok(request_of(alloc, command, &matches)?),
        Err(error) => Err(fault_of(&error)),
    }
}

// The words as texts, `None` where one of them isn't UTF-8. Err: no memory was left.
fn texts_of(alloc: Global, words: &[Text]) -> Result<Option<Vec<&str>>, AllocError>
    ensures { IfOk result (λ found. MatchOption found (All IsUtf8 words.now → ⊥) (λ v. (texts v.items ≡ words.now) × All IsUtf8 words.now)) }
{
    let mut found = Vec::new(alloc);
    for word in words {
        let Ok(text) = std::str::from_utf8(word.bytes()) else {
            return Ok(None);
        };
        found.push(text)?;
    }
    Ok(Some(found))
}

// The command with this name.
fn command_named(name: &str) -> Option<Command>
    ensures { result ≡ command_of (name.now ∷ []) }
{
    if is_same("slice", name) {
        Some(Command::Slice)
    } else if is_same("trace", name) {
        Some(Command::Trace)
    } else if is_same("run", name) {
        Some(Command::Run)
    } else if is_same("graph", name) {
        Some(Command::Graph)
    } else if is_same("members", name) {
        Some(Command::Members)
    } else if is_same("big", name) {
        Some(Command::Big)
    } else if is_same("forward", name) {
        Some(Command::Forward)
    } else if is_same("chop", name) {
        Some(Command::Chop)
    } else {
        None
    }
}

// An error for words that the command takes says that there was no memory.
fn fault_of(error: &Error) -> WordsFault
    requires { kind_of error.now ≡ ErrorKind.OutOfMemory }
    ensures { result ≡ WordsFault.NoMemory }
{
    match error.kind() {
        ErrorKind::OutOfMemory => WordsFault::NoMemory,
        _ => WordsFault::Usage,
    }
}

// The request that a command's other words and options make.
fn request_of(
    alloc: Global,
    command: Command,
    matches: &ArgMatches<'_>,
) -> Result<Request, AllocError>
    requires { CanAsk command (others_found matches.now) (value_found matches.now) }
    ensures { IfOk result (λ r. asked_by r ≡ asks command (others_found matches.now) (value_found matches.now)) }
{
    match matches.get_strs("words") {
        Some(others) => made(alloc, command, others, matches),
        None => made(alloc, command, &[], matches),
    }
}

// The request of these other words, with the options that were found.
fn made(
    alloc: Global,
    command: Command,
    others: &[&str],
    matches: &ArgMatches<'_>,
) -> Result<Request, AllocError>
    requires { CanAsk command (texts others.now) (value_found matches.now) }
    ensures { IfOk result (λ r. asked_by r ≡ asks command (texts others.now) (value_found matches.now)) }
{
    match command {
        Command::Slice => {
            let file = String::from_str(alloc, others[0])?;
            let lines = numbers(alloc, &others[1..])?;
            let workers = number_of(matches, "workers", 4);
            Ok(Request::Slice {
                file,
                lines,
                workers,
            })
        }
        Command::Trace => {
            let file = String::from_str(alloc, others[0])?;
            traced(alloc, file, others, matches)
        }
        Command::Run => {
            let file = String::from_str(alloc, others[0])?;
            let input = value_of(alloc, matches, "input")?;
            let steps = number_of(matches, "steps", MAX_ACTS);
            Ok(Request::Run { file, input, steps })
        }
        Command::Graph => {
            let file = String::from_str(alloc, others[0])?;
            let workers = number_of(matches, "workers", 4);
            Ok(Request::Graph { file, workers })
        }
        Command::Members => {
            let file = String::from_str(alloc, others[0])?;
            let line = decimal(others[1].as_bytes());
            let workers = number_of(matches, "workers", 4);
            Ok(Request::Members {
                file,
                line,
                workers,
            })
        }
        Command::Big => {
            let seed = small(others[0]);
            let size = small(others[1]);
            let workers = number_of(matches, "workers", 4);
            Ok(Request::Big {
                seed,
                size,
                workers,
            })
        }
        Command::Forward => {
            let file = String::from_str(alloc, others[0])?;
            let line = decimal(others[1].as_bytes());
            let workers = number_of(matches, "workers", 4);
            Ok(Request::Forward {
                file,
                line,
                workers,
            })
        }
        Command::Chop => {
            let file = String::from_str(alloc, others[0])?;
            let from = decimal(others[1].as_bytes());
            let to = decimal(others[2].as_bytes());
            let workers = number_of(matches, "workers", 4);
            Ok(Request::Chop {
                file,
                from,
                to,
                workers,
            })
        }
    }
}

// The value of a number of 32 bits.
fn small(word: &str) -> u32
    requires number { IsNumber word.now }
    requires below { decimal_from 0 word.now < 2 ^ 32 }
    ensures { result ≡ decimal_from 0 word.now }
{
    decimal(word.as_bytes()) as u32
}

// The request of a trace of this file.
fn traced(
    alloc: Global,
    file: String,
    others: &[&str],
    matches: &ArgMatches<'_>,
) -> Result<Request, AllocError>
    requires { CanAsk Command.Trace (texts others.now) (value_found matches.now) }
    ensures { IfOk result (λ r. asked_by r ≡ Asked.trace (string_bytes file) (numbers_of (drop 1 (texts others.now))) (input_in (value_found matches.now)) (steps_in (value_found matches.now))) }
{
    let lines = numbers(alloc, &others[1..])?;
    let input = value_of(alloc, matches, "input")?;
    let steps = number_of(matches, "steps", MAX_ACTS);
    Ok(Request::Trace {
        file,
        lines,
        input,
        steps,
    })
}

// The value that an option has, or an empty one where it is absent. Err: no memory was left.
fn value_of(alloc: Global, matches: &ArgMatches<'_>, name: &str) -> Result<String, AllocError>
    ensures { IfOk result (λ value. string_bytes value ≡ unwrap_or (value_found matches.now name.now) []) }
{
    match matches.get_str(name) {
        Some(value) => String::from_str(alloc, value),
        None => Ok(String::new(alloc)),
    }
}

// The number that an option has, or this one where it is absent.
fn number_of(matches: &ArgMatches<'_>, name: &str, absent: u64) -> u64
    requires { IfSome (value_found matches.now name.now) IsNumber }
    ensures { result ≡ number_or absent (value_found matches.now name.now) }
{
    match matches.get_str(name) {
        Some(value) => decimal(value.as_bytes()),
        None => absent,
    }
}

// The values of these numbers.
#[tactic(auto, using(crate::proofs::Places::number_at))]
fn numbers(alloc: Global, words: &[&str]) -> Result<Vec<u64>, AllocError>
    requires { All IsNumber (texts words.now) }
    ensures { IfOk result (λ found. found.items ≡ numbers_of (texts words.now)) }
{
    let mut found = Vec::new(alloc);
    for word in words {
        found.push(decimal(word.as_bytes()))?;
    }
    Ok(found)
}
