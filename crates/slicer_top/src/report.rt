//! The lines on err: the line and the status of each refusal.
ghost use Rattle.std.specs.Prelude.{◌≡◌, IfOk, IsErr, MatchResult, length};
ghost use Rattle.call_words.specs.Requests.{asked_by};
ghost use Rattle.slicer_top.specs.Lines as lines;
ghost use Rattle.slicer_top.specs.Reports as spec;
ghost use Rattle.slicer_top.specs.Reports.{PutsLine, IsReported};

use crate::refusal::Refusal;
use crate::status::Status;
use c_tree::StatementId;
use call_words::Request;
use edge_io::{PutFailed, Sink, Text};
use slice_engine::{LexFault, LimitName, ParseFault, RuleFault};
use std::alloc::{AllocError, Global};

/// Puts the line of a refusal, and answers its status. Where there is no memory for the line, that is told instead.
pub fn report<E: Sink>(alloc: Global, refusal: &Refusal, request: &Request, err: &mut E) -> Status
    ensures told { IsReported (E.faults err.old) (E.faults err.new) (E.written err.old) (E.written err.new)
        (asked_by request.now) refusal.now result }
    ensures taken { refusal.now ≡ Refusal.NoMemory → E.takes err.old 14
        → (result ≡ Status.NoMemory) × (E.faults err.new ≡ E.faults err.old) }
{
    tell_made(line_of(alloc, refusal, request), status_of(refusal), err)
}

// Puts a line that was made, or where there was no memory for it, tells that.
fn tell_made<E: Sink>(made: Result<Text, AllocError>, status: Status, err: &mut E) -> Status
    ensures told { MatchResult made
        (λ line. PutsLine (E.faults err.old) (E.faults err.new) (E.written err.old) (E.written err.new) status line result)
        (λ _. PutsLine (E.faults err.old) (E.faults err.new) (E.written err.old) (E.written err.new) Status.NoMemory lines.out_of_memory result) }
    ensures taken { IsErr made → E.takes err.old 14
        → (result ≡ Status.NoMemory) × (E.faults err.new ≡ E.faults err.old) }
{
    match made {
        Ok(line) => tell(line.bytes(), status, err),
        Err(AllocError) => tell_no_memory(err),
    }
}

/// Puts on `err` that there was no memory, and answers that, or `WriteFault` where the put fails.
pub fn tell_no_memory<E: Sink>(err: &mut E) -> Status
    ensures told { PutsLine (E.faults err.old) (E.faults err.new) (E.written err.old) (E.written err.new)
        Status.NoMemory lines.out_of_memory result }
    ensures taken { E.takes err.old 14 → (result ≡ Status.NoMemory) × (E.faults err.new ≡ E.faults err.old) }
{
    tell(b"out of memory\n", Status::NoMemory, err)
}

/// Puts one line, and answers this status, or `WriteFault` where the put fails.
pub fn tell<E: Sink>(line: &[u8], status: Status, err: &mut E) -> Status
    ensures told { PutsLine (E.faults err.old) (E.faults err.new) (E.written err.old) (E.written err.new) status line.now result }
    ensures taken { E.takes err.old (length line.now) → (result ≡ status) × (E.faults err.new ≡ E.faults err.old) }
{
    match err.put(line) {
        Ok(()) => status,
        Err(PutFailed) => Status::WriteFault,
    }
}

// ---- statuses

fn status_of(refusal: &Refusal) -> Status
    ensures { result ≡ spec.status_of refusal.now }
{
    match refusal {
        Refusal::Unreadable => Status::ReadFault,
        Refusal::TooLong => Status::TooLong,
        Refusal::NoInput => Status::ReadFault,
        Refusal::LongInput => Status::TooLong,
        Refusal::Lex(fault) => lex_status(fault),
        Refusal::Parse(fault) => parse_status(fault),
        Refusal::Check(fault) => rule_status(fault),
        Refusal::Graph(_) => Status::Limit,
        Refusal::TooMany => Status::Limit,
        Refusal::NoStart(_) => Status::Refused,
        Refusal::UndefinedAct(_, _) => Status::Undefined,
        Refusal::MoreSteps => Status::Steps,
        Refusal::NoMemory => Status::NoMemory,
    }
}

fn lex_status(fault: &LexFault) -> Status
    ensures { result ≡ spec.lex_status fault.now }
{
    match fault {
        LexFault::BadByte(_) => Status::Refused,
        LexFault::BadNumber(_) => Status::Refused,
        LexFault::OpenComment(_) => Status::Refused,
        LexFault::NoMemory => Status::NoMemory,
    }
}

fn parse_status(fault: &ParseFault) -> Status
    ensures { result ≡ spec.parse_status fault.now }
{
    match fault {
        ParseFault::LeftOut(_, _) => Status::Refused,
        ParseFault::Syntax(_) => Status::Refused,
        ParseFault::Nesting(_) => Status::Limit,
        ParseFault::NoMemory => Status::NoMemory,
    }
}

fn rule_status(fault: &RuleFault) -> Status
    ensures { result ≡ spec.rule_status fault.now }
{
    match fault {
        RuleFault::Rule(_, _) => Status::Refused,
        RuleFault::Limit(_) => Status::Limit,
        RuleFault::NoMemory => Status::NoMemory,
    }
}

// ---- lines

// The line of a refusal; for one that says that there was no memory none is made.
fn line_of(alloc: Global, refusal: &Refusal, request: &Request) -> Result<Text, AllocError>
    ensures made { IfOk result (λ made. made ≡ spec.words_of (asked_by request.now) refusal.now) }
    ensures none { refusal.now ≡ Refusal.NoMemory → IsErr result }
{
    match refusal {
        Refusal::Unreadable => unreadable_line(alloc, file_of(request)),
        Refusal::TooLong => too_long_line(alloc, file_of(request)),
        Refusal::NoInput => unreadable_line(alloc, input_of(request)),
        Refusal::LongInput => too_long_line(alloc, input_of(request)),
        Refusal::Lex(fault) => lex_line(alloc, fault),
        Refusal::Parse(fault) => parse_line(alloc, fault),
        Refusal::Check(fault) => rule_line(alloc, fault),
        Refusal::Graph(name) => limit_line(alloc, *name),
        Refusal::TooMany => limit_line(alloc, LimitName::Criteria),
        Refusal::NoStart(line) => numbered(alloc, *line, b"no statement starts here"),
        Refusal::UndefinedAct(at, statement) => undefined_line(alloc, *at, *statement),
        Refusal::MoreSteps => steps_line(alloc, request.steps()),
        Refusal::NoMemory => Err(AllocError),
    }
}

// The name of the file with the text; an empty one where no file has it.
fn file_of(request: &Request) -> &str
    ensures { result.now ≡ spec.file_name (asked_by request.now) }
{
    request.file().unwrap_or("")
}

// The name of the file with the input; an empty one where none is asked for.
fn input_of(request: &Request) -> &str
    ensures { result.now ≡ spec.input_name (asked_by request.now) }
{
    request.input().unwrap_or("")
}

fn unreadable_line(alloc: Global, file: &str) -> Result<Text, AllocError>
    ensures { IfOk result (λ made. made ≡ lines.cannot_read file.now) }
{
    let mut line = Text::from_slice(alloc, b"cannot read ")?;
    line.append(file.as_bytes())?;
    line.append(b"\n")?;
    Ok(line)
}

fn too_long_line(alloc: Global, file: &str) -> Result<Text, AllocError>
    ensures { IfOk result (λ made. made ≡ lines.too_long file.now) }
{
    let mut line = Text::from_slice(alloc, file.as_bytes())?;
    line.append(b" is longer than 1048576 bytes\n")?;
    Ok(line)
}

fn lex_line(alloc: Global, fault: &LexFault) -> Result<Text, AllocError>
    ensures { IfOk result (λ made. made ≡ spec.lex_line fault.now) }
{
    match fault {
        LexFault::BadByte(at) => numbered(alloc, u64::from(*at), b"bad byte"),
        LexFault::BadNumber(at) => numbered(alloc, u64::from(*at), b"bad number"),
        LexFault::OpenComment(at) => numbered(alloc, u64::from(*at), b"open comment"),
        LexFault::NoMemory => Err(AllocError),
    }
}

fn parse_line(alloc: Global, fault: &ParseFault) -> Result<Text, AllocError>
    ensures { IfOk result (λ made. made ≡ spec.parse_line fault.now) }
{
    match fault {
        ParseFault::LeftOut(token, at) => left_out_line(alloc, token.bytes(), *at),
        ParseFault::Syntax(at) => numbered(alloc, u64::from(*at), b"syntax"),
        ParseFault::Nesting(_) => limit_line(alloc, LimitName::Nesting),
        ParseFault::NoMemory => Err(AllocError),
    }
}

fn rule_line(alloc: Global, fault: &RuleFault) -> Result<Text, AllocError>
    ensures { IfOk result (λ made. made ≡ spec.rule_line fault.now) }
{
    match fault {
        RuleFault::Rule(number, at) => broken_line(alloc, *number, *at),
        RuleFault::Limit(name) => limit_line(alloc, *name),
        RuleFault::NoMemory => Err(AllocError),
    }
}

fn left_out_line(alloc: Global, token: &[u8], at: u32) -> Result<Text, AllocError>
    ensures { IfOk result (λ made. made ≡ lines.left_out at token.now) }
{
    let mut told = Text::from_slice(alloc, b"left out: ")?;
    told.append(token)?;
    numbered(alloc, u64::from(at), told.bytes())
}

fn broken_line(alloc: Global, number: u32, at: u32) -> Result<Text, AllocError>
    ensures { IfOk result (λ made. made ≡ lines.rule at number) }
{
    let digits = number.to_string(alloc)?;
    let mut told = Text::from_slice(alloc, b"rule ")?;
    told.append(digits.as_bytes())?;
    numbered(alloc, u64::from(at), told.bytes())
}

fn undefined_line(alloc: Global, at: u32, statement: StatementId) -> Result<Text, AllocError>
    ensures { IfOk result (λ made. made ≡ lines.undefined_act at statement) }
{
    let digits = statement.to_string(alloc)?;
    let mut told = Text::from_slice(alloc, b"undefined act in statement ")?;
    told.append(digits.as_bytes())?;
    numbered(alloc, u64::from(at), told.bytes())
}

fn steps_line(alloc: Global, steps: u64) -> Result<Text, AllocError>
    ensures { IfOk result (λ made. made ≡ lines.more_steps steps) }
{
    let digits = steps.to_string(alloc)?;
    let mut line = Text::from_slice(alloc, b"more than ")?;
    line.append(digits.as_bytes())?;
    line.append(b" steps\n")?;
    Ok(line)
}

fn limit_line(alloc: Global, name: LimitName) -> Result<Text, AllocError>
    ensures { IfOk result (λ made. made ≡ lines.limit name) }
{
    match name {
        LimitName::Nesting => Text::from_slice(alloc, b"limit: nesting\n"),
        LimitName::ArrayLength => Text::from_slice(alloc, b"limit: array length\n"),
        LimitName::ObjectCells => Text::from_slice(alloc, b"limit: object cells\n"),
        LimitName::Locations => Text::from_slice(alloc, b"limit: locations\n"),
        LimitName::Vertices => Text::from_slice(alloc, b"limit: vertices\n"),
        LimitName::FactWords => Text::from_slice(alloc, b"limit: fact words\n"),
        LimitName::Criteria => Text::from_slice(alloc, b"limit: criteria\n"),
    }
}

// What is told of a line of the text.
fn numbered(alloc: Global, at: u64, told: &[u8]) -> Result<Text, AllocError>
    ensures { IfOk result (λ made. made ≡ lines.numbered at told.now) }
{
    let digits = at.to_string(alloc)?;
    let mut line = Text::from_slice(alloc, digits.as_bytes())?;
    line.append(b": ")?;
    line.append(told)?;
    line.append(b"\n")?;
    Ok(line)
}
