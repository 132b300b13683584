//! Runs of a program: what they write, and the values at lines.
ghost use Rattle.std.specs.Prelude.{◌≡◌, ◌∷◌, [], ℕ, List, IfOk, MatchResult};
ghost use Rattle.c_meaning.specs.Meaning.{Trace, Undefined, meaning};
ghost use Rattle.call_words.specs.Requests.{Asked};
ghost use Rattle.run_text.specs.Answers as answers;
ghost use Rattle.run_text.specs.Lines.{trace_words};
ghost use Rattle.slicer_top.specs.Runs.{IsRunFault};
ghost use Rattle.slicer_top.specs.Reports.{IsReasonOf};
ghost use Rattle.slicer_top.specs.Slices.{AreWrittenOf, IsOneText};

use crate::criteria::lines_with_starts;
use crate::refusal::Refusal;
use c_tree::{Program, StatementId};
use edge_io::Text;
use run_text::{RunFault, run_output, start_line, trace_text};
use std::alloc::{AllocError, Global};

/// What a run of a program on an input writes, within so many acts, or why there is nothing.
pub(crate) fn ran(
    alloc: Global,
    program: &Program,
    input: &[u8],
    steps: u64,
) -> Result<Vec<Text>, Refusal>
    ensures { MatchResult result (λ texts. IsOneText (answers.EndsWith (λ (t : Trace). t.output) (meaning steps program.now input.now)) texts.items)
        (IsRunFault program.now (meaning steps program.now input.now)) }
{
    match run_output(alloc, program, input, steps) {
        Ok(text) => one(alloc, text),
        Err(fault) => Err(refusal_of(alloc, program, fault)),
    }
}

/// The values at the statements on these lines, at most 64, in such a run, or why there are none.
pub(crate) fn trace_texts(
    alloc: Global,
    program: &Program,
    lines: &[u64],
    input: &[u8],
    steps: u64,
) -> Result<Vec<Text>, Refusal>
    ensures { (file name : List ℕ) → MatchResult result
        (λ texts. AreWrittenOf program.now (Asked.trace file lines.now name steps) input.now texts.items)
        (IsReasonOf program.now (Asked.trace file lines.now name steps) input.now) }
{
    let found = lines_with_starts(alloc, program, lines)?;
    traced(alloc, program, found.as_slice(), input, steps)
}

// The values at the statements on some lines.
fn traced(
    alloc: Global,
    program: &Program,
    lines: &[u32],
    input: &[u8],
    steps: u64,
) -> Result<Vec<Text>, Refusal>
    ensures { MatchResult result (λ texts. IsOneText (answers.EndsWith (trace_words program.now lines.now) (meaning steps program.now input.now)) texts.items)
        (IsRunFault program.now (meaning steps program.now input.now)) }
{
    match trace_text(alloc, program, lines, input, steps) {
        Ok(text) => one(alloc, text),
        Err(fault) => Err(refusal_of(alloc, program, fault)),
    }
}

// What a fault of a run of a program refuses.
fn refusal_of(alloc: Global, program: &Program, fault: RunFault) -> Refusal
    ensures { (steps : ℕ) (input : List ℕ) → answers.IsCause (meaning steps program.now input) fault
        → IsRunFault program.now (meaning steps program.now input) result }
{
    match fault {
        RunFault::Undefined(statement) => undefined_act(alloc, program, statement),
        RunFault::Steps => Refusal::MoreSteps,
        RunFault::NoMemory => Refusal::NoMemory,
    }
}

// What an undefined act of a statement refuses, with the line on which the statement starts.
fn undefined_act(alloc: Global, program: &Program, statement: StatementId) -> Refusal
    ensures { (steps : ℕ) (input : List ℕ) (trace : Trace) → meaning steps program.now input ≡ Undefined statement trace
        → IsRunFault program.now (meaning steps program.now input) result }
{
    match start_line(alloc, program, statement) {
        Ok(line) => Refusal::UndefinedAct(line, statement),
        Err(AllocError) => Refusal::NoMemory,
    }
}

// A list of one text, or that there is no memory for it.
fn one(alloc: Global, text: Text) -> Result<Vec<Text>, Refusal>
    ensures { MatchResult result (λ texts. texts.items ≡ text ∷ []) (λ refusal. refusal ≡ Refusal.NoMemory) }
{
    let texts = alone(alloc, text)?;
    Ok(texts)
}

/// A list of one text. Err: no memory was left.
pub(crate) fn alone(alloc: Global, text: Text) -> Result<Vec<Text>, AllocError>
    ensures { IfOk result (λ texts. texts.items ≡ text ∷ []) }
{
    let mut texts = Vec::new(alloc);
    texts.push(text)?;
    Ok(texts)
}
