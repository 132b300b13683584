//! From what a request asks of a file to the texts that are written for it.
ghost use Rattle.std.specs.Prelude.{◌≡◌, ◌∷◌, ◌≤◌, ◌<◌, ℕ, List, [], IfOk, IfErr, IsSomeAnd, MatchResult, Some, length};
ghost use Rattle.big_programs.specs.Generated.{generated};
ghost use Rattle.c_language.specs.Programs.{IsWellFormed};
ghost use Rattle.call_words.specs.Requests.{AreWorkers, Asked, IsBounded, asked_by, file_in};
ghost use Rattle.edge_io.specs.Contents.{Lacks};
ghost use Rattle.edge_io.specs.Count.{NeverFalls};
ghost use Rattle.slicer_top.specs.Criteria.{IsCriteriaFault, StartAt};
ghost use Rattle.slicer_top.specs.Files.{AreFetches, AreFetchesOf, AreShort, IsGiven, OfFiles, name_of, text_made};
ghost use Rattle.slicer_top.specs.Graphs.{IsGraphText, IsMembersText};
ghost use Rattle.slicer_top.specs.Slices.{AreSlices, AreWritten, AreWrittenOf, HasLast, HasLastOf, IsOneText};
ghost use Rattle.slicer_top.specs.Reports.{IsReason, IsReasonOf, IsCause, IsInputFault, IsMissing, IsTextFault};

use crate::chops::{chop_texts, forward_texts};
use crate::criteria::{criteria_at, criterion_at};
use crate::numbers::numbers_text;
use crate::refusal::{Refusal, of_input};
use crate::running::{alone, ran, trace_texts};
use big_programs::generate;
use c_tree::Program;
use call_words::Request;
use edge_io::{Shelf, Text};
use slice_batch::{Gate, slices};
use slice_engine::{Criterion, Engine, read_program};
use std::alloc::{AllocError, Global};
use std::thread::Threads;

// The most bytes that a file may have.
const MAX_FILE_BYTES: usize = 1_048_576;

/// The texts that are to be written for a request, of the files that it names or of the text that is made for it.
pub(crate) fn texts_for<R: Threads + Sync, F: Shelf, G: Gate + Sync>(
    rt: &R,
    alloc: Global,
    request: &Request,
    shelf: &mut F,
    gate: &G,
) -> Result<Vec<Text>, Refusal>
    requires bounded { IsBounded (asked_by request.now) }
    ensures contents { F.contents shelf.new ≡ F.contents shelf.old }
    ensures fetched { AreFetches (asked_by request.now) (F.fetches shelf.old) (F.fetches shelf.new) }
    ensures ok { IfOk result (λ texts. OfFiles (F.contents shelf.old) (asked_by request.now)
        (λ text input. AreShort text input × AreWritten text (asked_by request.now) input texts.items)) }
    ensures err { IfErr result (IsCause (F.contents shelf.old) (asked_by request.now)
        (F.faults shelf.old) (F.faults shelf.new) (F.long_files shelf.old) (F.long_files shelf.new)) }
    ensures no_fault { F.never_fails shelf.old → F.faults shelf.new ≡ F.faults shelf.old }
    ensures missing { F.never_fails shelf.old → IfErr result (IsMissing (F.contents shelf.old) (asked_by request.now)) }
{
    let text = text_for(alloc, request, shelf)?;
    let input = input_for(alloc, request.input(), shelf)?;
    texts_of(rt, alloc, text.as_slice(), input.as_slice(), request, gate)
}

// The bytes of the file with the text; where no file has it, the text that is made.
fn text_for<F: Shelf>(alloc: Global, request: &Request, shelf: &mut F) -> Result<Vec<u8>, Refusal>
    requires { IsBounded (asked_by request.now) }
    ensures contents { F.contents shelf.new ≡ F.contents shelf.old }
    ensures faults { NeverFalls (F.faults shelf.old) (F.faults shelf.new) }
    ensures long_files { NeverFalls (F.long_files shelf.old) (F.long_files shelf.new) }
    ensures fetched { AreFetchesOf (file_in (asked_by request.now)) (F.fetches shelf.old) (F.fetches shelf.new) }
    ensures short { IfOk result (λ text. length text.items ≤ 1048576) }
    ensures ok { IfOk result (λ text. IsGiven (F.contents shelf.old) (text_made (asked_by request.now)) (file_in (asked_by request.now)) text.items) }
    ensures err { IfErr result (IsTextFault (F.contents shelf.old) (F.faults shelf.old) (F.faults shelf.new)
        (F.long_files shelf.old) (F.long_files shelf.new) (file_in (asked_by request.now))) }
    ensures no_fault { F.never_fails shelf.old → F.faults shelf.new ≡ F.faults shelf.old }
    ensures never_fails { F.never_fails shelf.old → F.never_fails shelf.new }
    ensures missing { F.never_fails shelf.old → IfErr result (λ refusal. refusal ≡ Refusal.Unreadable
        → IsSomeAnd (file_in (asked_by request.now)) (Lacks (F.contents shelf.old))) }
{
    match request.file() {
        Some(name) => text_in(alloc, name, shelf),
        None => made_text(alloc, request),
    }
}

/// The bytes of the file with the text, at most 1,048,576. `Unreadable` where it couldn't be read, `TooLong` where it has more,
/// `NoMemory` where there was no memory for them.
pub fn text_in<F: Shelf>(alloc: Global, name: &str, shelf: &mut F) -> Result<Vec<u8>, Refusal>
    ensures contents { F.contents shelf.new ≡ F.contents shelf.old }
    ensures faults { NeverFalls (F.faults shelf.old) (F.faults shelf.new) }
    ensures long_files { NeverFalls (F.long_files shelf.old) (F.long_files shelf.new) }
    ensures fetched { AreFetchesOf (Some name.now) (F.fetches shelf.old) (F.fetches shelf.new) }
    ensures short { IfOk result (λ text. length text.items ≤ 1048576) }
    ensures ok { IfOk result (λ text. IsGiven (F.contents shelf.old) [] (Some name.now) text.items) }
    ensures err { IfErr result (IsTextFault (F.contents shelf.old) (F.faults shelf.old) (F.faults shelf.new)
        (F.long_files shelf.old) (F.long_files shelf.new) (Some name.now)) }
    ensures no_fault { F.never_fails shelf.old → F.faults shelf.new ≡ F.faults shelf.old }
    ensures never_fails { F.never_fails shelf.old → F.never_fails shelf.new }
    ensures missing { F.never_fails shelf.old → IfErr result (λ refusal. refusal ≡ Refusal.Unreadable → Lacks (F.contents shelf.old) name.now) }
{
    match shelf.fetch(alloc, name, MAX_FILE_BYTES) {
        Ok(text) => Ok(text),
        Err(fault) => Err(Refusal::from(fault)),
    }
}

// The text that is made for a request that names no file: that of the program that a seed gives.
fn made_text(alloc: Global, request: &Request) -> Result<Vec<u8>, Refusal>
    requires { IsBounded (asked_by request.now) }
    ensures short { IfOk result (λ text. length text.items ≤ 1048576) }
    ensures ok { IfOk result (λ text. text.items ≡ text_made (asked_by request.now)) }
    ensures err { IfErr result (λ refusal. refusal ≡ Refusal.NoMemory) }
{
    match request {
        Request::Big { seed, size, .. } => bytes_of(alloc, *seed, *size),
        Request::Slice { .. } => Ok(Vec::new(alloc)),
        Request::Trace { .. } => Ok(Vec::new(alloc)),
        Request::Run { .. } => Ok(Vec::new(alloc)),
        Request::Graph { .. } => Ok(Vec::new(alloc)),
        Request::Members { .. } => Ok(Vec::new(alloc)),
        Request::Forward { .. } => Ok(Vec::new(alloc)),
        Request::Chop { .. } => Ok(Vec::new(alloc)),
    }
}

// The bytes of the text that a seed gives, with so many functions beside `main`.
fn bytes_of(alloc: Global, seed: u32, size: u32) -> Result<Vec<u8>, Refusal>
    ensures ok { IfOk result (λ bytes. bytes.items ≡ generated seed size) }
    ensures err { IfErr result (λ refusal. refusal ≡ Refusal.NoMemory) }
{
    let text = generate(alloc, seed, size)?;
    let bytes = Vec::from_slice(alloc, text.bytes())?;
    Ok(bytes)
}

// The bytes of the file with the input, where one is asked for; otherwise none.
fn input_for<F: Shelf>(alloc: Global, name: Option<&str>, shelf: &mut F) -> Result<Vec<u8>, Refusal>
    ensures contents { F.contents shelf.new ≡ F.contents shelf.old }
    ensures faults { NeverFalls (F.faults shelf.old) (F.faults shelf.new) }
    ensures long_files { NeverFalls (F.long_files shelf.old) (F.long_files shelf.new) }
    ensures fetched { AreFetchesOf (name_of name.entry) (F.fetches shelf.old) (F.fetches shelf.new) }
    ensures short { IfOk result (λ input. length input.items ≤ 1048576) }
    ensures ok { IfOk result (λ input. IsGiven (F.contents shelf.old) [] (name_of name.entry) input.items) }
    ensures err { IfErr result (IsInputFault (F.contents shelf.old) (F.faults shelf.old) (F.faults shelf.new)
        (F.long_files shelf.old) (F.long_files shelf.new) (name_of name.entry)) }
    ensures no_fault { F.never_fails shelf.old → F.faults shelf.new ≡ F.faults shelf.old }
    ensures missing { F.never_fails shelf.old → IfErr result (λ refusal. refusal ≡ Refusal.NoInput
        → IsSomeAnd (name_of name.entry) (Lacks (F.contents shelf.old))) }
{
    match name {
        None => Ok(Vec::new(alloc)),
        Some(name) => match shelf.fetch(alloc, name, MAX_FILE_BYTES) {
            Ok(input) => Ok(input),
            Err(fault) => Err(of_input(fault)),
        },
    }
}

// The texts that are to be written for a request, or why this text and this input give none.
fn texts_of<R: Threads + Sync, G: Gate + Sync>(
    rt: &R,
    alloc: Global,
    text: &[u8],
    input: &[u8],
    request: &Request,
    gate: &G,
) -> Result<Vec<Text>, Refusal>
    requires bounded { IsBounded (asked_by request.now) }
    requires short { length text.now ≤ 1048576 }
    requires last { HasLastOf text.now (asked_by request.now) }
    ensures ok { IfOk result (λ texts. AreWritten text.now (asked_by request.now) input.now texts.items) }
    ensures err { IfErr result (IsReason text.now (asked_by request.now) input.now) }
{
    let program = read_program(alloc, text)?;
    made(rt, alloc, program, input, request, gate)
}

// The texts that are to be written for a request of this program, with this input, or why there are none.
fn made<R: Threads + Sync, G: Gate + Sync>(
    rt: &R,
    alloc: Global,
    program: Program,
    input: &[u8],
    request: &Request,
    gate: &G,
) -> Result<Vec<Text>, Refusal>
    requires bounded { IsBounded (asked_by request.now) }
    requires well_formed { IsWellFormed program }
    requires last { HasLast (asked_by request.now) program }
    ensures { MatchResult result (λ texts. AreWrittenOf program (asked_by request.now) input.now texts.items)
        (IsReasonOf program (asked_by request.now) input.now) }
{
    match request {
        Request::Slice { lines, workers, .. } => {
            slice_texts(rt, alloc, program, lines.as_slice(), *workers as u32, gate)
        }
        Request::Trace { lines, steps, .. } => {
            trace_texts(alloc, &program, lines.as_slice(), input, *steps)
        }
        Request::Run { steps, .. } => ran(alloc, &program, input, *steps),
        Request::Graph { workers, .. } => graph_texts(rt, alloc, program, *workers as u32, gate),
        Request::Members { line, workers, .. } => {
            members_texts(rt, alloc, program, *line, *workers as u32, gate)
        }
        Request::Big { workers, .. } => numbers_texts(rt, alloc, program, *workers as u32, gate),
        Request::Forward { line, workers, .. } => {
            forward_texts(rt, alloc, program, *line, *workers as u32, gate)
        }
        Request::Chop {
            from,
            to,
            workers,
            ..
        } => chop_texts(rt, alloc, program, *from, *to, *workers as u32, gate),
    }
}

// ---- slices

// The texts of the slices of a program at these lines, or why there are none.
fn slice_texts<R: Threads + Sync, G: Gate + Sync>(
    rt: &R,
    alloc: Global,
    program: Program,
    lines: &[u64],
    workers: u32,
    gate: &G,
) -> Result<Vec<Text>, Refusal>
    requires well_formed { IsWellFormed program }
    requires workers { AreWorkers workers }
    ensures { (file input : List ℕ) → MatchResult result
        (λ texts. AreWrittenOf program (Asked.slice file lines.now workers) input texts.items)
        (IsReasonOf program (Asked.slice file lines.now workers) input) }
{
    let engine = Engine::new(rt, alloc, program, workers, gate)?;
    slices_at(rt, alloc, &engine, lines, workers, gate)
}

// The texts of the slices at these lines, at most 64, or the first line on which no statement starts.
fn slices_at<R: Threads + Sync, G: Gate + Sync>(
    rt: &R,
    alloc: Global,
    engine: &Engine,
    lines: &[u64],
    workers: u32,
    gate: &G,
) -> Result<Vec<Text>, Refusal>
    requires { AreWorkers workers }
    ensures { MatchResult result (λ texts. StartAt engine.now lines.now × AreSlices engine.now lines.now texts.items)
        (IsCriteriaFault engine.now lines.now) }
{
    let criteria = criteria_at(alloc, engine, lines)?;
    let texts = slices(rt, alloc, engine, criteria.as_slice(), workers, gate)?;
    Ok(texts)
}

// ---- graphs

// The text of a program's dependence graph, or why there is none.
fn graph_texts<R: Threads + Sync, G: Gate + Sync>(
    rt: &R,
    alloc: Global,
    program: Program,
    workers: u32,
    gate: &G,
) -> Result<Vec<Text>, Refusal>
    requires well_formed { IsWellFormed program }
    requires workers { AreWorkers workers }
    ensures { (file input : List ℕ) → MatchResult result
        (λ texts. AreWrittenOf program (Asked.graph file workers) input texts.items)
        (IsReasonOf program (Asked.graph file workers) input) }
{
    let engine = Engine::new(rt, alloc, program, workers, gate)?;
    let texts = graph_text_of(alloc, &engine)?;
    Ok(texts)
}

// The text of what reaches the statements on a line of a program, or why there is none.
fn members_texts<R: Threads + Sync, G: Gate + Sync>(
    rt: &R,
    alloc: Global,
    program: Program,
    line: u64,
    workers: u32,
    gate: &G,
) -> Result<Vec<Text>, Refusal>
    requires well_formed { IsWellFormed program }
    requires workers { AreWorkers workers }
    ensures { (file input : List ℕ) → MatchResult result
        (λ texts. AreWrittenOf program (Asked.members file line workers) input texts.items)
        (IsReasonOf program (Asked.members file line workers) input) }
{
    let engine = Engine::new(rt, alloc, program, workers, gate)?;
    members_text_at(alloc, &engine, line)
}

// The text of the program's dependence graph. Err: no memory was left.
fn graph_text_of(alloc: Global, engine: &Engine) -> Result<Vec<Text>, AllocError>
    ensures { IfOk result (λ texts. IsOneText (IsGraphText engine.now) texts.items) }
{
    let text = graph_text::graph(alloc, engine.program(), engine.locations(), engine.graph())?;
    alone(alloc, text)
}

// The text of what reaches the statements on a line, or that none starts there.
fn members_text_at(alloc: Global, engine: &Engine, line: u64) -> Result<Vec<Text>, Refusal>
    ensures { MatchResult result (λ texts. StartAt engine.now (line ∷ []) × IsOneText (IsMembersText engine.now line) texts.items)
        (IsCriteriaFault engine.now (line ∷ [])) }
{
    let criterion = criterion_at(engine, line)?;
    let texts = members_text(alloc, engine, criterion)?;
    Ok(texts)
}

// The text of what reaches the statements of a criterion. Err: no memory was left.
fn members_text(
    alloc: Global,
    engine: &Engine,
    criterion: Criterion,
) -> Result<Vec<Text>, AllocError>
    ensures { IfOk result (λ texts. IsOneText (IsMembersText engine.now criterion.line) texts.items) }
{
    let set = engine.members(alloc, criterion)?;
    let text = graph_text::members(
        alloc,
        engine.program(),
        engine.locations(),
        engine.graph(),
        &set,
    )?;
    alone(alloc, text)
}

// ---- numbers

// The numbers of the slice of a program at its last line, or why there are none.
fn numbers_texts<R: Threads + Sync, G: Gate + Sync>(
    rt: &R,
    alloc: Global,
    program: Program,
    workers: u32,
    gate: &G,
) -> Result<Vec<Text>, Refusal>
    requires well_formed { IsWellFormed program }
    requires some { 0 < program.statements }
    requires workers { AreWorkers workers }
    ensures { (seed size : ℕ) (input : List ℕ) → MatchResult result
        (λ texts. AreWrittenOf program (Asked.big seed size workers) input texts.items)
        (IsReasonOf program (Asked.big seed size workers) input) }
{
    let engine = Engine::new(rt, alloc, program, workers, gate)?;
    let texts = numbers_text(alloc, &engine)?;
    Ok(texts)
}
