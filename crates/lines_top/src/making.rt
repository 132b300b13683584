//! From a file and lines to the kept lines that are written for them.
ghost use Rattle.std.specs.Prelude.{◌≡◌, ◌≤◌, ℕ, List, IfOk, IfErr, MatchResult, length};
ghost use Rattle.c_language.specs.Programs.{IsWellFormed};
ghost use Rattle.c_reader.specs.Reading.{ReadsProgram};
ghost use Rattle.call_words.specs.Requests.{AreWorkers, IsBounded, asked_by, file_in, lines_in};
ghost use Rattle.edge_io.specs.Count.{one_more};
ghost use Rattle.kept_lines.specs.Lines.{IsLinesText};
ghost use Rattle.lines_top.specs.Texts.{CanBeAsked, IsCause, IsLinesFault, IsReason, IsWritten, OfFile};
ghost use Rattle.lines_top.specs.Words.{IsForSlices};

use crate::criteria::criteria_of;
use crate::words::named;
use c_tree::Program;
use call_words::Request;
use edge_io::Shelf;
use kept_lines::lines_text;
use slice_engine::{Engine, read_program};
use slicer_top::{Gate, Refusal, Text, text_in};
use std::alloc::Global;
use std::thread::Threads;

/// The kept lines that a request for slices names, of the file that it names, or why there are none.
pub(crate) fn text_for<R: Threads + Sync, F: Shelf, G: Gate + Sync>(
    rt: &R,
    alloc: Global,
    request: &Request,
    shelf: &mut F,
    gate: &G,
) -> Result<Text, Refusal>
    requires slices { IsForSlices (asked_by request.now) }
    requires bounded { IsBounded (asked_by request.now) }
    ensures contents { F.contents shelf.new ≡ F.contents shelf.old }
    ensures fetched { F.fetches shelf.new ≡ one_more (F.fetches shelf.old) }
    ensures ok { IfOk result (λ written. OfFile (F.contents shelf.old) (file_in (asked_by request.now))
        (λ text. IsWritten text (lines_in (asked_by request.now)) written)) }
    ensures err { IfErr result (IsCause (F.contents shelf.old) (F.faults shelf.old) (F.faults shelf.new)
        (F.long_files shelf.old) (F.long_files shelf.new) (file_in (asked_by request.now)) (lines_in (asked_by request.now))) }
{
    let (name, lines, workers) = named(request);
    let text = text_in(alloc, name, shelf)?;
    text_of(rt, alloc, text.as_slice(), lines, workers, gate)
}

// The kept lines at these lines of the text's program, or why there are none.
fn text_of<R: Threads + Sync, G: Gate + Sync>(
    rt: &R,
    alloc: Global,
    text: &[u8],
    lines: &[u64],
    workers: u32,
    gate: &G,
) -> Result<Text, Refusal>
    requires short { length text.now ≤ 1048576 }
    requires workers { AreWorkers workers }
    ensures { MatchResult result (IsWritten text.now lines.now) (IsReason text.now lines.now) }
{
    let program = read_program(alloc, text)?;
    made(rt, alloc, program, lines, workers, gate)
}

// The same of a program, whatever text it is of.
fn made<R: Threads + Sync, G: Gate + Sync>(
    rt: &R,
    alloc: Global,
    program: Program,
    lines: &[u64],
    workers: u32,
    gate: &G,
) -> Result<Text, Refusal>
    requires well_formed { IsWellFormed program }
    requires workers { AreWorkers workers }
    ensures { (text : List ℕ) → ReadsProgram text program → MatchResult result (IsWritten text lines.now) (IsReason text lines.now) }
{
    let engine = Engine::new(rt, alloc, program, workers, gate)?;
    lines_at(alloc, &engine, lines)
}

// The kept lines at these lines of an engine's program, at most 4,096, or the first on which no statement starts.
fn lines_at(alloc: Global, engine: &Engine, lines: &[u64]) -> Result<Text, Refusal>
    ensures { MatchResult result (λ text. CanBeAsked engine.now lines.now × IsLinesText engine.now lines.now text) (IsLinesFault engine.now lines.now) }
{
    let criteria = criteria_of(alloc, engine, lines)?;
    let text = lines_text(alloc, engine, criteria.as_slice())?;
    Ok(text)
}
