//! Forward slices of a line and chops of two lines, as texts.
ghost use Rattle.std.specs.Prelude.{◌≡◌, ◌∷◌, ◌↔◌, ◌<◌, ℕ, List, [], All, IfOk, IsTrue, MatchResult, length};
ghost use Rattle.bit_rows.specs.Sets.{has};
ghost use Rattle.c_language.specs.Programs.{IsWellFormed};
ghost use Rattle.call_words.specs.Requests.{AreWorkers, Asked};
ghost use Rattle.dep_model.specs.Facts.{AreTrueFacts};
ghost use Rattle.dep_model.specs.Shapes.{IsShaped};
ghost use Rattle.forward_chop.specs.Chops.{IsForward, IsInChop};
ghost use Rattle.slicer_top.specs.Chops.{IsForwardText, IsChopText};
ghost use Rattle.slicer_top.specs.Criteria.{IsCriteriaFault, StartAt};
ghost use Rattle.slicer_top.specs.Reports.{IsReasonOf};
ghost use Rattle.slicer_top.specs.Slices.{AreWrittenOf, IsOneText};

use crate::criteria::criterion_at;
use crate::refusal::Refusal;
use crate::running::alone;
use c_tree::Program;
use dep_model::{Facts, Graph, VertexId, VertexSet};
use edge_io::Text;
use forward_chop::{Chopper, ForwardPasses};
use slice_engine::{Criterion, Engine, Gate};
use std::alloc::{AllocError, Global};
use std::thread::Threads;

// ---- forward slices

/// The text of what the statements on a line reach in a program's graph, or why there is none.
pub(crate) fn forward_texts<R: Threads + Sync, G: Gate + Sync>(
    rt: &R,
    alloc: Global,
    program: Program,
    line: u64,
    workers: u32,
    gate: &G,
) -> Result<Vec<Text>, Refusal>
    requires well_formed { IsWellFormed program }
    requires workers { AreWorkers workers }
    ensures { (file input : List ℕ) → MatchResult result
        (λ texts. AreWrittenOf program (Asked.forward file line workers) input texts.items)
        (IsReasonOf program (Asked.forward file line workers) input) }
{
    let engine = Engine::new(rt, alloc, program, workers, gate)?;
    forward_text_at(alloc, &engine, line)
}

// The text of what the statements on a line reach, or that none starts there.
fn forward_text_at(alloc: Global, engine: &Engine, line: u64) -> Result<Vec<Text>, Refusal>
    ensures { MatchResult result (λ texts. StartAt engine.now (line ∷ []) × IsOneText (IsForwardText engine.now line) texts.items)
        (IsCriteriaFault engine.now (line ∷ [])) }
{
    let criterion = criterion_at(engine, line)?;
    let texts = forward_text(alloc, engine, criterion)?;
    Ok(texts)
}

// The text of what the statements of a criterion reach. Err: no memory was left.
fn forward_text(
    alloc: Global,
    engine: &Engine,
    criterion: Criterion,
) -> Result<Vec<Text>, AllocError>
    ensures { IfOk result (λ texts. IsOneText (IsForwardText engine.now criterion.line) texts.items) }
{
    let graph = engine.graph();
    let from = engine.vertices(alloc, criterion)?;
    let set = forward_set(alloc, graph, engine.facts(), from.as_slice())?;
    let text = graph_text::members(alloc, engine.program(), engine.locations(), graph, &set)?;
    alone(alloc, text)
}

// The vertices that these reach. Err: no memory was left.
fn forward_set(
    alloc: Global,
    graph: &Graph,
    facts: &Facts,
    from: &[VertexId],
) -> Result<VertexSet, AllocError>
    requires shaped { IsShaped graph.now }
    requires facts { AreTrueFacts graph.now facts.now.words }
    requires inside { All (λ v. v < length graph.now.vertices) from.now }
    ensures size { IfOk result (λ set. length set ≡ length graph.now.vertices) }
    ensures exact { IfOk result (λ set. (v : ℕ) → IsTrue (has set v) ↔ IsForward graph.now.edges from.now v) }
{
    let mut passes = ForwardPasses::prepare(alloc, graph, facts)?;
    let mut set = VertexSet::new(alloc, graph.vertices.len() as u32)?;
    passes.forward(from, &mut set);
    Ok(set)
}

// ---- chops

/// The text of that in a program's graph through which the statements on the first line reach those on the second, or why there is none.
pub(crate) fn chop_texts<R: Threads + Sync, G: Gate + Sync>(
    rt: &R,
    alloc: Global,
    program: Program,
    from: u64,
    to: u64,
    workers: u32,
    gate: &G,
) -> Result<Vec<Text>, Refusal>
    requires well_formed { IsWellFormed program }
    requires workers { AreWorkers workers }
    ensures { (file input : List ℕ) → MatchResult result
        (λ texts. AreWrittenOf program (Asked.chop file from to workers) input texts.items)
        (IsReasonOf program (Asked.chop file from to workers) input) }
{
    let engine = Engine::new(rt, alloc, program, workers, gate)?;
    chop_text_at(alloc, &engine, from, to)
}

// The text of that through which the statements on the first line reach those on the second, or the first of both on which none starts.
fn chop_text_at(alloc: Global, engine: &Engine, from: u64, to: u64) -> Result<Vec<Text>, Refusal>
    ensures { MatchResult result (λ texts. StartAt engine.now (from ∷ to ∷ []) × IsOneText (IsChopText engine.now from to) texts.items)
        (IsCriteriaFault engine.now (from ∷ to ∷ [])) }
{
    let first = criterion_at(engine, from)?;
    let second = criterion_at(engine, to)?;
    let texts = chop_text(alloc, engine, first, second)?;
    Ok(texts)
}

// The text of that through which the statements of one criterion reach those of another. Err: no memory was left.
fn chop_text(
    alloc: Global,
    engine: &Engine,
    first: Criterion,
    second: Criterion,
) -> Result<Vec<Text>, AllocError>
    ensures { IfOk result (λ texts. IsOneText (IsChopText engine.now first.line second.line) texts.items) }
{
    let graph = engine.graph();
    let from = engine.vertices(alloc, first)?;
    let to = engine.vertices(alloc, second)?;
    let set = chop_set(alloc, graph, engine.facts(), from.as_slice(), to.as_slice())?;
    let text = graph_text::members(alloc, engine.program(), engine.locations(), graph, &set)?;
    alone(alloc, text)
}

// The vertices through which the first ones reach the second. Err: no memory was left.
fn chop_set(
    alloc: Global,
    graph: &Graph,
    facts: &Facts,
    from: &[VertexId],
    to: &[VertexId],
) -> Result<VertexSet, AllocError>
    requires shaped { IsShaped graph.now }
    requires facts { AreTrueFacts graph.now facts.now.words }
    requires from_in { All (λ v. v < length graph.now.vertices) from.now }
    requires to_in { All (λ v. v < length graph.now.vertices) to.now }
    ensures size { IfOk result (λ set. length set ≡ length graph.now.vertices) }
    ensures exact { IfOk result (λ set. (v : ℕ) → IsTrue (has set v) ↔ IsInChop graph.now.edges from.now to.now v) }
{
    let mut chopper = Chopper::prepare(alloc, graph, facts)?;
    let mut set = VertexSet::new(alloc, graph.vertices.len() as u32)?;
    chopper.chop(from, to, &mut set);
    Ok(set)
}
