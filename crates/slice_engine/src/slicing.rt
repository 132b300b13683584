//! What makes slices of one program, one after another.
ghost use Rattle.std.specs.Prelude.{◌≡◌, ◌≤◌, ◌<◌, IfOk, IsTrue, ◌↔◌, length};
ghost use Rattle.c_tree.specs.Numbered.{program_starts};
ghost use Rattle.projection.specs.KeptVertices.{kept_words};
ghost use Rattle.slice_engine.specs.Criterion.{by_rank as by_rank_of};
ghost use Rattle.slice_engine.specs.Engine.{IsPrepared, AreVerticesIn, AreMembersIn, KeepsFrom, IsKept, HasPlaces, IsSlicedAt};
ghost use Rattle.slice_engine.specs.Slice.{starts_on, HasStart, IsSlice, IsAcceptedSlice, IsFaithful};
ghost use Rattle.slice_engine.specs.Slicing.{IsPassing, IsSlicing};

use crate::criterion::{by_rank, criterion_set, kept_statements, starting_on};
use crate::engine::Criterion;
use crate::graph::{numbers_in, reach};
use crate::header::{header, header_lines};
use c_print::{lines_of, print};
use c_tree::numbered::Start;
use c_tree::{Program, Text};
use completion::Closer;
use dep_model::{Facts, Graph, VertexId, VertexSet};
use projection::project;
use std::alloc::{AllocError, Global};
use std::marker::Model;
use two_pass::Passes;

// The most bytes that the layout of a slice may have, so that its lines have numbers of 32 bits.
const MAX_LAYOUT_BYTES: usize = 4_294_967_296;

/// What makes slices of an engine's program, one after another. What follows the edges of its graph backward, and what completes
/// sets, is prepared once, when it is made. Contracts see the program.
#[derive(Drop)]
pub struct Slicing<'e> {
    program: &'e Program,
    graph: &'e Graph,
    starts: &'e [Start],
    passes: Passes,
    closer: Closer,
}

impl<'e> Model for Slicing<'e> {
    ghost use Rattle.c_tree.specs.declared.program.Program.{Program};
    ghost use Rattle.c_tree.specs.contracts.program.Program.{the_row};
    ghost use Rattle.std.specs.Coded.{codes};
    ghost use Rattle.slice_engine.specs.Slicing.{IsSlicing};

    ghost Value = { Program };

    ghost coded = { Prim.hlevel (codes, the_row.coded) };

    ghost view = { λ s. s.program.now };

    ghost invariant = { λ s. IsSlicing s.program.now s.graph.now s.starts.now s.passes s.closer };
}

impl<'e> Slicing<'e> {
    /// Takes all the memory that following edges and completing sets needs. Err: no memory was left.
    pub(crate) fn new(
        alloc: Global,
        program: &'e Program,
        graph: &'e Graph,
        facts: &Facts,
        starts: &'e [Start],
    ) -> Result<Slicing<'e>, AllocError>
        requires { IsPrepared program.now graph.now facts.now starts.now }
        ensures { IfOk result (λ s. s ≡ program.entry.now) }
    {
        let passes = Passes::prepare(alloc, graph, facts)?;
        let closer = Closer::prepare(alloc, program, graph)?;
        Ok(Slicing {
            program,
            graph,
            starts,
            passes,
            closer,
        })
    }

    /// The vertices that the slice at a criterion keeps, as the call of the engine gives them.
    ///
    /// Err: no memory was left.
    pub fn kept(&mut self, alloc: Global, c: Criterion) -> Result<VertexSet, AllocError>
        ensures kept { IfOk result (IsKept self.old c.line) }
        ensures size { IfOk result (HasPlaces self.old) }
        ensures same { self.new ≡ self.old }
    {
        let set = kept_at(
            alloc,
            self.program,
            self.graph,
            self.starts,
            &mut self.passes,
            &mut self.closer,
            c.line,
        )?;
        Ok(set)
    }

    /// The text of the slice at a criterion, as the call of the engine gives it.
    ///
    /// Err: no memory was left, or the layout of the slice has more than 4,294,967,296 bytes.
    pub fn slice_text(&mut self, alloc: Global, c: Criterion) -> Result<Text, AllocError>
        requires start { HasStart self.old c.line }
        ensures slice { IfOk result (λ t. IsSlice self.old c.line t) }
        ensures faithful { IfOk result (λ t. IsFaithful self.old c.line t) }
        ensures same { self.new ≡ self.old }
    {
        let text = text_of(
            alloc,
            self.program,
            self.graph,
            self.starts,
            &mut self.passes,
            &mut self.closer,
            c.line,
        )?;
        Ok(text)
    }
}

// The numbers of the vertices of the statements that start on a line, ascending.
pub(crate) fn vertices_at(
    alloc: Global,
    p: &Program,
    graph: &Graph,
    starts: &[Start],
    line: u32,
) -> Result<Vec<VertexId>, AllocError>
    requires starts { starts.now ≡ program_starts p.now }
    requires few { length graph.now.vertices ≤ 65536 }
    ensures { IfOk result (λ found. AreVerticesIn p.now graph.now line found.items) }
{
    let tests = starting_on(alloc, starts, line)?;
    let set = criterion_set(alloc, graph.vertices.as_slice(), tests.as_slice())?;
    let found = numbers_in(alloc, &set)?;
    Ok(found)
}

// What reaches the criterion of a line.
pub(crate) fn members_at(
    alloc: Global,
    p: &Program,
    graph: &Graph,
    starts: &[Start],
    passes: &mut Passes,
    line: u32,
) -> Result<VertexSet, AllocError>
    requires { IsPassing p.now graph.now starts.now passes.old }
    ensures members { IfOk result (AreMembersIn p.now graph.now line) }
    ensures same { passes.new ≡ passes.old }
{
    let tests = starting_on(alloc, starts, line)?;
    let mut set = criterion_set(alloc, graph.vertices.as_slice(), tests.as_slice())?;
    reach(alloc, passes, &mut set)?;
    Ok(set)
}

// What the slice at a line keeps.
fn kept_at(
    alloc: Global,
    p: &Program,
    graph: &Graph,
    starts: &[Start],
    passes: &mut Passes,
    closer: &mut Closer,
    line: u32,
) -> Result<VertexSet, AllocError>
    requires { IsSlicing p.now graph.now starts.now passes.old closer.old }
    ensures kept { IfOk result (KeepsFrom p.now graph.now line) }
    ensures size { IfOk result (λ kept. length kept ≡ length graph.now.vertices) }
    ensures same { (passes.new ≡ passes.old) × (closer.new ≡ closer.old) }
{
    let mut set = members_at(alloc, p, graph, starts, passes, line)?;
    closer.close_up(&mut set);
    Ok(set)
}

// Of the statements that a set keeps, in their order, which start on the line.
fn kept_on(
    alloc: Global,
    p: &Program,
    graph: &Graph,
    starts: &[Start],
    line: u32,
    kept: &VertexSet,
) -> Result<Vec<bool>, AllocError>
    requires starts { starts.now ≡ program_starts p.now }
    requires size { length kept.now ≡ length graph.now.vertices }
    ensures { IfOk result (λ tests. tests.items ≡ by_rank_of (kept_words kept.now graph.now.vertices).statement (starts_on p.now line) p.now.statements) }
{
    let tests = starting_on(alloc, starts, line)?;
    let statements = kept_statements(alloc, graph.vertices.as_slice(), kept)?;
    by_rank(alloc, statements.as_slice(), tests.as_slice(), p.statements)
}

/// The program of a slice, and for each of its statements whether it is one of the criterion.
#[derive(Drop)]
struct Sliced {
    program: Program,
    in_criterion: Vec<bool>,
}

fn sliced_at(
    alloc: Global,
    p: &Program,
    graph: &Graph,
    starts: &[Start],
    passes: &mut Passes,
    closer: &mut Closer,
    line: u32,
) -> Result<Sliced, AllocError>
    requires { IsSlicing p.now graph.now starts.now passes.old closer.old }
    ensures sliced { IfOk result (λ s. IsSlicedAt p.now line s.program s.in_criterion.items) }
    ensures same { (passes.new ≡ passes.old) × (closer.new ≡ closer.old) }
{
    let kept = kept_at(alloc, p, graph, starts, passes, closer, line)?;
    let program = project(alloc, p, graph, &kept)?;
    let in_criterion = kept_on(alloc, p, graph, starts, line, &kept)?;
    Ok(Sliced {
        program,
        in_criterion,
    })
}

// The text of the slice at a line, which is accepted again.
fn text_of(
    alloc: Global,
    p: &Program,
    graph: &Graph,
    starts: &[Start],
    passes: &mut Passes,
    closer: &mut Closer,
    line: u32,
) -> Result<Text, AllocError>
    requires { IsSlicing p.now graph.now starts.now passes.old closer.old }
    ensures slice { IfOk result (λ t. IsSlice p.now line t) }
    ensures read { IfOk result (λ t. IsAcceptedSlice p.now line t) }
    ensures same { (passes.new ≡ passes.old) × (closer.new ≡ closer.old) }
{
    let sliced = sliced_at(alloc, p, graph, starts, passes, closer, line)?;
    let layout = print(alloc, &sliced.program)?;
    if is_too_long(layout.bytes()) {
        return Err(AllocError);
    }
    let lines = lines_of(alloc, &sliced.program)?;
    let shown = header_lines(alloc, sliced.in_criterion.as_slice(), lines.as_slice())?;
    let mut text = header(alloc, line, shown.as_slice())?;
    text.append(layout.bytes())?;
    Ok(text)
}

// Whether a layout has more bytes than its lines can number.
fn is_too_long(layout: &[u8]) -> bool
    ensures { IsTrue result ↔ (4294967296 < length layout.now) }
{
    layout.len() > MAX_LAYOUT_BYTES
}
