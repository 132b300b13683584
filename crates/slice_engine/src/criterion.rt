//! Sets of statements and of vertices: those of a criterion, and those that are kept.
ghost use Rattle.std.specs.Prelude.{◌≡◌, ℕ, ◌<◌, ◌^◌, ◌==◌, ◌&&◌, ◌||◌, ◌++◌, [], IfOk, OnOk, length, false};
ghost use Rattle.std.specs.List.{list_any};
ghost use Rattle.bit_rows.specs.Sets.{has};
ghost use Rattle.c_tree.specs.declared.numbered.Start.{Start};
ghost use Rattle.dep_model.specs.Criteria.{is_wanted as wants, criterion_of};
ghost use Rattle.dep_model.specs.FunctionVertices.{is_own};
ghost use Rattle.projection.specs.KeptVertices.{kept_words};
ghost use Rattle.slice_engine.specs.Criterion as spec;

use c_tree::StatementId;
use c_tree::numbered::Start;
use dep_model::{Slot, Vertex, VertexId, VertexKind, VertexSet};
use named_variables::mark;
use std::alloc::{AllocError, Global};

/// Whether one of the statements starts on the line.
pub(crate) fn any_starts_on(starts: &[Start], line: u32) -> bool
    ensures { result ≡ list_any (λ (s : Start). s.line == line) starts.now }
{
    for start in starts {
        if start.line == line {
            return true;
        }
    }
    false
}

/// For each statement, by its number, whether it starts on the line. None does past the end.
pub(crate) fn starting_on(
    alloc: Global,
    starts: &[Start],
    line: u32,
) -> Result<Vec<bool>, AllocError>
    ensures { IfOk result (λ tests. (i : ℕ) → has tests.items i ≡ spec.starts_among line starts.now i) }
{
    let mut tests = Vec::new(alloc);
    for start in starts {
        mark_if(start.line == line, start.id, &mut tests)?;
    }
    Ok(tests)
}

// Marks a statement, where a test passes.
fn mark_if(passes: bool, id: StatementId, tests: &mut Vec<bool>) -> Result<(), AllocError>
    ensures { OnOk result ((i : ℕ) → has tests.new.items i ≡ (has tests.old.items i || ((id == i) && passes))) }
{
    if passes {
        mark(tests, id)?;
    }
    Ok(())
}

// Whether a number is marked.
fn is_marked(tests: &[bool], id: StatementId) -> bool
    ensures { result ≡ has tests.now id }
{
    match tests.get(id as usize) {
        Some(test) => *test,
        None => false,
    }
}

/// The vertices of the statements whose tests pass: of a call its call vertex, and the actual-out of its result.
pub(crate) fn criterion_set(
    alloc: Global,
    vertices: &[Vertex],
    tests: &[bool],
) -> Result<VertexSet, AllocError>
    requires { length vertices.now < 2 ^ 32 }
    ensures { IfOk result (λ x. x ≡ criterion_of (has tests.now) vertices.now) }
{
    let mut set = VertexSet::new(alloc, vertices.len() as u32)?;
    for v in 0..set.len() {
        add_if(is_wanted(vertices[v as usize].kind, tests), v, &mut set);
    }
    Ok(set)
}

// Whether a vertex of this kind is one of those of the statements.
fn is_wanted(kind: VertexKind, tests: &[bool]) -> bool
    ensures { result ≡ wants (has tests.now) kind }
{
    match kind {
        VertexKind::Statement(id) => is_marked(tests, id),
        VertexKind::Call(id) => is_marked(tests, id),
        VertexKind::ActualOut(id, Slot::Result) => is_marked(tests, id),
        VertexKind::ActualOut(_, Slot::Argument(_)) => false,
        VertexKind::ActualOut(_, Slot::At(_)) => false,
        VertexKind::ActualIn(_, _) => false,
        VertexKind::Entry => false,
        VertexKind::FormalIn(_) => false,
        VertexKind::FormalOut(_) => false,
    }
}

fn add_if(passes: bool, vertex: VertexId, set: &mut VertexSet)
    requires { vertex < length set.old }
    ensures { set.new ≡ spec.marked_if passes vertex set.old }
{
    if passes {
        set.add(vertex);
    }
}

/// For each statement, by its number, whether its own vertex, or that of its call, is in the set.
pub(crate) fn kept_statements(
    alloc: Global,
    vertices: &[Vertex],
    set: &VertexSet,
) -> Result<Vec<bool>, AllocError>
    requires { length set.now ≡ length vertices.now }
    ensures { IfOk result (λ tests. (i : ℕ) → has tests.items i ≡ (kept_words set.now vertices.now).statement i) }
{
    let mut tests = Vec::new(alloc);
    for v in 0..set.len() {
        mark_own(set.has(v), vertices[v as usize].kind, &mut tests)?;
    }
    Ok(tests)
}

// Marks the statement whose own vertex is of this kind, where a test passes.
fn mark_own(passes: bool, kind: VertexKind, tests: &mut Vec<bool>) -> Result<(), AllocError>
    ensures { OnOk result ((i : ℕ) → has tests.new.items i ≡ (has tests.old.items i || (passes && is_own i kind))) }
{
    match kind {
        VertexKind::Statement(id) => mark_if(passes, id, tests),
        VertexKind::Call(id) => mark_if(passes, id, tests),
        VertexKind::ActualOut(_, _) => Ok(()),
        VertexKind::ActualIn(_, _) => Ok(()),
        VertexKind::Entry => Ok(()),
        VertexKind::FormalIn(_) => Ok(()),
        VertexKind::FormalOut(_) => Ok(()),
    }
}

/// Of the first statements those that are kept, in order: for each whether its test passes.
pub(crate) fn by_rank(
    alloc: Global,
    kept: &[bool],
    tests: &[bool],
    statements: u32,
) -> Result<Vec<bool>, AllocError>
    ensures { IfOk result (λ chosen. chosen.items ≡ spec.by_rank (has kept.now) (has tests.now) statements) }
{
    let mut chosen = Vec::new(alloc);
    for id in 0..statements {
        push_if(is_marked(kept, id), is_marked(tests, id), &mut chosen)?;
    }
    Ok(chosen)
}

fn push_if(is_kept: bool, test: bool, chosen: &mut Vec<bool>) -> Result<(), AllocError>
    ensures { OnOk result (chosen.new.items ≡ chosen.old.items ++ spec.put_if is_kept test []) }
{
    if is_kept {
        chosen.push(test)?;
    }
    Ok(())
}
