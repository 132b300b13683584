//! The statements that a set of vertices keeps.
ghost use Rattle.std.specs.Prelude.{◌≡◌, ℕ, ◌==◌, ◌&&◌, ◌||◌, IfOk, OnOk, length};
ghost use Rattle.bit_rows.specs.Sets.{has};
ghost use Rattle.dep_model.specs.FunctionVertices.{is_own};
ghost use Rattle.projection.specs.KeptVertices.{kept_words};

use c_tree::StatementId;
use dep_model::{Vertex, VertexKind, VertexSet};
use named_variables::mark;
use std::alloc::{AllocError, Global};

/// For each statement, by its number, whether its own vertex, or that of its call, is in the set. None is past the end.
/// Err: no memory was left.
pub(crate) fn kept_statements(
    alloc: Global,
    vertices: &[Vertex],
    set: &VertexSet,
) -> Result<Vec<bool>, AllocError>
    requires { length set.now ≡ length vertices.now }
    ensures { IfOk result (λ tests. (i : ℕ) → has tests.items i ≡ (kept_words set.now vertices.now).statement i) }
{
    let mut tests = Vec::new(alloc);
    for v in 0..set.len() {
        mark_own(set.has(v), vertices[v as usize].kind, &mut tests)?;
    }
    Ok(tests)
}

// Marks the statement whose own vertex is of this kind, where a test passes.
fn mark_own(passes: bool, kind: VertexKind, tests: &mut Vec<bool>) -> Result<(), AllocError>
    ensures { OnOk result ((i : ℕ) → has tests.new.items i ≡ (has tests.old.items i || (passes && is_own i kind))) }
{
    match kind {
        VertexKind::Statement(id) => mark_if(passes, id, tests),
        VertexKind::Call(id) => mark_if(passes, id, tests),
        VertexKind::ActualOut(_, _) => Ok(()),
        VertexKind::ActualIn(_, _) => Ok(()),
        VertexKind::Entry => Ok(()),
        VertexKind::FormalIn(_) => Ok(()),
        VertexKind::FormalOut(_) => Ok(()),
    }
}

fn mark_if(passes: bool, id: StatementId, tests: &mut Vec<bool>) -> Result<(), AllocError>
    ensures { OnOk result ((i : ℕ) → has tests.new.items i ≡ (has tests.old.items i || ((id == i) && passes))) }
{
    if passes {
        mark(tests, id)?;
    }
    Ok(())
}

/// Whether a statement is marked.
pub(crate) fn is_marked(tests: &[bool], id: StatementId) -> bool
    ensures { result ≡ has tests.now id }
{
    match tests.get(id as usize) {
        Some(test) => *test,
        None => false,
    }
}
