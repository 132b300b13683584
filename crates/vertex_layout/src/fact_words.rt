//! How many words the facts of a graph take: each formal-out has a row, with a bit for each formal-in of its function.
ghost use Rattle.std.specs.Prelude.{◌≡◌, ◌≤◌, ◌<◌, ◌^◌, ◌+◌, ◌==◌, ℕ, IfOk, OnOk, length};
ghost use Rattle.dep_model.specs.FunctionVertices.{is_formal_in, passes};
ghost use Rattle.dep_model.specs.Graphs.{fact_words};
ghost use Rattle.vertex_layout.specs.FactWords.{AreCounts, count_at, one_if, vertex_words};

use c_tree::FunctionId;
use dep_model::{Vertex, VertexKind};
use std::alloc::{AllocError, Global};

/// How many words the facts of a graph with these vertices take. Err: no memory was left.
pub(crate) fn find(alloc: Global, vertices: &[Vertex]) -> Result<u32, AllocError>
    requires few { length vertices.now ≤ 65536 }
    ensures { IfOk result (λ n. n ≡ fact_words vertices.now) }
{
    let counts = count_formal_ins(alloc, vertices)?;
    Ok(words_of(vertices, counts.as_slice()))
}

// How many formal-ins each function has, by the numbers of the functions.
fn count_formal_ins(alloc: Global, vertices: &[Vertex]) -> Result<Vec<u32>, AllocError>
    requires few { length vertices.now ≤ 65536 }
    ensures { IfOk result (λ counts. AreCounts vertices.now counts.items) }
{
    let mut counts = Vec::new(alloc);
    for vertex in vertices {
        count(&mut counts, vertex)?;
    }
    Ok(counts)
}

// Counts a vertex, where it is a formal-in.
fn count(counts: &mut Vec<u32>, vertex: &Vertex) -> Result<(), AllocError>
    requires few { count_at counts.old.items vertex.now.function ≤ 65536 }
    ensures { OnOk result ((f : ℕ) → count_at counts.new.items f ≡ count_at counts.old.items f + one_if (passes is_formal_in f vertex.now)) }
{
    if let VertexKind::FormalIn(_) = vertex.kind {
        raise(counts, vertex.function)?;
    }
    Ok(())
}

// Raises the count of a function.
fn raise(counts: &mut Vec<u32>, f: FunctionId) -> Result<(), AllocError>
    requires few { count_at counts.old.items f ≤ 65536 }
    ensures { OnOk result ((g : ℕ) → count_at counts.new.items g ≡ count_at counts.old.items g + one_if (f == g)) }
{
    let at = f as usize;
    if counts.len() <= at {
        counts.resize(at + 1, 0)?;
    }
    counts[at] += 1;
    Ok(())
}

// The words of all rows, where functions have so many formal-ins.
fn words_of(vertices: &[Vertex], counts: &[u32]) -> u32
    requires few { length vertices.now ≤ 65536 }
    requires counts_are { AreCounts vertices.now counts.now }
    ensures { result ≡ fact_words vertices.now }
{
    let mut words = 0u32;
    for vertex in vertices {
        words += width_of(counts, vertex);
    }
    words
}

// The words of the row of a vertex: only a formal-out has one.
fn width_of(counts: &[u32], vertex: &Vertex) -> u32
    ensures { result ≡ vertex_words counts.now vertex.now }
{
    if let VertexKind::FormalOut(_) = vertex.kind {
        count_of(counts, vertex.function).div_ceil(64)
    } else {
        0
    }
}

fn count_of(counts: &[u32], f: FunctionId) -> u32
    ensures { result ≡ count_at counts.now f }
{
    counts.get(f as usize).copied().unwrap_or(0)
}
