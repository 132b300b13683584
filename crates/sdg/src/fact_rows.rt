//! Where the facts of each formal-out stand: its row has a bit for each formal-in of its function.
ghost use Rattle.std.specs.Prelude.{◌≡◌, ◌≤◌, ◌<◌, ◌^◌, IfOk, length};
ghost use Rattle.dep_model.specs.Graphs.{out_rows, row_width, fact_words};
ghost use Rattle.sdg.specs.SiteEdges.{ArePlaces};
ghost use Rattle.sdg.specs.VertexLists.{list_at};

use crate::places::Places;
use dep_model::{OutRow, Vertex, VertexKind};
use std::alloc::{AllocError, Global};

/// The rows of a graph's formal-outs, in the order of the vertices, one behind the other.
#[derive(Debug, Drop)]
pub(crate) struct FactRows {
    /// For each formal-out where its row begins.
    pub(crate) outs: Vec<OutRow>,
    /// How many words all rows take.
    pub(crate) words: u32,
}

/// Finds the rows. Err: no memory was left.
pub(crate) fn find(
    alloc: Global,
    vertices: &[Vertex],
    places: &Places,
) -> Result<FactRows, AllocError>
    requires places { ArePlaces vertices.now places.now }
    requires few { length vertices.now ≤ 65536 }
    requires few_words { fact_words vertices.now ≤ 262144 }
    ensures outs { IfOk result (λ r. r.outs.items ≡ out_rows vertices.now) }
    ensures words { IfOk result (λ r. r.words ≡ fact_words vertices.now) }
{
    let mut outs = Vec::new(alloc);
    let mut words = 0u32;
    for (number, vertex) in vertices.iter().enumerate() {
        if let VertexKind::FormalOut(_) = vertex.kind {
            outs.push(OutRow {
                vertex: number as u32,
                word: words,
            })?;
            words += places.formal_ins.at(vertex.function).len().div_ceil(64) as u32;
        }
    }
    Ok(FactRows { outs, words })
}
