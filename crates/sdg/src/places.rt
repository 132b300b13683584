//! Where the vertices stand that calls join.
ghost use Rattle.std.specs.Prelude.{◌<◌, ◌^◌, IfOk, length};
ghost use Rattle.sdg.specs.SiteEdges.{ArePlaces};

use crate::vertex_lists::{Grouping, VertexLists};
use dep_model::Vertex;
use std::alloc::{AllocError, Global};

/// The vertices of a graph by what they belong to.
#[derive(Drop)]
pub(crate) struct Places {
    /// The entries of each function.
    pub(crate) entries: VertexLists,
    /// The formal-ins of each function.
    pub(crate) formal_ins: VertexLists,
    /// The formal-outs of each function.
    pub(crate) formal_outs: VertexLists,
    /// The call vertex and the actuals of each call statement.
    pub(crate) calls: VertexLists,
}

impl Places {
    /// Finds the vertices. Err: no memory was left.
    pub(crate) fn find(alloc: Global, vertices: &[Vertex]) -> Result<Places, AllocError>
        requires few { length vertices.now < 2 ^ 32 }
        ensures { IfOk result (λ t. ArePlaces vertices.now t) }
    {
        Ok(Places {
            entries: VertexLists::find(alloc, vertices, Grouping::Entries)?,
            formal_ins: VertexLists::find(alloc, vertices, Grouping::FormalIns)?,
            formal_outs: VertexLists::find(alloc, vertices, Grouping::FormalOuts)?,
            calls: VertexLists::find(alloc, vertices, Grouping::Calls)?,
        })
    }
}
