//! What the steps of a graph's functions look up, found once.
ghost use Rattle.std.specs.Prelude.{IfOk};
ghost use Rattle.dep_model.specs.Shapes.{IsShaped};
ghost use Rattle.summary_edges.specs.FactIndexes.{IsIndex};

use crate::function_parts::FunctionParts;
use dep_model::Graph;
use matched_paths::{EdgeGroups, FactPlaces};
use std::alloc::{AllocError, Global};

/// What the steps of a graph's functions look up.
#[derive(Drop)]
pub(crate) struct FactIndex {
    /// Where facts stand among the words.
    pub(crate) places: FactPlaces,
    /// The functions.
    pub(crate) parts: FunctionParts,
    /// The edges that lead to each vertex. Those that leave calls lead from the formal-outs whose rows a step of its function reads.
    pub(crate) ends: EdgeGroups,
    /// The edges from the actual-ins of each call.
    pub(crate) entries: EdgeGroups,
    /// The calls of each function.
    pub(crate) calls: EdgeGroups,
}

impl FactIndex {
    /// The index of a graph. Err: no memory was left.
    pub(crate) fn find(alloc: Global, g: &Graph) -> Result<FactIndex, AllocError>
        requires shaped { IsShaped g.now }
        ensures { IfOk result (IsIndex g.now) }
    {
        let vertices = g.vertices.as_slice();
        let edges = g.edges.as_slice();
        let places = FactPlaces::find(alloc, g)?;
        let parts = FunctionParts::find(alloc, g)?;
        let ends = EdgeGroups::by_end(alloc, edges)?;
        let entries = EdgeGroups::by_call_entered(alloc, edges)?;
        let calls = EdgeGroups::by_callee(alloc, vertices, edges)?;
        Ok(FactIndex {
            places,
            parts,
            ends,
            entries,
            calls,
        })
    }
}
