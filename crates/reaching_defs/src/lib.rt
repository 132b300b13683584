//! Reaching definitions (Aho, Lam, Sethi and Ullman): which uses of a location a definition reaches,
//! as the flow edges of a function (Horwitz, Reps and Binkley 1990).
#![tactic(auto)]

ghost use Rattle.std.specs.Prelude.{◌<◌, ◌^◌, ◌↔◌, IfOk, All, Contains, length};
ghost use Rattle.dep_model.specs.EdgeOrder.{AreAscendingEdges};
ghost use Rattle.dep_model.specs.Pairs.{IsPairIn};
ghost use Rattle.dep_model.specs.Stretches.{AreByFunction};
ghost use Rattle.dep_model.specs.declared.edge.Edge.{Edge};
ghost use Rattle.reaching_defs.specs.RowFlow.{IsRowFlow, AreEvenRows};

mod arrivals;
mod definition;
mod from_vertex;
mod laws;
mod listed_set;
mod row_search;
mod scratch;
mod search;
mod successors;

use crate::scratch::Scratch;
use crate::successors::Successors;
use c_tree::FunctionId;
use dep_model::{Edge, FlowGraph, Skeleton, stretch_of};
pub use laws::row_flow_is_flow;
use std::alloc::{AllocError, Global};

/// The flow edges of a function, whose vertices pairs join, ascending and each once: from a vertex
/// that may define a location to one that may use it, where a chain of the pairs leads from the one to
/// the other and no vertex strictly between kills the location. Err: no memory was left.
pub fn edges(
    alloc: Global,
    s: &Skeleton,
    g: &FlowGraph,
    f: FunctionId,
) -> Result<Vec<Edge>, AllocError>
    requires rows { AreEvenRows s.now }
    requires by_function { AreByFunction s.now.vertices }
    requires ends { All (IsPairIn s.now.vertices f) g.now.pairs }
    requires few { length s.now.vertices < 2 ^ 32 }
    requires few_locations { s.now.defined.bits < 2 ^ 32 }
    ensures exact { IfOk result (λ es. (e : Edge) → Contains es.items e ↔ IsRowFlow s.now g.now e) }
    ensures ascending { IfOk result (λ es. AreAscendingEdges es.items) }
{
    let pairs = g.pairs.as_slice();
    let stretch = stretch_of(s.vertices.as_slice(), f);
    let next = Successors::find(alloc, stretch, pairs)?;
    let mut scratch = Scratch::new(alloc, s, stretch)?;
    let mut found = Vec::new(alloc);
    for v in stretch.first..stretch.first + stretch.size {
        from_vertex::edges_from(&next, v, s, &mut scratch, &mut found)?;
    }
    Ok(found)
}

#[cfg(test)]
mod tests;
