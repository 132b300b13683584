//! The program dependence graph of one function (Ferrante, Ottenstein and Warren 1987): its control
//! edges and its flow edges in one list.
#![tactic(auto)]

ghost use Rattle.std.specs.Prelude.{◌⊎◌, ◌↔◌, IfOk, Contains};
ghost use Rattle.dep_model.specs.EdgeOrder.{AreAscendingEdges};
ghost use Rattle.dep_model.specs.declared.edge.Edge.{Edge};

mod laws;
mod merging;

use dep_model::{Edge, FunctionGraph};
pub use laws::union_is_function_graph;
use sqlite_items::Items;
use std::alloc::{AllocError, Global};

/// The graph of a function from its control edges and its flow edges, which both ascend: the edges of
/// both, ascending and each once. Err: no memory was left.
pub fn assemble(
    alloc: Global,
    control: Vec<Edge>,
    flow: Vec<Edge>,
) -> Result<FunctionGraph, AllocError>
    requires control { AreAscendingEdges control.items }
    requires flow { AreAscendingEdges flow.items }
    ensures exact { IfOk result (λ g. (e : Edge) → Contains g.edges e ↔ (Contains control.items e ⊎ Contains flow.items e)) }
    ensures ascending { IfOk result (λ g. AreAscendingEdges g.edges) }
{
    let edges = merging::merge(alloc, control.as_slice(), flow.as_slice())?;
    Ok(FunctionGraph {
        edges: Items::from_vec(edges),
    })
}
