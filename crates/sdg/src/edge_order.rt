//! The order of edges: a list is sorted, and each edge is kept once.
ghost use Rattle.std.specs.Prelude.{◌↔◌, Contains};
ghost use Rattle.dep_model.specs.EdgeOrder.{AreAscendingEdges};
ghost use Rattle.dep_model.specs.declared.edge.Edge.{Edge};

use dep_model::Edge;

/// Puts edges into ascending order, each once.
pub(crate) fn ascend(edges: &mut Vec<Edge>)
    ensures ascending { AreAscendingEdges edges.new.items }
    ensures same { (e : Edge) → Contains edges.new.items e ↔ Contains edges.old.items e }
{
    edges.sort_unstable();
    edges.dedup();
}
