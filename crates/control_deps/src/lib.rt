//! Control dependence by nesting (Ferrante, Ottenstein and Warren 1987): which statements a test
//! decides, which vertices an entry and a call control.
#![tactic(auto)]

ghost use Rattle.std.specs.Prelude.{◌≡◌, ◌<◌, ◌^◌, ◌↔◌, IfOk, Contains, length, map};
ghost use Rattle.control_deps.specs.ControlEdges.{control_edge};
ghost use Rattle.dep_model.specs.EdgeOrder.{AreAscendingEdges};
ghost use Rattle.dep_model.specs.FunctionVertices.{IsControlIn};
ghost use Rattle.dep_model.specs.PairOrder.{AreAscending};
ghost use Rattle.dep_model.specs.Stretches.{AreByFunction};
ghost use Rattle.dep_model.specs.declared.edge.Edge.{Edge};
ghost use Rattle.dep_model.specs.declared.skeleton.Pair.{Pair};

mod attached;
mod walk;

use c_tree::{FunctionId, Program};
use dep_model::{
    Edge, Group, Label, Pair, Skeleton, StatementVertices, Vertex, ascend, numbers_of,
};
use std::alloc::{AllocError, Global};

/// The control edges of a function, ascending and each once: to a statement from each of its
/// controllers, to a formal from the entry, and to an actual from its call. Err: no memory was left.
pub fn edges(
    alloc: Global,
    p: &Program,
    s: &Skeleton,
    f: FunctionId,
) -> Result<Vec<Edge>, AllocError>
    requires function { f < length p.now.functions }
    requires few { length s.now.vertices < 2 ^ 32 }
    requires by_function { AreByFunction s.now.vertices }
    ensures exact { IfOk result (λ es. (e : Edge) → Contains es.items e ↔ IsControlIn p.now s.now.vertices f e) }
    ensures ascending { IfOk result (λ es. AreAscendingEdges es.items) }
{
    let pairs = pairs_of(alloc, p, s.vertices.as_slice(), f)?;
    let edges = to_edges(alloc, pairs.as_slice())?;
    Ok(edges)
}

// The ends of the control edges.
fn pairs_of(
    alloc: Global,
    p: &Program,
    vertices: &[Vertex],
    function: FunctionId,
) -> Result<Vec<Pair>, AllocError>
    requires function { function < length p.now.functions }
    requires few { length vertices.now < 2 ^ 32 }
    requires by_function { AreByFunction vertices.now }
    ensures exact { IfOk result (λ xs. (x : Pair) → Contains xs.items x ↔ IsControlIn p.now vertices.now function (control_edge x)) }
    ensures ascending { IfOk result (λ xs. AreAscending xs.items) }
{
    let entry = numbers_of(alloc, vertices, function, Group::Entry)?;
    let own = StatementVertices::find(alloc, vertices, function, false)?;
    let body = p.functions.as_slice()[function as usize].body.as_slice();
    let mut pairs = Vec::new(alloc);
    walk::statements(alloc, &mut pairs, &own, body, entry.as_slice())?;
    attached::attach(&mut pairs, entry.as_slice(), &own, function, vertices)?;
    ascend(&mut pairs);
    Ok(pairs)
}

fn to_edges(alloc: Global, pairs: &[Pair]) -> Result<Vec<Edge>, AllocError>
    ensures { IfOk result (λ es. es.items ≡ map control_edge pairs.now) }
{
    pairs
        .iter()
        .map(|x| Edge {
            from: x.from,
            to: x.to,
            label: Label::Control,
        })
        .collect(alloc)
}
