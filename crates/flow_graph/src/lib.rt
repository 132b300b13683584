//! The order in which the vertices of a function may be done (ISO C99 6.8).
#![tactic(auto)]

ghost use Rattle.std.specs.Prelude.{◌≡◌, ◌<◌, ◌^◌, ◌↔◌, IfOk, Contains, Some, length};
ghost use Rattle.dep_model.specs.FunctionVertices.{heads, FollowsIn};
ghost use Rattle.dep_model.specs.PairOrder.{AreAscending};
ghost use Rattle.dep_model.specs.Stretches.{AreByFunction};
ghost use Rattle.dep_model.specs.declared.skeleton.Pair.{Pair};

mod defaults;
mod walk;

use c_tree::{FunctionId, Program};
use dep_model::{
    FlowGraph, Group, Pair, Skeleton, StatementVertices, Vertex, VertexId, ascend, numbers_of,
};
use sqlite_items::Items;
use std::alloc::{AllocError, Global};

/// The order of a function's vertices, as pairs of one and another that may be done directly after
/// it, ascending and each once. Err: no memory was left.
pub fn follows(
    alloc: Global,
    p: &Program,
    s: &Skeleton,
    f: FunctionId,
) -> Result<FlowGraph, AllocError>
    requires function { f < length p.now.functions }
    requires few { length s.now.vertices < 2 ^ 32 }
    requires by_function { AreByFunction s.now.vertices }
    ensures exact { IfOk result (λ g. (x : Pair) → Contains g.pairs x ↔ FollowsIn p.now s.now.vertices f x.from (Some x.to)) }
    ensures ascending { IfOk result (λ g. AreAscending g.pairs) }
{
    let pairs = pairs_of(alloc, p, s.vertices.as_slice(), f)?;
    Ok(FlowGraph {
        pairs: Items::from_vec(pairs),
    })
}

fn pairs_of(
    alloc: Global,
    p: &Program,
    vertices: &[Vertex],
    function: FunctionId,
) -> Result<Vec<Pair>, AllocError>
    requires function { function < length p.now.functions }
    requires few { length vertices.now < 2 ^ 32 }
    requires by_function { AreByFunction vertices.now }
    ensures exact { IfOk result (λ xs. (x : Pair) → Contains xs.items x ↔ FollowsIn p.now vertices.now function x.from (Some x.to)) }
    ensures ascending { IfOk result (λ xs. AreAscending xs.items) }
{
    let heads = heads_of(alloc, vertices, function)?;
    let tails = numbers_of(alloc, vertices, function, Group::FormalOuts)?;
    let own = StatementVertices::find(alloc, vertices, function, true)?;
    let body = p.functions.as_slice()[function as usize].body.as_slice();
    let mut pairs = Vec::new(alloc);
    let end = walk::simple(&mut pairs, tails.as_slice(), None)?;
    let start = walk::statements(alloc, &mut pairs, &own, body, end)?;
    walk::link(&mut pairs, heads.as_slice(), start)?;
    ascend(&mut pairs);
    Ok(pairs)
}

// The entry and the formal-ins.
fn heads_of(
    alloc: Global,
    vertices: &[Vertex],
    function: FunctionId,
) -> Result<Vec<VertexId>, AllocError>
    requires few { length vertices.now < 2 ^ 32 }
    requires by_function { AreByFunction vertices.now }
    ensures { IfOk result (λ found. found.items ≡ heads vertices.now function) }
{
    let mut found = numbers_of(alloc, vertices, function, Group::Entry)?;
    let formals = numbers_of(alloc, vertices, function, Group::FormalIns)?;
    found.extend_from_slice(formals.as_slice())?;
    Ok(found)
}
