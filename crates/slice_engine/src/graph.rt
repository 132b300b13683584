//! The system dependence graph of a program, and what reaches a set of its vertices.
ghost use Rattle.std.specs.Prelude.{◌≡◌, ◌≤◌, ◌<◌, ◌^◌, ◌↔◌, ℕ, AllPairs, IsTrue, IfOk, OnOk, length};
ghost use Rattle.std.specs.Result.{IfErr};
ghost use Rattle.c_tree.specs.declared.limits.LimitName.{LimitName};
ghost use Rattle.c_language.specs.Programs.{IsWellFormed};
ghost use Rattle.dep_model.specs.declared.graph_fault.GraphFault.TheVariants.{Limit};
ghost use Rattle.dep_model.specs.Graphs.{IsGraphOf};
ghost use Rattle.dep_model.specs.LocationLists.{location_list};
ghost use Rattle.two_pass.specs.Ready.{HasMembers};
ghost use Rattle.slice_engine.specs.Engine.{IsWithinLimits};
ghost use Rattle.slice_engine.specs.GraphLimits.{IsAboveGraphLimit};
ghost use Rattle.slice_engine.specs.Slice.{IsReached};

use c_tree::Program;
use dep_model::{Graph, GraphFault, Locations, VertexId, VertexSet};
use points_to::solve;
use std::alloc::{AllocError, Global};
use two_pass::Passes;
use vertex_layout::lay_out;

// The most functions that a program may have, so that they have numbers of 32 bits, and so has their count.
const MAX_FUNCTIONS: usize = 4_294_967_295;

/// The locations of a program. Err: there are more than 4,096 of them; or no memory was left, which is also told of more
/// than 4,294,967,295 functions.
pub(crate) fn locations_of(alloc: Global, p: &Program) -> Result<Locations, GraphFault>
    requires { IsWellFormed p.now }
    ensures list { IfOk result (λ l. l ≡ location_list p.now) }
    ensures few { IfOk result (λ l. length (location_list p.now) ≤ 4096) }
    ensures few_functions { IfOk result (λ l. length p.now.functions < 2 ^ 32) }
    ensures above { IfErr result (λ f. (n : LimitName) → f ≡ Limit n → IsAboveGraphLimit p.now n) }
{
    if has_too_many_functions(p) {
        return Err(GraphFault::NoMemory);
    }
    let locations = Locations::of(alloc, p)?;
    Ok(locations)
}

// Whether a program has more functions than numbers of 32 bits can count.
fn has_too_many_functions(p: &Program) -> bool
    ensures { IsTrue result ↔ (4294967295 < length p.now.functions) }
{
    p.functions.len() > MAX_FUNCTIONS
}

/// The graph of a program, by its locations: where these may point, what functions modify and use, the vertices with
/// what they define, use and kill, and the edges. Err: which quantity of the graph is above its limit; or no memory was
/// left.
pub(crate) fn graph_of(
    alloc: Global,
    p: &Program,
    locations: &Locations,
) -> Result<Graph, GraphFault>
    requires well_formed { IsWellFormed p.now }
    requires list_is { locations.now ≡ location_list p.now }
    requires few { length (location_list p.now) ≤ 4096 }
    requires few_functions { length p.now.functions < 2 ^ 32 }
    ensures graph { IfOk result (IsGraphOf p.now) }
    ensures within { IfOk result (IsWithinLimits p.now) }
    ensures above { IfErr result (λ f. (n : LimitName) → f ≡ Limit n → IsAboveGraphLimit p.now n) }
{
    let points = solve(alloc, p, locations)?;
    let effects = mod_ref::find(alloc, p, locations, &points)?;
    let skeleton = lay_out(alloc, p, locations, &points, &effects)?;
    let graph = program_graph::find(alloc, p, skeleton)?;
    Ok(graph)
}

/// Makes a set of vertices exactly what reaches it by matched calls and returns. Err: no memory was left.
pub(crate) fn reach(
    alloc: Global,
    passes: &mut Passes,
    set: &mut VertexSet,
) -> Result<(), AllocError>
    requires { length set.old ≡ passes.old.size }
    ensures reached { OnOk result (IsReached passes.old.edges set.old set.new) }
    ensures same { passes.new ≡ passes.old }
{
    let from = numbers_in(alloc, set)?;
    passes.reach(from.as_slice(), set);
    Ok(())
}

/// The numbers in a set, ascending. Err: no memory was left.
pub(crate) fn numbers_in(alloc: Global, set: &VertexSet) -> Result<Vec<VertexId>, AllocError>
    ensures members { IfOk result (λ found. HasMembers found.items set.now) }
    ensures ascending { IfOk result (λ found. AllPairs (λ u v. u < v) found.items) }
{
    let mut found = Vec::new(alloc);
    for v in 0..set.len() {
        if set.has(v) {
            found.push(v)?;
        }
    }
    Ok(found)
}
