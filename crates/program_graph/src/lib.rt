//! The system dependence graph of a program from its skeleton: the graph of each function, of its control and flow edges
//! (Ferrante, Ottenstein and Warren 1987), and from these the whole (Horwitz, Reps and Binkley 1990).
#![tactic(auto)]

ghost use Rattle.std.specs.Prelude.{IfOk, length, ◌<◌};
ghost use Rattle.dep_model.specs.Graphs.{IsFunctionGraph, IsGraphOf};
ghost use Rattle.dep_model.specs.SystemGraph.{Analysis};
ghost use Rattle.dep_model.specs.Skeletons.{IsSkeleton};
ghost use Rattle.sdg.specs.Parts.{AreFunctionGraphs};
ghost use Rattle.program_graph.specs.Given.{HasSkeleton};

use c_tree::{FunctionId, Program};
use dep_model::{FunctionGraph, Graph, Skeleton};
use std::alloc::{AllocError, Global};

/// The graph of a program, from its skeleton: its vertices, its edges, ascending and each once, and where the facts of each
/// formal-out stand. Err: no memory was left.
pub fn find(alloc: Global, p: &Program, s: Skeleton) -> Result<Graph, AllocError>
    requires { HasSkeleton p.now s }
    ensures { IfOk result (IsGraphOf p.now) }
{
    let parts = function_graphs(alloc, p, &s)?;
    let graph = sdg::build(alloc, p, s, parts)?;
    Ok(graph)
}

// The graphs of all functions, in their order.
fn function_graphs(
    alloc: Global,
    p: &Program,
    s: &Skeleton,
) -> Result<Vec<FunctionGraph>, AllocError>
    requires { HasSkeleton p.now s.now }
    ensures { IfOk result (λ parts. (a : Analysis) → IsSkeleton p.now a s.now → AreFunctionGraphs p.now a parts.items) }
{
    let mut parts = Vec::new(alloc);
    for f in 0..p.functions.len() as u32 {
        let part = function_graph(alloc, p, s, f)?;
        parts.push(part)?;
    }
    Ok(parts)
}

// The graph of one function.
fn function_graph(
    alloc: Global,
    p: &Program,
    s: &Skeleton,
    f: FunctionId,
) -> Result<FunctionGraph, AllocError>
    requires skeleton { HasSkeleton p.now s.now }
    requires function { f < length p.now.functions }
    ensures { IfOk result (λ g. (a : Analysis) → IsSkeleton p.now a s.now → IsFunctionGraph p.now a f g) }
{
    let control = control_deps::edges(alloc, p, s, f)?;
    let order = flow_graph::follows(alloc, p, s, f)?;
    let flow = reaching_defs::edges(alloc, s, &order, f)?;
    let graph = pdg::assemble(alloc, control, flow)?;
    Ok(graph)
}
