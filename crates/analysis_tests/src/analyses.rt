//! What is found of a text: its program, what its functions modify and use, its vertices with their rows, and its graph.
ghost use Rattle.std.specs.Prelude.{IfOk};
ghost use Rattle.dep_model.specs.LocationRows.{HasEffectRows};
ghost use Rattle.program_graph.specs.Given.{HasSkeleton};
ghost use Rattle.analysis_tests.specs.Ready.{IsGraphReady, IsReady};

use c_reader::read_program;
use c_tree::Program;
use dep_model::{Effects, Graph, GraphFault, Locations, Skeleton};
use points_to::solve;
use std::alloc::Global;
use std::process::Abort;
use vertex_layout::lay_out;

const LONG: usize = 1_000_000;

const MANY: usize = 1_000;

/// The program of a text.
pub(crate) fn read<R: Abort + AllocGlobal>(rt: &R, text: &str) -> Program
    ensures { IsReady result }
{
    let bytes = text.as_bytes();
    assert!(rt; bytes.len() < LONG);
    let p = read_program(rt.alloc(), bytes).expect(rt, "a program");
    assert!(rt; p.functions.len() <= MANY);
    p
}

/// What the functions of a program modify and use.
pub(crate) fn effects_of(alloc: Global, p: &Program) -> Result<Effects, GraphFault>
    requires { IsReady p.now }
    ensures { IfOk result (HasEffectRows p.now) }
{
    let list = Locations::of(alloc, p)?;
    let points = solve(alloc, p, &list)?;
    let effects = mod_ref::find(alloc, p, &list, &points)?;
    Ok(effects)
}

/// The vertices of a program with their rows.
pub(crate) fn skeleton_of(alloc: Global, p: &Program) -> Result<Skeleton, GraphFault>
    requires { IsReady p.now }
    ensures { IfOk result (HasSkeleton p.now) }
{
    let list = Locations::of(alloc, p)?;
    let points = solve(alloc, p, &list)?;
    let effects = mod_ref::find(alloc, p, &list, &points)?;
    let skeleton = lay_out(alloc, p, &list, &points, &effects)?;
    Ok(skeleton)
}

/// The graph of a program.
pub(crate) fn graph_of(alloc: Global, p: &Program) -> Result<Graph, GraphFault>
    requires { IsReady p.now }
    ensures { IfOk result (IsGraphReady p.now) }
{
    let skeleton = skeleton_of(alloc, p)?;
    let graph = program_graph::find(alloc, p, skeleton)?;
    Ok(graph)
}
