//! The graphs of texts with pointers, by rows of where locations may point that are typed by hand.
ghost use Rattle.std.specs.Prelude.{◌<◌, ◌^◌, length};
ghost use Rattle.bit_rows.specs.Tables.{IsSized};
ghost use Rattle.c_language.specs.Programs.{IsWellFormed};
ghost use Rattle.pointer_tests.specs.LaidOut.{IsLaidOut};

use bit_rows::Rows;
use c_reader::read_program;
use c_tree::{FunctionId, Program, Text};
use dep_model::{FunctionGraph, Graph, Locations, PointsTo, Skeleton};
use std::alloc::{AllocError, Global};
use std::process::Abort;
use vertex_layout::lay_out;

const SHORT: usize = 4096;

const FEW: usize = 100;

/// A location and one to which it may point: of each the bit of its place.
pub(crate) type Pointing = (u64, u64);

/// The program of a text.
pub(crate) fn read<R: Abort + AllocGlobal>(rt: &R, text: &str) -> Program
    ensures { IsWellFormed result }
{
    let bytes = text.as_bytes();
    assert!(rt; bytes.len() < SHORT);
    read_program(rt.alloc(), bytes).expect(rt, "a program")
}

// Of so many locations each may point where the pairs say, and nowhere else.
fn points_to<R: Abort + AllocGlobal>(rt: &R, count: u32, pairs: &[Pointing]) -> PointsTo
    ensures { IsSized count count result.rows }
{
    let mut rows = Rows::new(rt.alloc(), count, count).expect(rt, "memory");
    for (from, to) in pairs {
        let (row, place) = (from.trailing_zeros(), to.trailing_zeros());
        assert!(rt; row < count);
        assert!(rt; place < count);
        rows.set(row, place);
    }
    PointsTo { rows }
}

// The vertices of a program of so many locations.
fn skeleton_by<R: Abort + AllocGlobal>(
    rt: &R,
    p: &Program,
    count: u32,
    pairs: &[Pointing],
) -> Skeleton
    requires { IsWellFormed p.now }
    ensures { IsLaidOut p.now result }
{
    assert!(rt; p.functions.len() <= FEW);
    let list = Locations::of(rt.alloc(), p).expect(rt, "few locations");
    assert_eq!(rt; list.len(), count);
    let points = points_to(rt, list.len(), pairs);
    let effects = mod_ref::find(rt.alloc(), p, &list, &points).expect(rt, "memory");
    lay_out(rt.alloc(), p, &list, &points, &effects).expect(rt, "few vertices")
}

// The graph of one function.
fn part_by(
    alloc: Global,
    p: &Program,
    s: &Skeleton,
    f: FunctionId,
) -> Result<FunctionGraph, AllocError>
    requires laid_out { IsLaidOut p.now s.now }
    requires function { f < length p.now.functions }
{
    let control = control_deps::edges(alloc, p, s, f)?;
    let order = flow_graph::follows(alloc, p, s, f)?;
    let flow = reaching_defs::edges(alloc, s, &order, f)?;
    let graph = pdg::assemble(alloc, control, flow)?;
    Ok(graph)
}

// The graphs of all functions, in their order.
fn parts_by<R: Abort + AllocGlobal>(rt: &R, p: &Program, s: &Skeleton) -> Vec<FunctionGraph>
    requires { IsLaidOut p.now s.now }
{
    assert!(rt; p.functions.len() <= FEW);
    let mut parts = Vec::new(rt.alloc());
    for f in 0..p.functions.len() as u32 {
        let part = part_by(rt.alloc(), p, s, f).expect(rt, "memory");
        parts.push(part).expect(rt, "memory");
    }
    parts
}

/// The graph of a program that has so many locations, where these may point as the pairs say, and nowhere else.
pub(crate) fn graph_by<R: Abort + AllocGlobal>(
    rt: &R,
    p: &Program,
    count: u32,
    pairs: &[Pointing],
) -> Graph
    requires { IsWellFormed p.now }
{
    let s = skeleton_by(rt, p, count, pairs);
    let parts = parts_by(rt, p, &s);
    assert!(rt; p.functions.len() <= FEW);
    sdg::build(rt.alloc(), p, s, parts).expect(rt, "memory")
}

/// The locations of a program.
fn locations_of<R: Abort + AllocGlobal>(rt: &R, p: &Program) -> Locations
    requires well_formed { IsWellFormed p.now }
    requires few { length p.now.functions < 2 ^ 32 }
{
    Locations::of(rt.alloc(), p).expect(rt, "few locations")
}

/// The graph of a text, as it is printed. The text has so many locations, which may point where the pairs say, and nowhere else.
pub(crate) fn printed_by<R: Abort + AllocGlobal>(
    rt: &R,
    text: &str,
    count: u32,
    pairs: &[Pointing],
) -> Text {
    let p = read(rt, text);
    let graph = graph_by(rt, &p, count, pairs);
    assert!(rt; p.functions.len() <= FEW);
    let list = locations_of(rt, &p);
    assert!(rt; graph.vertices.len() <= SHORT);
    graph_text::graph(rt.alloc(), &p, &list, &graph).expect(rt, "memory")
}
