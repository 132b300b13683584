//! The system dependence graph of a program (Horwitz, Reps and Binkley 1990), from its vertices and
//! the graphs of its functions.
#![tactic(auto)]

ghost use Rattle.std.specs.Prelude.{◌≤◌, IfOk, OnOk, length, Contains, ◌↔◌, ◌⊎◌, ◌≡◌, ◌+◌};
ghost use Rattle.dep_model.specs.Graphs.{IsGraph, fact_words};
ghost use Rattle.dep_model.specs.Skeletons.{IsSkeleton};
ghost use Rattle.dep_model.specs.SystemGraph.{Analysis};
ghost use Rattle.sdg.specs.Parts.{AreFunctionGraphs};

mod call_edges;
mod call_sites;
mod edge_order;
mod fact_rows;
mod part_edges;
mod places;
mod vertex_lists;

use crate::places::Places;
use c_tree::Program;
use dep_model::{FunctionGraph, Graph, Skeleton};
use sqlite_items::Items;
use std::alloc::{AllocError, Global};

/// The graph of a program, from its skeleton and for each function, in their order, its graph: the
/// skeleton's vertices; the edges of the functions and those of all calls, ascending, each once; and
/// where the facts of each formal-out stand. Err: no memory was left.
pub fn build(
    alloc: Global,
    p: &Program,
    s: Skeleton,
    parts: Vec<FunctionGraph>,
) -> Result<Graph, AllocError>
    requires few { length s.vertices ≤ 65536 }
    requires few_functions { length p.now.functions ≤ 65536 }
    requires few_words { fact_words s.vertices ≤ 262144 }
    ensures { IfOk result (λ g. (a : Analysis) → IsSkeleton p.now a s → AreFunctionGraphs p.now a parts.items → IsGraph p.now a g) }
{
    let vertices = s.vertices.as_slice();
    let places = Places::find(alloc, vertices)?;
    let sites = call_sites::find(alloc, p)?;
    let edges = part_edges::find(alloc, vertices, &places, sites.as_slice(), parts.as_slice())?;
    let rows = fact_rows::find(alloc, vertices, &places)?;
    Ok(Graph {
        vertices: s.vertices,
        edges: Items::from_vec(edges),
        outs: Items::from_vec(rows.outs),
        fact_words: rows.words,
    })
}
