//! Dependence graphs as text: a line for each vertex, then a line for each edge.
#![tactic(auto)]

ghost use Rattle.std.specs.Prelude.{◌≡◌, ◌≤◌, ◌^◌, IfOk, length};
ghost use Rattle.graph_text.specs.Lines.{graph_words, members_words};

mod edges;
mod names;
mod places;
mod rows;
mod vertices;

use c_tree::Program;
use dep_model::{Graph, Locations, Text, VertexSet};
use std::alloc::{AllocError, Global};

/// The printed form of a graph of the program, whose locations are `l`: a line for each vertex by its number, as
/// `8 main statement 8`, and then a line for each edge, as `8 -> 10 flow`. Err: no memory was left.
pub fn graph(alloc: Global, p: &Program, l: &Locations, g: &Graph) -> Result<Text, AllocError>
    requires few { length g.now.vertices ≤ 2 ^ 32 }
    ensures { IfOk result (λ text. text ≡ graph_words p.now l.now g.now) }
{
    let rows = rows::rows_of(alloc, p)?;
    let mut text = Text::new(alloc);
    vertices::append_all(
        alloc,
        p,
        rows.as_slice(),
        l,
        g.vertices.as_slice(),
        &mut text,
    )?;
    edges::append_all(alloc, g.edges.as_slice(), &mut text)?;
    Ok(text)
}

/// The lines of the vertices of a graph of the program that are in the set, each with its number in the graph. Err: no
/// memory was left.
pub fn members(
    alloc: Global,
    p: &Program,
    l: &Locations,
    g: &Graph,
    s: &VertexSet,
) -> Result<Text, AllocError>
    requires size { length s.now ≡ length g.now.vertices }
    ensures { IfOk result (λ text. text ≡ members_words p.now l.now g.now s.now) }
{
    let rows = rows::rows_of(alloc, p)?;
    let mut text = Text::new(alloc);
    vertices::append_members(
        alloc,
        p,
        rows.as_slice(),
        l,
        g.vertices.as_slice(),
        s,
        &mut text,
    )?;
    Ok(text)
}
