//! Edges in groups by a number: those that enter or leave a call, those inside a function, and those that lead to a vertex.
ghost use Rattle.std.specs.Prelude.{◌≡◌, ℕ, ◌<◌, ◌++◌, OnOk, IfOk, length, flat_map, slice_get};
ghost use Rattle.matched_paths.specs.EdgeGroups.{group_at, grouped, if_group, starts_at, leaving, starting, ending, entering, calling};

use dep_model::{Edge, Label, Vertex, VertexId};
use std::alloc::{AllocError, Global};
use std::marker::Model;

/// Edges of a graph in groups by a number, each group in the order of the edges.
#[derive(Drop)]
pub struct EdgeGroups {
    rows: Vec<Vec<Edge>>,
}

impl Model for EdgeGroups {
    ghost use Rattle.std.specs.Prelude.{List};
    ghost use Rattle.dep_model.specs.declared.edge.Edge.{Edge};
    ghost use Rattle.matched_paths.specs.EdgeGroups.{rows_of};

    ghost Value = { List (List Edge) };

    ghost view = { λ g. rows_of g.rows };
}

impl EdgeGroups {
    /// The edges that leave each call, by the call's vertex. Err: no memory was left.
    pub fn by_call(alloc: Global, edges: &[Edge]) -> Result<EdgeGroups, AllocError>
        ensures { IfOk result (λ g. (c : ℕ) → group_at g c ≡ flat_map (leaving c) edges.now) }
    {
        let mut rows = Vec::new(alloc);
        for edge in edges {
            add_exit(alloc, &mut rows, *edge)?;
        }
        Ok(EdgeGroups { rows })
    }

    /// The edges that lead from each function's vertices, by the function. Err: no memory was left.
    pub fn by_function(
        alloc: Global,
        vertices: &[Vertex],
        edges: &[Edge],
    ) -> Result<EdgeGroups, AllocError>
        ensures { IfOk result (λ g. (f : ℕ) → group_at g f ≡ flat_map (starting vertices.now f) edges.now) }
    {
        let mut rows = Vec::new(alloc);
        for edge in edges {
            add_by_function(alloc, &mut rows, vertices, edge.from, *edge)?;
        }
        Ok(EdgeGroups { rows })
    }

    /// The edges that lead to each vertex, by the vertex. Err: no memory was left.
    pub fn by_end(alloc: Global, edges: &[Edge]) -> Result<EdgeGroups, AllocError>
        ensures { IfOk result (λ g. (v : ℕ) → group_at g v ≡ flat_map (ending v) edges.now) }
    {
        let mut rows = Vec::new(alloc);
        for edge in edges {
            add(alloc, &mut rows, edge.to, *edge)?;
        }
        Ok(EdgeGroups { rows })
    }

    /// The edges that lead from the actual-ins of each call to formal-ins, by the call's vertex. Err: no memory was left.
    pub fn by_call_entered(alloc: Global, edges: &[Edge]) -> Result<EdgeGroups, AllocError>
        ensures { IfOk result (λ g. (c : ℕ) → group_at g c ≡ flat_map (entering c) edges.now) }
    {
        let mut rows = Vec::new(alloc);
        for edge in edges {
            add_entry(alloc, &mut rows, *edge)?;
        }
        Ok(EdgeGroups { rows })
    }

    /// The edges from call vertices to the entry of each function, by the function. Err: no memory was left.
    pub fn by_callee(
        alloc: Global,
        vertices: &[Vertex],
        edges: &[Edge],
    ) -> Result<EdgeGroups, AllocError>
        ensures { IfOk result (λ g. (h : ℕ) → group_at g h ≡ flat_map (calling vertices.now h) edges.now) }
    {
        let mut rows = Vec::new(alloc);
        for edge in edges {
            add_call(alloc, &mut rows, vertices, *edge)?;
        }
        Ok(EdgeGroups { rows })
    }

    /// The edges of a group: none where no edge has its number.
    pub fn of(&self, number: u32) -> &[Edge]
        ensures { result.now ≡ group_at self.now number }
    {
        row_of(&self.rows, number)
    }
}

// The edges of a row, none where there is no such row.
fn row_of(rows: &Vec<Vec<Edge>>, number: u32) -> &[Edge]
    ensures { result.now ≡ grouped rows.now number }
{
    if (number as usize) < rows.len() {
        rows[number as usize].as_slice()
    } else {
        &[]
    }
}

// Adds an edge to those that leave its call.
fn add_exit(alloc: Global, rows: &mut Vec<Vec<Edge>>, edge: Edge) -> Result<(), AllocError>
    ensures { OnOk result ((c : ℕ) → grouped rows.new c ≡ grouped rows.old c ++ leaving c edge) }
{
    if let Label::Out(call) = edge.label {
        add(alloc, rows, call, edge)?;
    }
    Ok(())
}

// Adds an edge to those that enter its call.
fn add_entry(alloc: Global, rows: &mut Vec<Vec<Edge>>, edge: Edge) -> Result<(), AllocError>
    ensures { OnOk result ((c : ℕ) → grouped rows.new c ≡ grouped rows.old c ++ entering c edge) }
{
    if let Label::In(call) = edge.label {
        add(alloc, rows, call, edge)?;
    }
    Ok(())
}

// Adds an edge to the calls of the function to whose entry it leads.
fn add_call(
    alloc: Global,
    rows: &mut Vec<Vec<Edge>>,
    vertices: &[Vertex],
    edge: Edge,
) -> Result<(), AllocError>
    ensures { OnOk result ((h : ℕ) → grouped rows.new h ≡ grouped rows.old h ++ calling vertices.now h edge) }
{
    match edge.label {
        Label::Call(_) => add_by_function(alloc, rows, vertices, edge.to, edge),
        Label::Control | Label::Flow | Label::In(_) | Label::Out(_) => Ok(()),
    }
}

// Adds an edge to those of the function of a vertex.
fn add_by_function(
    alloc: Global,
    rows: &mut Vec<Vec<Edge>>,
    vertices: &[Vertex],
    vertex: VertexId,
    edge: Edge,
) -> Result<(), AllocError>
    ensures { OnOk result ((f : ℕ) → grouped rows.new f ≡ grouped rows.old f ++ starts_at (slice_get vertices.now vertex) f edge) }
{
    match vertices.get(vertex as usize) {
        Some(vertex) => add(alloc, rows, vertex.function, edge),
        None => Ok(()),
    }
}

// Adds an edge to a group.
fn add(alloc: Global, rows: &mut Vec<Vec<Edge>>, number: u32, edge: Edge) -> Result<(), AllocError>
    ensures { OnOk result ((c : ℕ) → grouped rows.new c ≡ grouped rows.old c ++ if_group number c edge) }
{
    let at = number as usize;
    while rows.len() <= at {
        rows.push(Vec::new(alloc))?;
    }
    push_at(rows, at, edge)?;
    Ok(())
}

// Adds an edge to a row that is there.
fn push_at(rows: &mut Vec<Vec<Edge>>, at: usize, edge: Edge) -> Result<(), AllocError>
    requires { at < length rows.old.items }
    ensures { OnOk result ((c : ℕ) → grouped rows.new c ≡ grouped rows.old c ++ if_group at c edge) }
{
    rows[at].push(edge)?;
    Ok(())
}
