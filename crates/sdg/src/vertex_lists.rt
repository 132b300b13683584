//! Vertices listed by the function or the statement that they belong to.
ghost use Rattle.std.specs.Prelude.{◌≡◌, ℕ, ◌<◌, ◌^◌, ◌++◌, [], IfOk, OnOk, length};
ghost use Rattle.sdg.specs.VertexLists as spec;
ghost use Rattle.sdg.specs.VertexLists.{key_of, list_at, lists_of, AreVertexLists};

use dep_model::{Vertex, VertexId, VertexKind};
use std::alloc::{AllocError, Global};
use std::marker::Model;

/// Which vertices are listed, and by what.
#[derive(Clone, Copy, Debug, PartialEq, Eq)]
pub(crate) enum Grouping {
    /// Entries, by their function.
    Entries,
    /// Formal-ins, by their function.
    FormalIns,
    /// Formal-outs, by their function.
    FormalOuts,
    /// Call vertices and actuals, by their statement.
    Calls,
}

/// Vertices in lists, which have numbers. Contracts see the lists.
#[derive(Drop)]
pub(crate) struct VertexLists {
    lists: Vec<Vec<VertexId>>,
}

impl Model for VertexLists {
    ghost use Rattle.std.specs.Prelude.{List, ℕ};
    ghost use Rattle.sdg.specs.VertexLists.{lists_of};

    ghost Value = { List (List ℕ) };

    ghost view = { λ t. lists_of t.lists };
}

impl VertexLists {
    /// Lists the vertices of a grouping, each list ascending. Err: no memory was left.
    pub(crate) fn find(
        alloc: Global,
        vertices: &[Vertex],
        grouping: Grouping,
    ) -> Result<VertexLists, AllocError>
        requires few { length vertices.now < 2 ^ 32 }
        ensures { IfOk result (λ t. AreVertexLists grouping vertices.now t) }
    {
        let mut lists = Vec::new(alloc);
        let mut number = 0u32;
        for vertex in vertices {
            add_vertex(alloc, &mut lists, grouping, number, vertex)?;
            number += 1;
        }
        Ok(VertexLists { lists })
    }

    /// The vertices of a function or a statement, by its number.
    pub(crate) fn at(&self, key: u32) -> &[VertexId]
        ensures { result.now ≡ list_at self.now key }
    {
        if (key as usize) < self.lists.len() {
            self.lists[key as usize].as_slice()
        } else {
            &[]
        }
    }
}

// What a vertex is listed by.
fn key_of(grouping: Grouping, vertex: &Vertex) -> Option<u32>
    ensures { result ≡ key_of grouping vertex.now }
{
    match (grouping, vertex.kind) {
        (Grouping::Entries, VertexKind::Entry) => Some(vertex.function),
        (Grouping::FormalIns, VertexKind::FormalIn(_)) => Some(vertex.function),
        (Grouping::FormalOuts, VertexKind::FormalOut(_)) => Some(vertex.function),
        (Grouping::Calls, VertexKind::Call(id)) => Some(id),
        (Grouping::Calls, VertexKind::ActualIn(id, _)) => Some(id),
        (Grouping::Calls, VertexKind::ActualOut(id, _)) => Some(id),
        _ => None,
    }
}

// Lists a vertex, where it belongs to the grouping.
fn add_vertex(
    alloc: Global,
    lists: &mut Vec<Vec<VertexId>>,
    grouping: Grouping,
    number: VertexId,
    vertex: &Vertex,
) -> Result<(), AllocError>
    ensures { OnOk result ((k : ℕ) → list_at (lists_of lists.new) k ≡ list_at (lists_of lists.old) k ++ spec.if_key grouping k number vertex.now) }
{
    if let Some(key) = key_of(grouping, vertex) {
        add(alloc, lists, key, number)?;
    }
    Ok(())
}

// Adds a vertex to a list, which is made where there is none.
fn add(
    alloc: Global,
    lists: &mut Vec<Vec<VertexId>>,
    key: u32,
    number: VertexId,
) -> Result<(), AllocError>
    ensures { OnOk result ((k : ℕ) → list_at (lists_of lists.new) k ≡ list_at (lists_of lists.old) k ++ spec.if_same key k number) }
{
    let at = key as usize;
    while lists.len() <= at {
        lists.push(Vec::new(alloc))?;
    }
    push_at(lists, at, number)?;
    Ok(())
}

// Adds a vertex to a list that is there.
fn push_at(lists: &mut Vec<Vec<VertexId>>, at: usize, number: VertexId) -> Result<(), AllocError>
    requires { at < length lists.old.items }
    ensures { OnOk result ((k : ℕ) → list_at (lists_of lists.new) k ≡ list_at (lists_of lists.old) k ++ spec.if_same at k number) }
{
    lists[at].push(number)?;
    Ok(())
}
