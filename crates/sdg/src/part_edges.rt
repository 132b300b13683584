//! The edges of functions' graphs, and those at calls, in one list.
ghost use Rattle.std.specs.Prelude.{◌≡◌, ◌↔◌, ◌⊎◌, ℕ, OnOk, IfOk, Contains, Any};
ghost use Rattle.dep_model.specs.EdgeOrder.{AreAscendingEdges};
ghost use Rattle.dep_model.specs.declared.edge.Edge.{Edge};
ghost use Rattle.dep_model.specs.declared.graph.FunctionGraph.{FunctionGraph};
ghost use Rattle.sdg.specs.SiteEdges.{Adds, ArePlaces, IsSiteEdge};
ghost use Rattle.sdg.specs.GraphEdges.{IsPartEdge, IsEdgeOfSites};

use crate::call_sites::CallSite;
use crate::places::Places;
use crate::{call_edges, edge_order};
use dep_model::{Edge, FunctionGraph, Vertex};
use std::alloc::{AllocError, Global};

// Appends the edges of graphs.
fn join_parts(edges: &mut Vec<Edge>, parts: &[FunctionGraph]) -> Result<(), AllocError>
    ensures { OnOk result (Adds edges.old.items edges.new.items (IsPartEdge parts.now)) }
{
    for part in parts {
        edges.extend_from_slice(part.edges.as_slice())?;
    }
    Ok(())
}

// Appends the edges at calls.
fn join_sites(
    edges: &mut Vec<Edge>,
    vertices: &[Vertex],
    places: &Places,
    sites: &[CallSite],
) -> Result<(), AllocError>
    requires places { ArePlaces vertices.now places.now }
    ensures { OnOk result (Adds edges.old.items edges.new.items (IsEdgeOfSites vertices.now sites.now)) }
{
    for site in sites {
        call_edges::join_site(edges, vertices, places, *site)?;
    }
    Ok(())
}

/// The edges of the functions' graphs and those at calls, ascending, each once. Err: no memory was left.
pub(crate) fn find(
    alloc: Global,
    vertices: &[Vertex],
    places: &Places,
    sites: &[CallSite],
    parts: &[FunctionGraph],
) -> Result<Vec<Edge>, AllocError>
    requires places { ArePlaces vertices.now places.now }
    ensures exact { IfOk result (λ es. (e : Edge) → Contains es.items e ↔ (IsPartEdge parts.now e ⊎ IsEdgeOfSites vertices.now sites.now e)) }
    ensures ascending { IfOk result (λ es. AreAscendingEdges es.items) }
{
    let mut edges = Vec::new(alloc);
    join_parts(&mut edges, parts)?;
    join_sites(&mut edges, vertices, places, sites)?;
    edge_order::ascend(&mut edges);
    Ok(edges)
}
