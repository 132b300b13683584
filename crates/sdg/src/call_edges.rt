//! The edges at calls: from the call to the entry of the function called, from its actual-ins to the
//! formal-ins of their slots, and from formal-outs to its actual-outs.
ghost use Rattle.std.specs.Prelude.{◌≡◌, ℕ, ◌<◌, ◌↔◌, IsTrue, OnOk, length, Contains, All};
ghost use Rattle.dep_model.specs.declared.edge.Edge.{Edge};
ghost use Rattle.dep_model.specs.declared.vertex.VertexKind.TheVariants as kind;
ghost use Rattle.dep_model.specs.VertexOrder.{in_function};
ghost use Rattle.sdg.specs.SiteEdges.{Adds, ArePlaces, IsActualEdge, IsEdgeAt, IsEntryEdge, IsSiteEdge, Enters, Leaves};
ghost use Rattle.sdg.specs.VertexLists.{list_at};
ghost use Rattle.sdg.specs.declared.call_sites.CallSite.{CallSite};

use crate::call_sites::CallSite;
use crate::places::Places;
use dep_model::{Edge, Label, Slot, Vertex, VertexId, VertexKind};
use std::alloc::AllocError;

// Appends an edge from the call to each entry of the function called.
fn join_entry(
    edges: &mut Vec<Edge>,
    vertices: &[Vertex],
    places: &Places,
    site: CallSite,
    call: VertexId,
) -> Result<(), AllocError>
    requires places { ArePlaces vertices.now places.now }
    ensures { OnOk result (Adds edges.old.items edges.new.items (IsEntryEdge vertices.now site call)) }
{
    for entry in places.entries.at(site.callee) {
        edges.push(Edge {
            from: call,
            to: *entry,
            label: Label::Call(call),
        })?;
    }
    Ok(())
}

// Appends an edge from an actual-in to each formal-in of its slot.
fn enter(
    edges: &mut Vec<Edge>,
    vertices: &[Vertex],
    formals: &[VertexId],
    slot: Slot,
    actual: VertexId,
    call: VertexId,
) -> Result<(), AllocError>
    requires within { All (λ v. v < length vertices.now) formals.now }
    ensures { OnOk result (Adds edges.old.items edges.new.items (Enters vertices.now formals.now slot actual call)) }
{
    for formal in formals {
        if vertices[*formal as usize].kind == VertexKind::FormalIn(slot) {
            edges.push(Edge {
                from: actual,
                to: *formal,
                label: Label::In(call),
            })?;
        }
    }
    Ok(())
}

// Appends an edge to an actual-out from each formal-out of its slot.
fn leave(
    edges: &mut Vec<Edge>,
    vertices: &[Vertex],
    formals: &[VertexId],
    slot: Slot,
    actual: VertexId,
    call: VertexId,
) -> Result<(), AllocError>
    requires within { All (λ v. v < length vertices.now) formals.now }
    ensures { OnOk result (Adds edges.old.items edges.new.items (Leaves vertices.now formals.now slot actual call)) }
{
    for formal in formals {
        if vertices[*formal as usize].kind == VertexKind::FormalOut(slot) {
            edges.push(Edge {
                from: *formal,
                to: actual,
                label: Label::Out(call),
            })?;
        }
    }
    Ok(())
}

// Appends the edges of a vertex of the call statement, where it is an actual of the call.
fn join_actual(
    edges: &mut Vec<Edge>,
    vertices: &[Vertex],
    places: &Places,
    site: CallSite,
    call: VertexId,
    actual: VertexId,
) -> Result<(), AllocError>
    requires places { ArePlaces vertices.now places.now }
    requires within { actual < length vertices.now }
    requires of_statement { Contains (list_at places.now.calls site.statement) actual }
    ensures { OnOk result (Adds edges.old.items edges.new.items (IsActualEdge vertices.now site call actual)) }
{
    let vertex = vertices[actual as usize];
    if vertex.function != site.function {
        return Ok(());
    }
    match vertex.kind {
        VertexKind::ActualIn(_, slot) => {
            enter(
                edges,
                vertices,
                places.formal_ins.at(site.callee),
                slot,
                actual,
                call,
            )?;
            Ok(())
        }
        VertexKind::ActualOut(_, slot) => {
            leave(
                edges,
                vertices,
                places.formal_outs.at(site.callee),
                slot,
                actual,
                call,
            )?;
            Ok(())
        }
        _ => Ok(()),
    }
}

// Appends the edges at a call, by its vertex.
fn join_call(
    edges: &mut Vec<Edge>,
    vertices: &[Vertex],
    places: &Places,
    site: CallSite,
    call: VertexId,
) -> Result<(), AllocError>
    requires places { ArePlaces vertices.now places.now }
    ensures { OnOk result (Adds edges.old.items edges.new.items (IsEdgeAt vertices.now site call)) }
{
    join_entry(edges, vertices, places, site, call)?;
    for actual in places.calls.at(site.statement) {
        join_actual(edges, vertices, places, site, call, *actual)?;
    }
    Ok(())
}

// Whether a vertex is the call's.
fn is_call_of(vertex: &Vertex, site: CallSite) -> bool
    ensures { IsTrue result ↔ (vertex.now ≡ in_function site.function (kind.Call site.statement)) }
{
    vertex.function == site.function && vertex.kind == VertexKind::Call(site.statement)
}

/// Appends the edges at a call.
pub(crate) fn join_site(
    edges: &mut Vec<Edge>,
    vertices: &[Vertex],
    places: &Places,
    site: CallSite,
) -> Result<(), AllocError>
    requires places { ArePlaces vertices.now places.now }
    ensures { OnOk result (Adds edges.old.items edges.new.items (IsSiteEdge vertices.now site)) }
{
    for vertex in places.calls.at(site.statement) {
        if is_call_of(&vertices[*vertex as usize], site) {
            join_call(edges, vertices, places, site, *vertex)?;
        }
    }
    Ok(())
}
