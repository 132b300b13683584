//! With which results of its calls each way into a function may be paired: between the first of them and the last.
ghost use Rattle.std.specs.Prelude.{◌≡◌, ℕ, ◌+◌, ◌<◌, ◌≤◌, ◌^◌, All, IfOk, IsTrue, [], ◌∷◌, length, get_or};
ghost use Rattle.matched_paths.specs.EdgeGroups.{group_at};
ghost use Rattle.matched_paths.specs.VertexRanges.{within};
ghost use Rattle.forward_chop.specs.Outs.{AreOrdered, HaveWidened, PairsBy, PairsFrom};
ghost use Rattle.forward_chop.specs.Pairs.{no_range};

use crate::field::opened;
use dep_model::{Edge, VertexId};
use matched_paths::{EdgeGroups, VertexRange};
use std::alloc::{AllocError, Global};

// The range with one vertex more, and those between.
fn widened(range: VertexRange, out: VertexId) -> VertexRange
    requires order { range.first ≤ range.last }
    requires few { out + 1 < 2 ^ 32 }
    ensures order { result.first ≤ result.last }
    ensures here { IsTrue (within result out) }
    ensures kept { (v : ℕ) → IsTrue (within range v) → IsTrue (within result v) }
{
    if range.first == range.last {
        VertexRange {
            first: out,
            last: out + 1,
        }
    } else {
        VertexRange {
            first: range.first.min(out),
            last: range.last.max(out + 1),
        }
    }
}

// Pairs a way in with the result from which one edge leads.
fn add_leave(outs: &mut [VertexRange], enter: VertexId, leave: Edge)
    requires order { AreOrdered outs.old }
    requires inside { enter < length outs.old }
    requires few { leave.from + 1 < 2 ^ 32 }
    ensures { HaveWidened (PairsBy enter (leave ∷ [])) outs.old outs.new }
{
    outs[enter as usize] = widened(outs[enter as usize], leave.from);
}

// Pairs a way in with the results from which a call is left.
fn add_leaves(outs: &mut [VertexRange], enter: VertexId, leaves: &[Edge])
    requires order { AreOrdered outs.old }
    requires inside { enter < length outs.old }
    requires few { All (λ e. e.from + 1 < 2 ^ 32) leaves.now }
    ensures { HaveWidened (PairsBy enter leaves.now) outs.old outs.new }
{
    for leave in leaves {
        add_leave(outs, enter, *leave);
    }
}

// Pairs the way in to which one edge leads that opens a call.
fn add_edge(outs: &mut [VertexRange], edge: Edge, exits: &EdgeGroups)
    requires order { AreOrdered outs.old }
    requires inside { edge.to < length outs.old }
    requires few { (c : ℕ) → All (λ e. e.from + 1 < 2 ^ 32) (group_at exits.now c) }
    ensures { HaveWidened (PairsFrom (edge ∷ []) exits.now) outs.old outs.new }
{
    match opened(edge.label) {
        None => {}
        Some(call) => add_leaves(outs, edge.to, exits.of(call)),
    }
}

// Pairs the ways in to which these edges lead.
fn add_edges(outs: &mut [VertexRange], edges: &[Edge], exits: &EdgeGroups)
    requires order { AreOrdered outs.old }
    requires inside { All (λ e. e.to < length outs.old) edges.now }
    requires few { (c : ℕ) → All (λ e. e.from + 1 < 2 ^ 32) (group_at exits.now c) }
    ensures { HaveWidened (PairsFrom edges.now exits.now) outs.old outs.new }
{
    for edge in edges {
        add_edge(outs, *edge, exits);
    }
}

/// For each vertex the results with which these edges pair it. Err: no memory was left.
pub(crate) fn outs_of(
    alloc: Global,
    size: u32,
    edges: &[Edge],
    exits: &EdgeGroups,
) -> Result<Vec<VertexRange>, AllocError>
    requires inside { All (λ e. e.to < size) edges.now }
    requires few { (c : ℕ) → All (λ e. e.from + 1 < 2 ^ 32) (group_at exits.now c) }
    ensures long { IfOk result (λ outs. length outs.items ≡ size) }
    ensures order { IfOk result (λ outs. AreOrdered outs.items) }
    ensures all { IfOk result (λ outs. (x o : ℕ) → PairsFrom edges.now exits.now x o → IsTrue (within (get_or outs.items x no_range) o)) }
{
    let none = VertexRange { first: 0, last: 0 };
    let mut outs = vec![in alloc; none; size as usize]?;
    add_edges(outs.as_mut_slice(), edges, exits);
    Ok(outs)
}
