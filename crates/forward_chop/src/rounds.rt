//! Rounds over the contexts of a chop: each way into a function that gained a result is taken, until none is due.
ghost use Rattle.std.specs.Prelude.{◌≡◌, ℕ, ◌<◌, Bool, length, false};
ghost use Rattle.bit_rows.specs.Sets.{has};
ghost use Rattle.matched_paths.specs.VertexRanges.{IsInRange};
ghost use Rattle.forward_chop.specs.Rounds.{AreParts, HasGone, IsIndex, IsOpen, IsPart, NoneDue};

use crate::field::Field;
use crate::wanted::Wanted;
use dep_model::{Graph, VertexId, VertexSet};
use matched_paths::EdgeGroups;

/// The edges of a graph in groups.
#[derive(Drop)]
pub(crate) struct CallIndex {
    /// Those that lead from the vertices of each function.
    pub(crate) starts: EdgeGroups,
    /// Those that leave each call.
    pub(crate) exits: EdgeGroups,
}

// Takes a way into a function, where it is due, and tells whether a pair is new.
fn visit(
    g: &Graph,
    index: &CallIndex,
    part: &mut Field,
    way_in: VertexId,
    wanted: &mut Wanted,
    into: &mut VertexSet,
) -> bool
    requires index { IsIndex g.now index.now.starts index.now.exits }
    requires part { IsPart g.now part.old }
    requires here { IsInRange part.old.range way_in }
    requires open_ { IsOpen g.now wanted.old into.old }
    ensures part { IsPart g.now part.new }
    ensures range { part.new.range ≡ part.old.range }
    ensures gone { HasGone g.now.edges wanted.old into.old wanted.new into.new result }
    ensures down { result ≡ false → has wanted.new.due.items way_in ≡ false }
{
    if !wanted.take(way_in) {
        return false;
    }
    part.search(way_in, wanted);
    part.collect(0, into);
    let function = g.vertices.as_slice()[way_in as usize].function;
    part.ask(0, index.starts.of(function), &index.exits, wanted)
}

// Takes the ways into a function that are due.
fn visit_all(
    g: &Graph,
    index: &CallIndex,
    part: &mut Field,
    wanted: &mut Wanted,
    into: &mut VertexSet,
) -> bool
    requires index { IsIndex g.now index.now.starts index.now.exits }
    requires part { IsPart g.now part.old }
    requires open_ { IsOpen g.now wanted.old into.old }
    ensures part { IsPart g.now part.new }
    ensures range { part.new.range ≡ part.old.range }
    ensures gone { HasGone g.now.edges wanted.old into.old wanted.new into.new result }
    ensures down { result ≡ false → NoneDue part.old.range wanted.new }
{
    let mut grows = false;
    for way_in in part.range.first..part.range.last {
        let more = visit(g, index, part, way_in, wanted, into);
        grows = grows | more;
    }
    grows
}

// Takes the functions from the last to the first, since callers mostly stand behind those that they call.
fn round(
    g: &Graph,
    index: &CallIndex,
    parts: &mut Vec<Field>,
    wanted: &mut Wanted,
    into: &mut VertexSet,
) -> bool
    requires index { IsIndex g.now index.now.starts index.now.exits }
    requires parts { AreParts g.now parts.old.items }
    requires open_ { IsOpen g.now wanted.old into.old }
    ensures parts { AreParts g.now parts.new.items }
    ensures gone { HasGone g.now.edges wanted.old into.old wanted.new into.new result }
    ensures down { result ≡ false → (x : ℕ) → x < length g.now.vertices → has wanted.new.due.items x ≡ false }
{
    let mut grows = false;
    let mut place = parts.len();
    while place > 0 {
        place -= 1;
        let more = visit_all(g, index, &mut parts[place], wanted, into);
        grows = grows | more;
    }
    grows
}

/// Rounds, until no way in is due.
pub(crate) fn settle(
    g: &Graph,
    index: &CallIndex,
    parts: &mut Vec<Field>,
    wanted: &mut Wanted,
    into: &mut VertexSet,
)
    requires index { IsIndex g.now index.now.starts index.now.exits }
    requires parts { AreParts g.now parts.old.items }
    requires open_ { IsOpen g.now wanted.old into.old }
    ensures parts { AreParts g.now parts.new.items }
    ensures gone { (grows : Bool) × HasGone g.now.edges wanted.old into.old wanted.new into.new grows }
    ensures down { (x : ℕ) → has wanted.new.due.items x ≡ false }
{
    let mut grows = true;
    while grows {
        grows = round(g, index, parts, wanted, into);
    }
}
