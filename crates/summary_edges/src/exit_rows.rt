//! For each vertex of a function the formal-outs that it reaches inside: rows of bits, joined along the function's edges and over
//! its calls until none grows.
ghost use Rattle.std.specs.Prelude.{◌≡◌, ◌↔◌, ℕ, ◌+◌, ◌-◌, ◌<◌, ◌≤◌, Bool, true, false, IfOk, Some, Contains, length, set, slice_get};
ghost use Rattle.bit_rows.specs.Sets.{has};
ghost use Rattle.bit_rows.specs.Tables.{Holds, IsGrown};
ghost use Rattle.dep_model.specs.Facts.{HoldsFact, IsInnerEdge};
ghost use Rattle.dep_model.specs.Graphs.{edge};
ghost use Rattle.dep_model.specs.Shapes.{IsShaped};
ghost use Rattle.dep_model.specs.declared.edge.Label.TheVariants as label;
ghost use Rattle.matched_paths.specs.VertexRanges.{IsInRange};
ghost use Rattle.summary_edges.specs.ExitRows.{IsTable, HasRoom, HaveOneShape, IsJoined, HasSpread, IsAbove, IsFilling, IsFilled, AreExits, LacksNews, gives};
ghost use Rattle.summary_edges.specs.FactIndexes.{IsIndex};
ghost use Rattle.summary_edges.specs.FunctionParts.{IsPart};

use crate::fact_index::FactIndex;
use crate::function_parts::FunctionPart;
use bit_rows::Rows;
use dep_model::{Edge, Graph, Label, VertexId};
use matched_paths::VertexRange;
use std::alloc::{AllocError, Global};

/// For each vertex of a function the formal-outs that it reaches inside. Vertices are counted from the first of the function on,
/// and formal-outs from the first of its rows on.
#[derive(Drop)]
pub(crate) struct ExitRows {
    /// A row for each vertex, with a bit for each formal-out.
    pub(crate) rows: Rows,
    /// Whether a vertex is still to be taken, since its row has grown.
    pub(crate) fresh: Vec<bool>,
}

impl ExitRows {
    /// Rows for the largest of some functions, and so for each of them. Err: no memory was left.
    pub(crate) fn new(
        alloc: Global,
        g: &Graph,
        parts: &[FunctionPart],
    ) -> Result<ExitRows, AllocError>
        requires parts { (i : ℕ) (p : FunctionPart) → slice_get parts.now i ≡ Some p → IsPart g.now p }
        ensures { IfOk result (λ x. (i : ℕ) (p : FunctionPart) → slice_get parts.now i ≡ Some p → HasRoom p x) }
    {
        let mut vertices = 0u32;
        let mut exits = 0u32;
        for part in parts {
            vertices = vertices.max(part.range.last - part.range.first);
            exits = exits.max(part.last_row - part.first_row);
        }
        let rows = Rows::new(alloc, vertices, exits)?;
        let fresh = vec![in alloc; false; vertices as usize]?;
        Ok(ExitRows { rows, fresh })
    }

    // Joins the row of one vertex into that of another, which is to be taken again where it grows. Tells whether it does.
    fn join(&mut self, to: u32, from: u32) -> bool
        requires table { IsTable self.old }
        requires to_in { to < length self.old.rows.sets }
        requires from_in { from < length self.old.rows.sets }
        ensures { IsJoined to from self.old self.new result }
    {
        if !self.rows.join_into(to, from) {
            return false;
        }
        self.fresh[to as usize] = true;
        true
    }

    // Joins the row of a vertex into that of one from which an edge leads to it, where that is one of the range.
    fn join_back(&mut self, range: VertexRange, to: VertexId, from: VertexId) -> bool
        requires table { IsTable self.old }
        requires room { range.last - range.first ≤ length self.old.rows.sets }
        requires from_in { IsInRange range from }
        ensures spread { HasSpread (λ j. IsInRange range to × (j ≡ to - range.first)) (from - range.first) self.old self.new result }
        ensures above { IsInRange range to → IsAbove self.new (to - range.first) (from - range.first) }
    {
        if range.has(to) {
            self.join(to - range.first, from - range.first)
        } else {
            false
        }
    }

    // Goes back over one call, from an actual-out to the actual-ins on which it depends by the facts.
    fn cross(
        &mut self,
        g: &Graph,
        index: &FactIndex,
        known: &[u64],
        range: VertexRange,
        call: VertexId,
        leave: Edge,
    ) -> bool
        requires table { IsTable self.old }
        requires room { range.last - range.first ≤ length self.old.rows.sets }
        requires index { IsIndex g.now index.now }
        requires leave { Contains g.now.edges leave }
        requires label { leave.label ≡ label.Out call }
        requires to_in { IsInRange range leave.to }
        ensures spread { HasSpread (λ j. IsInnerEdge g.now.edges (HoldsFact g.now known.now) (range.first + j) leave.to) (leave.to - range.first) self.old self.new result }
        ensures above { (u x : ℕ) → IsInRange range u → Contains g.now.edges (edge u x (label.In call)) → HoldsFact g.now known.now x leave.from
            → IsAbove self.new (u - range.first) (leave.to - range.first) }
    {
        let enters = index.entries.of(call);
        let mut grows = false;
        for enter in enters {
            if index.places.holds(known, enter.to, leave.from) {
                let more = self.join_back(range, enter.from, leave.to);
                grows = grows | more;
            }
        }
        grows
    }

    // Goes back along one edge that leads to a vertex of the range, or over the call that it leaves.
    fn follow(
        &mut self,
        g: &Graph,
        index: &FactIndex,
        known: &[u64],
        range: VertexRange,
        edge: Edge,
    ) -> bool
        requires table { IsTable self.old }
        requires room { range.last - range.first ≤ length self.old.rows.sets }
        requires index { IsIndex g.now index.now }
        requires edge { Contains g.now.edges edge }
        requires to_in { IsInRange range edge.to }
        ensures spread { HasSpread (λ j. IsInnerEdge g.now.edges (HoldsFact g.now known.now) (range.first + j) edge.to) (edge.to - range.first) self.old self.new result }
        ensures above { (u : ℕ) → IsInRange range u → gives edge.label g.now.edges (HoldsFact g.now known.now) edge u
            → IsAbove self.new (u - range.first) (edge.to - range.first) }
    {
        match edge.label {
            Label::Control | Label::Flow => self.join_back(range, edge.from, edge.to),
            Label::Out(call) => self.cross(g, index, known, range, call, edge),
            Label::Call(_) | Label::In(_) => false,
        }
    }

    // Joins the row of a vertex into those of all from which inner edges lead to it.
    fn spread(
        &mut self,
        g: &Graph,
        index: &FactIndex,
        known: &[u64],
        range: VertexRange,
        vertex: VertexId,
    ) -> bool
        requires table { IsTable self.old }
        requires room { range.last - range.first ≤ length self.old.rows.sets }
        requires index { IsIndex g.now index.now }
        requires vertex_in { IsInRange range vertex }
        ensures spread { HasSpread (λ j. IsInnerEdge g.now.edges (HoldsFact g.now known.now) (range.first + j) vertex) (vertex - range.first) self.old self.new result }
        ensures above { (u : ℕ) → IsInRange range u → IsInnerEdge g.now.edges (HoldsFact g.now known.now) u vertex
            → IsAbove self.new (u - range.first) (vertex - range.first) }
    {
        let edges = index.ends.of(vertex);
        let mut grows = false;
        for edge in edges {
            let more = self.follow(g, index, known, range, *edge);
            grows = grows | more;
        }
        grows
    }

    // Takes a vertex whose row has grown.
    fn take(
        &mut self,
        g: &Graph,
        index: &FactIndex,
        known: &[u64],
        part: FunctionPart,
        vertex: VertexId,
    ) -> bool
        requires index { IsIndex g.now index.now }
        requires vertex_in { IsInRange part.range vertex }
        requires filling { IsFilling g.now (HoldsFact g.now known.now) part self.old }
        ensures filling { IsFilling g.now (HoldsFact g.now known.now) part self.new }
        ensures shape { HaveOneShape self.old self.new }
        ensures grown { IsGrown self.old.rows self.new.rows result }
        ensures taken { result ≡ false → self.new.fresh.items ≡ set self.old.fresh.items (vertex - part.range.first) false }
    {
        self.fresh[(vertex - part.range.first) as usize] = false;
        self.spread(g, index, known, part.range, vertex)
    }

    // Takes each vertex whose row has grown, from the last on. Tells whether a row grows.
    fn sweep(&mut self, g: &Graph, index: &FactIndex, known: &[u64], part: FunctionPart) -> bool
        requires index { IsIndex g.now index.now }
        requires filling { IsFilling g.now (HoldsFact g.now known.now) part self.old }
        ensures filling { IsFilling g.now (HoldsFact g.now known.now) part self.new }
        ensures shape { HaveOneShape self.old self.new }
        ensures grown { IsGrown self.old.rows self.new.rows result }
        ensures done { result ≡ false → (v : ℕ) → IsInRange part.range v → has self.new.fresh.items (v - part.range.first) ≡ false }
    {
        let mut grows = false;
        let mut vertex = part.range.last;
        while vertex > part.range.first {
            vertex -= 1;
            let fresh = self.fresh[(vertex - part.range.first) as usize];
            if fresh {
                let more = self.take(g, index, known, part, vertex);
                grows = grows | more;
            }
        }
        grows
    }

    // Makes the rows of a function empty.
    fn clear(&mut self, part: FunctionPart)
        requires order { part.range.first ≤ part.range.last }
        requires room { HasRoom part self.old }
        ensures shape { HaveOneShape self.old self.new }
        ensures empty { (j k : ℕ) → j < part.range.last - part.range.first → Holds self.new.rows j k → ⊥ }
    {
        for vertex in 0..part.range.last - part.range.first {
            self.rows.clear(vertex);
            self.fresh[vertex as usize] = false;
        }
    }

    // Makes the rows of a function those in which each formal-out reaches itself alone.
    fn begin(&mut self, g: &Graph, known: &[u64], part: FunctionPart)
        requires shaped { IsShaped g.now }
        requires part { IsPart g.now part }
        requires room { HasRoom part self.old }
        ensures filling { IsFilling g.now (HoldsFact g.now known.now) part self.new }
        ensures shape { HaveOneShape self.old self.new }
    {
        self.clear(part);
        for exit in 0..part.last_row - part.first_row {
            let vertex = g.outs.as_slice()[(part.first_row + exit) as usize].vertex
                - part.range.first;
            self.rows.set(vertex, exit);
            self.fresh[vertex as usize] = true;
        }
    }

    // Takes each vertex whose row has grown, until there is none.
    fn close(&mut self, g: &Graph, index: &FactIndex, known: &[u64], part: FunctionPart)
        requires index { IsIndex g.now index.now }
        requires filling { IsFilling g.now (HoldsFact g.now known.now) part self.old }
        ensures filled { IsFilled g.now (HoldsFact g.now known.now) part self.new }
        ensures shape { HaveOneShape self.old self.new }
    {
        while self.sweep(g, index, known, part) {}
    }

    /// Makes the rows of a function exactly those of the formal-outs that its vertices reach inside, by the facts that are known.
    pub(crate) fn fill(&mut self, g: &Graph, index: &FactIndex, known: &[u64], part: FunctionPart)
        requires index { IsIndex g.now index.now }
        requires part { IsPart g.now part }
        requires room { HasRoom part self.old }
        ensures filled { IsFilled g.now (HoldsFact g.now known.now) part self.new }
        ensures exact { AreExits g.now (HoldsFact g.now known.now) part self.new }
        ensures shape { HaveOneShape self.old self.new }
    {
        self.begin(g, known, part);
        self.close(g, index, known, part);
    }

    // Joins the row of each vertex into those of all from which inner edges lead to it that news give.
    fn renew(
        &mut self,
        g: &Graph,
        index: &FactIndex,
        news: &[u64],
        known: &[u64],
        part: FunctionPart,
    )
        requires index { IsIndex g.now index.now }
        requires lacks { LacksNews g.now part news.now known.now self.old }
        ensures filling { IsFilling g.now (HoldsFact g.now known.now) part self.new }
        ensures shape { HaveOneShape self.old self.new }
    {
        for vertex in part.range.first..part.range.last {
            self.spread(g, index, news, part.range, vertex);
        }
    }

    /// Makes the rows of a function, which are filled by the facts that are known but for news, those by all. It costs a join for each
    /// edge of the function, and what the news change.
    pub(crate) fn refill(
        &mut self,
        g: &Graph,
        index: &FactIndex,
        news: &[u64],
        known: &[u64],
        part: FunctionPart,
    )
        requires index { IsIndex g.now index.now }
        requires lacks { LacksNews g.now part news.now known.now self.old }
        ensures filled { IsFilled g.now (HoldsFact g.now known.now) part self.new }
        ensures shape { HaveOneShape self.old self.new }
    {
        self.renew(g, index, news, known, part);
        self.close(g, index, known, part);
    }
}
