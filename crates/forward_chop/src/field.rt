//! Two searches over the same vertices: what is ahead of some, and what is behind others.
ghost use Rattle.std.specs.Prelude.{◌≡◌, ℕ, ◌+◌, ◌-◌, ◌<◌, ◌≤◌, ◌^◌, ◌⊎◌, ◌↔◌, ◌&&◌, IsTrue, length, Some, None, [], ◌∷◌};
ghost use Rattle.bit_rows.specs.Sets.{has};
ghost use Rattle.forward_chop.specs.Fields.{HasRoom, IsAhead, IsBehind, LeavesFrom, AsksFrom, HaveMarksChanged, IsBackFrom, IsFitted, IsOutOf, IsSearched, is_marked, opened};
ghost use Rattle.forward_chop.specs.Pairs.{IsLaid, HasAsked, asks};
ghost use Rattle.matched_paths.specs.StepRules.{IsBack};
ghost use Rattle.matched_paths.specs.VertexRanges.{IsInRange};

use crate::wanted::Wanted;
use dep_model::{Closure, Edge, Label, VertexId, VertexSet};
use matched_paths::{EdgeGroups, VertexRange};

/// Vertices, with what is marked of them in two searches.
#[derive(Drop)]
pub(crate) struct Field {
    /// The vertices.
    pub(crate) range: VertexRange,
    /// The rules by which more is ahead.
    pub(crate) ahead: Closure,
    /// The rules by which more is behind.
    pub(crate) behind: Closure,
    /// What is ahead.
    pub(crate) reached: VertexSet,
    /// What is behind.
    pub(crate) reaching: VertexSet,
}

/// The call that an edge of this label opens.
pub(crate) fn opened(label: Label) -> Option<VertexId>
    ensures { result ≡ opened label }
{
    match label {
        Label::Call(call) => Some(call),
        Label::In(call) => Some(call),
        Label::Control => None,
        Label::Flow => None,
        Label::Out(_) => None,
    }
}

// Whether a vertex of the range is marked, where `base` is the number of the first.
fn is_marked(marks: &VertexSet, range: VertexRange, base: u32, vertex: VertexId) -> bool
    requires room { base + (range.last - range.first) ≤ length marks.now }
    requires few { length marks.now < 2 ^ 32 }
    ensures { result ≡ is_marked marks.now range base vertex }
{
    if range.has(vertex) {
        marks.has(base + (vertex - range.first))
    } else {
        false
    }
}

impl Field {
    /// Adds to the set the vertices that are ahead and behind.
    pub(crate) fn collect(&self, base: u32, into: &mut VertexSet)
        requires room { HasRoom self.now base }
        requires inside { self.now.range.last ≤ length into.old }
        ensures size { length into.new ≡ length into.old }
        ensures exact { (v : ℕ) → IsTrue (has into.new v) ↔ (IsTrue (has into.old v) ⊎ (IsAhead self.now base v × IsBehind self.now base v)) }
    {
        for vertex in self.range.first..self.range.last {
            let ahead = is_marked(&self.reached, self.range, base, vertex);
            let behind = is_marked(&self.reaching, self.range, base, vertex);
            if ahead && behind {
                into.add(vertex);
            }
        }
    }

    // Asks for the pair of a way in and the result from which one edge leads, where that leads to what is behind.
    fn ask_leave(&self, base: u32, enter: VertexId, leave: Edge, wanted: &mut Wanted) -> bool
        requires room { HasRoom self.now base }
        requires laid { IsLaid wanted.old }
        ensures { HasAsked (LeavesFrom self.now base enter (leave ∷ [])) wanted.old wanted.new result }
    {
        if is_marked(&self.reaching, self.range, base, leave.to) {
            wanted.ask(enter, leave.from)
        } else {
            false
        }
    }

    // Asks for the pairs of a way in and the results from which a call is left to what is behind.
    fn ask_call(&self, base: u32, enter: VertexId, leaves: &[Edge], wanted: &mut Wanted) -> bool
        requires room { HasRoom self.now base }
        requires laid { IsLaid wanted.old }
        ensures { HasAsked (LeavesFrom self.now base enter leaves.now) wanted.old wanted.new result }
    {
        let mut grows = false;
        for leave in leaves {
            let more = self.ask_leave(base, enter, *leave, wanted);
            grows = grows | more;
        }
        grows
    }

    // Asks for the pairs of one edge.
    fn ask_edge(&self, base: u32, edge: Edge, exits: &EdgeGroups, wanted: &mut Wanted) -> bool
        requires room { HasRoom self.now base }
        requires laid { IsLaid wanted.old }
        ensures { HasAsked (AsksFrom self.now base (edge ∷ []) exits.now) wanted.old wanted.new result }
    {
        match opened(edge.label) {
            None => false,
            Some(call) => {
                if is_marked(&self.reached, self.range, base, edge.from) {
                    self.ask_call(base, edge.to, exits.of(call), wanted)
                } else {
                    false
                }
            }
        }
    }

    /// Asks for the pairs of calls that are opened by some of these edges from what is ahead, and left to what is behind. Tells whether one
    /// is new.
    pub(crate) fn ask(
        &self,
        base: u32,
        edges: &[Edge],
        exits: &EdgeGroups,
        wanted: &mut Wanted,
    ) -> bool
        requires room { HasRoom self.now base }
        requires laid { IsLaid wanted.old }
        ensures { HasAsked (AsksFrom self.now base edges.now exits.now) wanted.old wanted.new result }
    {
        let mut grows = false;
        for edge in edges {
            let more = self.ask_edge(base, *edge, exits, wanted);
            grows = grows | more;
        }
        grows
    }

    // Marks what is ahead of a vertex of the range.
    fn look_ahead(&mut self, vertex: VertexId)
        requires fitted { IsFitted self.old }
        requires inside { IsInRange self.old.range vertex }
        ensures fitted { IsFitted self.new }
        ensures changed { HaveMarksChanged self.old self.new }
        ensures exact { (k : ℕ) → IsTrue (has self.new.reached k) ↔ IsBack self.old.ahead.rules (vertex - self.old.range.first) k }
    {
        self.reached.clear();
        self.reached.add(vertex - self.range.first);
        self.ahead.close(&mut self.reached);
    }

    // Marks a result that is asked for with a way in.
    fn mark_out(&mut self, way_in: VertexId, out: VertexId, wanted: &Wanted)
        requires fitted { IsFitted self.old }
        requires laid { IsLaid wanted.now }
        ensures fitted { IsFitted self.new }
        ensures changed { HaveMarksChanged self.old self.new }
        ensures same { self.new.reached ≡ self.old.reached }
        ensures exact { (k : ℕ) → IsTrue (has self.new.reaching k)
            ↔ (IsTrue (has self.old.reaching k) ⊎ (IsTrue (asks wanted.now way_in out) × IsInRange self.old.range out × (k ≡ out - self.old.range.first))) }
    {
        if self.range.has(out) {
            if wanted.has(way_in, out) {
                self.reaching.add(out - self.range.first);
            }
        }
    }

    // Marks the results that are asked for with a way in.
    fn mark_outs(&mut self, way_in: VertexId, wanted: &Wanted)
        requires fitted { IsFitted self.old }
        requires laid { IsLaid wanted.now }
        requires known { way_in < length wanted.now.outs.items }
        ensures fitted { IsFitted self.new }
        ensures changed { HaveMarksChanged self.old self.new }
        ensures same { self.new.reached ≡ self.old.reached }
        ensures exact { (k : ℕ) → IsTrue (has self.new.reaching k) ↔ IsOutOf self.old.range wanted.now way_in k }
    {
        self.reaching.clear();
        let outs = wanted.outs[way_in as usize];
        for out in outs.first..outs.last {
            self.mark_out(way_in, out, wanted);
        }
    }

    // Marks what is behind the results that are asked for with a way in.
    fn look_behind(&mut self, way_in: VertexId, wanted: &Wanted)
        requires fitted { IsFitted self.old }
        requires laid { IsLaid wanted.now }
        requires known { way_in < length wanted.now.outs.items }
        ensures fitted { IsFitted self.new }
        ensures changed { HaveMarksChanged self.old self.new }
        ensures same { self.new.reached ≡ self.old.reached }
        ensures exact { (k : ℕ) → IsTrue (has self.new.reaching k) ↔ IsBackFrom self.old.behind.rules (IsOutOf self.old.range wanted.now way_in) k }
    {
        self.mark_outs(way_in, wanted);
        self.behind.close(&mut self.reaching);
    }

    /// Marks what is ahead of a way in, and what is behind the results that are asked for with it.
    pub(crate) fn search(&mut self, way_in: VertexId, wanted: &Wanted)
        requires fitted { IsFitted self.old }
        requires inside { IsInRange self.old.range way_in }
        requires laid { IsLaid wanted.now }
        requires known { way_in < length wanted.now.outs.items }
        ensures changed { HaveMarksChanged self.old self.new }
        ensures searched { IsSearched wanted.now way_in self.new }
    {
        self.look_ahead(way_in);
        self.look_behind(way_in, wanted);
    }
}
