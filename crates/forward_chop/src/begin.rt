//! What is marked of a whole graph, and with which contexts a chop begins.
ghost use Rattle.std.specs.Prelude.{◌≡◌, ℕ, ◌+◌, ◌<◌, ◌^◌, ◌↔◌, ◌⊎◌, IsTrue, length, All};
ghost use Rattle.bit_rows.specs.Sets.{has};
ghost use Rattle.forward_chop.specs.Begun.{IsBegun, IsMarkedAhead, IsMarkedBehind};
ghost use Rattle.forward_chop.specs.Fields.{HaveMarksChanged};
ghost use Rattle.forward_chop.specs.Pairs.{IsLaid};
ghost use Rattle.forward_chop.specs.Rounds.{CoversCalls, IsIndex};
ghost use Rattle.forward_chop.specs.Turned.{IsSecond};
ghost use Rattle.forward_chop.specs.Whole.{IsWhole};

use crate::field::Field;
use crate::rounds::CallIndex;
use crate::wanted::Wanted;
use dep_model::{Graph, VertexId, VertexSet};

/// Makes the set that of the numbers of the vertices, of which the first has the number `base`.
pub(crate) fn begin(list: &[VertexId], base: u32, marks: &mut VertexSet)
    requires few { length marks.old < 2 ^ 32 }
    requires inside { All (λ v. base + v < length marks.old) list.now }
    ensures size { length marks.new ≡ length marks.old }
    ensures exact { (k : ℕ) → IsTrue (has marks.new k) ↔ IsSecond base list.now k }
{
    marks.clear();
    for v in list {
        marks.add(base + *v);
    }
}

/// Makes the set that of the vertices whose first numbers are marked.
pub(crate) fn collect_first(marks: &VertexSet, size: u32, into: &mut VertexSet)
    requires twice { length marks.now ≡ size + size }
    requires size { length into.old ≡ size }
    ensures size { length into.new ≡ length into.old }
    ensures exact { (v : ℕ) → IsTrue (has into.new v) ↔ ((v < size) × IsTrue (has marks.now v)) }
{
    into.clear();
    for v in 0..size {
        if marks.has(v) {
            into.add(v);
        }
    }
}

impl Field {
    /// Marks what the rules derive ahead of a list.
    pub(crate) fn mark_ahead(&mut self, from: &[VertexId], base: u32)
        requires few { length self.old.reached < 2 ^ 32 }
        requires sized { self.old.ahead.size ≡ length self.old.reached }
        requires inside { All (λ v. base + v < length self.old.reached) from.now }
        ensures changed { HaveMarksChanged self.old self.new }
        ensures same { self.new.reaching ≡ self.old.reaching }
        ensures exact { IsMarkedAhead base from.now self.new }
    {
        begin(from, base, &mut self.reached);
        self.ahead.close(&mut self.reached);
    }

    /// Marks what the rules derive behind a list.
    pub(crate) fn mark_behind(&mut self, to: &[VertexId])
        requires few { length self.old.reaching < 2 ^ 32 }
        requires sized { self.old.behind.size ≡ length self.old.reaching }
        requires inside { All (λ v. 0 + v < length self.old.reaching) to.now }
        ensures changed { HaveMarksChanged self.old self.new }
        ensures same { self.new.reached ≡ self.old.reached }
        ensures exact { IsMarkedBehind to.now self.new }
    {
        begin(to, 0, &mut self.reaching);
        self.behind.close(&mut self.reaching);
    }
}

/// Begins a chop: with what is marked ahead and behind, and the pairs for which calls there ask.
pub(crate) fn begin_chop(
    g: &Graph,
    index: &CallIndex,
    whole: &Field,
    size: u32,
    wanted: &mut Wanted,
    into: &mut VertexSet,
)
    requires index { IsIndex g.now index.now.starts index.now.exits }
    requires whole { IsWhole g.now whole.now }
    requires size_is { size ≡ length g.now.vertices }
    requires laid { IsLaid wanted.old }
    requires all { length wanted.old.outs.items ≡ length g.now.vertices }
    requires covered { CoversCalls g.now.edges wanted.old }
    requires size { length into.old ≡ length g.now.vertices }
    ensures { IsBegun g.now index.now.exits whole.now wanted.new into.new }
{
    into.clear();
    whole.collect(0, into);
    whole.collect(size, into);
    wanted.clear();
    whole.ask(0, g.edges.as_slice(), &index.exits, wanted);
    whole.ask(size, g.edges.as_slice(), &index.exits, wanted);
}
