//! A graph that is ready for forward slices and chops, with the memory that they take.
ghost use Rattle.std.specs.Prelude.{◌≡◌, ℕ, ◌+◌, ◌<◌, ◌↔◌, IsTrue, length, All, IfOk};
ghost use Rattle.bit_rows.specs.Sets.{has};
ghost use Rattle.dep_model.specs.Facts.{AreTrueFacts};
ghost use Rattle.dep_model.specs.Shapes.{IsShaped};
ghost use Rattle.forward_chop.specs.Chops.{IsForward, IsInChop};
ghost use Rattle.forward_chop.specs.Rounds.{IsIndex};

use crate::begin::{begin_chop, collect_first};
use crate::field::Field;
use crate::parts::parts_of;
use crate::ready::{copy_of, index_of, wanted_of, whole_of};
use crate::rounds::{CallIndex, settle};
use crate::wanted::Wanted;
use dep_model::{Facts, Graph, VertexId, VertexSet};
use std::alloc::{AllocError, Global};
use std::marker::Model;

/// A dependence graph with its facts, ready to be followed forward, and the memory that this takes.
#[derive(Drop)]
pub struct Chopper {
    graph: Graph,
    index: CallIndex,
    whole: Field,
    parts: Vec<Field>,
    wanted: Wanted,
}

impl Model for Chopper {
    ghost use Rattle.dep_model.specs.declared.graph.Graph.{Graph};
    ghost use Rattle.forward_chop.specs.Whole.{IsReady};

    ghost Value = { Graph };

    ghost view = { λ c. c.graph };

    ghost invariant = { λ c. IsReady c.graph c.index.starts c.index.exits c.whole c.parts.items c.wanted };
}

impl Chopper {
    /// Takes all the memory that forward slices and chops of a graph need, by its facts. Err: no memory was left.
    pub fn prepare(alloc: Global, g: &Graph, f: &Facts) -> Result<Chopper, AllocError>
        requires shaped { IsShaped g.now }
        requires facts { AreTrueFacts g.now f.now.words }
        ensures { IfOk result (λ c. c ≡ g.now) }
    {
        let graph = copy_of(alloc, g)?;
        let index = index_of(alloc, g)?;
        let whole = whole_of(alloc, g, f)?;
        let parts = parts_of(alloc, g, f, &index)?;
        let wanted = wanted_of(alloc, g, &index)?;
        Ok(Chopper {
            graph,
            index,
            whole,
            parts,
            wanted,
        })
    }

    /// Makes the set the forward slice of `from`: that of the vertices to which a path leads from one of them whose word is of matched parts
    /// and closes, and then of matched parts and opens. It takes no memory.
    pub fn forward(&mut self, from: &[VertexId], into: &mut VertexSet)
        requires inside { All (λ v. v < length self.old.vertices) from.now }
        requires size { length into.old ≡ length self.old.vertices }
        ensures exact { (v : ℕ) → IsTrue (has into.new v) ↔ IsForward self.old.edges from.now v }
        ensures size { length into.new ≡ length into.old }
        ensures kept { self.new ≡ self.old }
    {
        let size = self.graph.vertices.len() as u32;
        self.whole.mark_ahead(from, size);
        collect_first(&self.whole.reached, size, into);
    }

    /// Makes the set the chop of `from` and `to`: that of the vertices on paths from one of `from` to one of `to` whose whole word is of
    /// matched parts and closes, and then of matched parts and opens. It takes no memory.
    pub fn chop(&mut self, from: &[VertexId], to: &[VertexId], into: &mut VertexSet)
        requires from_in { All (λ v. v < length self.old.vertices) from.now }
        requires to_in { All (λ v. v < length self.old.vertices) to.now }
        requires size { length into.old ≡ length self.old.vertices }
        ensures exact { (v : ℕ) → IsTrue (has into.new v) ↔ IsInChop self.old.edges from.now to.now v }
        ensures size { length into.new ≡ length into.old }
        ensures kept { self.new ≡ self.old }
    {
        let size = self.graph.vertices.len() as u32;
        self.whole.mark_ahead(from, size);
        self.whole.mark_behind(to);
        begin_chop(
            &self.graph,
            &self.index,
            &self.whole,
            size,
            &mut self.wanted,
            into,
        );
        settle(
            &self.graph,
            &self.index,
            &mut self.parts,
            &mut self.wanted,
            into,
        );
    }
}
