//! The forward passes over a graph, without what chops take besides.
ghost use Rattle.std.specs.Prelude.{◌≡◌, ℕ, ◌<◌, ◌↔◌, All, IfOk, IsTrue, length};
ghost use Rattle.bit_rows.specs.Sets.{has};
ghost use Rattle.dep_model.specs.Facts.{AreTrueFacts};
ghost use Rattle.dep_model.specs.Shapes.{IsShaped};
ghost use Rattle.forward_chop.specs.Chops.{IsForward};

use crate::begin::{begin, collect_first};
use crate::turned::turned;
use dep_model::{Closure, Edge, Facts, Graph, VertexId, VertexSet};
use std::alloc::{AllocError, Global};
use std::marker::Model;
use two_pass::rules_of;

/// A dependence graph with its facts, ready for forward slices alone, and the memory that these take: that of a `Chopper` is larger.
#[derive(Drop)]
pub struct ForwardPasses {
    size: u32,
    edges: Vec<Edge>,
    closure: Closure,
    marks: VertexSet,
}

impl Model for ForwardPasses {
    ghost use Rattle.two_pass.specs.Ready.{PassGraph};
    ghost use Rattle.forward_chop.specs.Turned.{AreForwardPasses};

    ghost Value = { PassGraph };

    ghost view = { λ p. record { size = p.size; edges = p.edges.items } };

    ghost invariant = { λ p. AreForwardPasses p.size p.edges.items p.closure p.marks };
}

impl ForwardPasses {
    /// Takes all the memory that forward slices of a graph need, by its facts. Err: no memory was left.
    pub fn prepare(alloc: Global, g: &Graph, f: &Facts) -> Result<ForwardPasses, AllocError>
        requires shaped { IsShaped g.now }
        requires facts { AreTrueFacts g.now f.now.words }
        ensures { IfOk result (λ p. p ≡ record { size = length g.now.vertices; edges = g.now.edges }) }
    {
        let size = g.vertices.len() as u32;
        let rules = rules_of(alloc, size, g, f)?;
        let turned = turned(alloc, rules.as_slice())?;
        let closure = Closure::prepare(alloc, size + size, turned)?;
        let marks = VertexSet::new(alloc, size + size)?;
        let edges = Vec::from_slice(alloc, g.edges.as_slice())?;
        Ok(ForwardPasses {
            size,
            edges,
            closure,
            marks,
        })
    }

    /// Makes the set the forward slice of `from`: that of the vertices to which a path leads from one of them whose word is of matched parts
    /// and closes, and then of matched parts and opens. It takes no memory.
    pub fn forward(&mut self, from: &[VertexId], into: &mut VertexSet)
        requires inside { All (λ v. v < self.old.size) from.now }
        requires size { length into.old ≡ self.old.size }
        ensures exact { (v : ℕ) → IsTrue (has into.new v) ↔ IsForward self.old.edges from.now v }
        ensures size { length into.new ≡ length into.old }
        ensures kept { self.new ≡ self.old }
    {
        begin(from, self.size, &mut self.marks);
        self.closure.close(&mut self.marks);
        collect_first(&self.marks, self.size, into);
    }
}
