//! The memory for the passes, and the passes.
ghost use Rattle.std.specs.Prelude.{◌≡◌, ℕ, ◌+◌, ◌^◌, ◌<◌, ◌↔◌, IsTrue, List, Bool, length, All, Contains, OnOk, IfOk};
ghost use Rattle.bit_rows.specs.Sets.{has};
ghost use Rattle.dep_model.specs.Facts.{AreTrueFacts, HoldsFact};
ghost use Rattle.dep_model.specs.Shapes.{IsShaped};
ghost use Rattle.dep_model.specs.Words.{ReachesAny};
ghost use Rattle.two_pass.specs.PassRules.{ArePassRules};
ghost use Rattle.two_pass.specs.Ready.{HasMembers};

use crate::calls::over_calls;
use crate::rules::{along_edges, turns};
use dep_model::{Closure, Edge, Facts, Graph, Rule, VertexId, VertexSet};
use matched_paths::FactPlaces;
use std::alloc::{AllocError, Global};
use std::marker::Model;

/// A dependence graph with its facts, ready to be followed backward, and the memory that this takes.
#[derive(Drop)]
pub struct Passes {
    size: u32,
    edges: Vec<Edge>,
    closure: Closure,
    marks: VertexSet,
}

impl Model for Passes {
    ghost use Rattle.two_pass.specs.PassRules.{ArePassRules};
    ghost use Rattle.two_pass.specs.Ready.{PassGraph, IsReady};

    ghost Value = { PassGraph };

    ghost view = { λ p. record { size = p.size; edges = p.edges.items } };

    ghost invariant = { λ p. IsReady p.size p.edges.items p.closure p.marks };
}

// Adds the vertices to an empty set.
fn seed(from: &[VertexId], marks: &mut VertexSet)
    requires inside { All (λ v. v < length marks.old) from.now }
    ensures size { length marks.new ≡ length marks.old }
    ensures exact { (v : ℕ) → IsTrue (has marks.new v) ↔ Contains from.now v }
{
    marks.clear();
    for v in from {
        marks.add(*v);
    }
}

// Makes the set that of the vertices whose second numbers are marked.
fn collect(marks: &VertexSet, size: u32, into: &mut VertexSet)
    requires few { size + size < 2 ^ 32 }
    requires twice { length marks.now ≡ size + size }
    requires size { length into.old ≡ size }
    ensures size { length into.new ≡ length into.old }
    ensures exact { (v : ℕ) → IsTrue (has into.new v) ↔ ((v < size) × IsTrue (has marks.now (size + v))) }
{
    into.clear();
    for v in 0..size {
        if marks.has(size + v) {
            into.add(v);
        }
    }
}

/// The rules of both passes. Err: no memory was left.
pub fn rules_of(alloc: Global, size: u32, g: &Graph, f: &Facts) -> Result<Vec<Rule>, AllocError>
    requires size { size ≡ length g.now.vertices }
    requires shaped { IsShaped g.now }
    ensures { IfOk result (λ rules. ArePassRules (length g.now.vertices) g.now.edges (HoldsFact g.now f.now.words) rules.items) }
{
    let places = FactPlaces::find(alloc, g)?;
    let mut rules = turns(alloc, size)?;
    along_edges(&mut rules, size, g.edges.as_slice())?;
    over_calls(
        alloc,
        &mut rules,
        size,
        g.edges.as_slice(),
        &places,
        f.words.as_slice(),
    )?;
    Ok(rules)
}

impl Passes {
    /// Takes all the memory that following the edges of a graph needs, by its facts. Err: no memory was left.
    pub fn prepare(alloc: Global, g: &Graph, f: &Facts) -> Result<Passes, AllocError>
        requires shaped { IsShaped g.now }
        requires facts { AreTrueFacts g.now f.now.words }
        ensures { IfOk result (λ p. p ≡ record { size = length g.now.vertices; edges = g.now.edges }) }
    {
        let size = g.vertices.len() as u32;
        let rules = rules_of(alloc, size, g, f)?;
        let closure = Closure::prepare(alloc, size + size, rules)?;
        let marks = VertexSet::new(alloc, size + size)?;
        let edges = Vec::from_slice(alloc, g.edges.as_slice())?;
        Ok(Passes {
            size,
            edges,
            closure,
            marks,
        })
    }

    /// Makes the set that of the vertices from which a path leads to one of `from` whose word is of matched parts and closes, and then of
    /// matched parts and opens, and takes no memory.
    pub fn reach(&mut self, from: &[VertexId], into: &mut VertexSet)
        requires inside { All (λ v. v < self.old.size) from.now }
        requires size { length into.old ≡ self.old.size }
        ensures exact { (s : List Bool) → HasMembers from.now s → (v : ℕ) → IsTrue (has into.new v) ↔ ReachesAny self.old.edges s v }
        ensures size { length into.new ≡ length into.old }
        ensures kept { self.new ≡ self.old }
    {
        seed(from, &mut self.marks);
        self.closure.close(&mut self.marks);
        collect(&self.marks, self.size, into);
    }
}
