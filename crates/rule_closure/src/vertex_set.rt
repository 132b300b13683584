//! Sets of vertices below a fixed number, each kept as one row of bits.
ghost use Rattle.std.specs.Prelude.{◌≡◌, ◌<◌, IfOk, true, false, length, replicate, slice_set};
ghost use Rattle.bit_rows.specs.Sets.{has};

use bit_rows::Rows;
use std::alloc::{AllocError, Global};
use std::marker::Model;

/// A set of vertices, by their numbers. Contracts see it as a list of tests, one for each vertex
/// that it could have.
#[derive(Drop)]
pub struct VertexSet {
    vertices: u32,
    rows: Rows,
}

impl Model for VertexSet {
    ghost use Rattle.std.specs.Prelude.{List, Bool};
    ghost use Rattle.bit_rows.specs.Tables.{the_set};
    ghost use Rattle.rule_closure.specs.Sets.{IsOneRow};

    ghost Value = { List Bool };

    ghost view = { λ s. the_set s.rows 0 };

    ghost invariant = { λ s. IsOneRow s.vertices s.rows };
}

impl VertexSet {
    /// The empty set of the vertices below this number. Err: no memory was left.
    pub fn new(alloc: Global, vertices: u32) -> Result<VertexSet, AllocError>
        ensures { IfOk result (λ s. s ≡ replicate vertices false) }
    {
        let rows = Rows::new(alloc, 1, vertices)?;
        Ok(VertexSet { vertices, rows })
    }

    /// The number below which its vertices are, which is not how many it has.
    pub fn len(&self) -> u32
        ensures { result ≡ length self.now }
    {
        self.vertices
    }

    /// Whether the vertex is in the set.
    pub fn has(&self, v: u32) -> bool
        requires { v < length self.now }
        ensures { result ≡ has self.now v }
    {
        self.rows.has(0, v)
    }

    /// Adds the vertex.
    pub fn add(&mut self, v: u32)
        requires { v < length self.old }
        ensures { self.new ≡ slice_set self.old v true }
    {
        self.rows.set(0, v);
    }

    /// Makes the set empty.
    pub fn clear(&mut self)
        ensures { self.new ≡ replicate (length self.old) false }
    {
        self.rows.clear(0);
    }
}
