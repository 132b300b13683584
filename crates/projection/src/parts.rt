//! The parts of a program that a set of a graph's vertices keeps, found in one pass over the vertices.
ghost use Rattle.std.specs.Prelude.{◌≡◌, ◌<◌, length, OnOk, IfOk};
ghost use Rattle.bit_rows.specs.Sets.{has};
ghost use Rattle.projection.specs.Parts.{AddsAt, AddsVertex, AreKept};

use c_tree::StatementId;
use dep_model::{Slot, Vertex, VertexId, VertexKind, VertexSet};
use kept_numbers::{Pairs, is_kept};
use named_variables::mark;
use std::alloc::{AllocError, Global};

/// The parts of a program that are kept: a list of tests for each kind of part, where none is kept
/// past its end. A statement has its number, and so has its call; a function has its number.
#[derive(Drop)]
pub(crate) struct KeptParts {
    /// Statements.
    pub(crate) statements: Vec<bool>,
    /// The left sides of calls, in which their results are stored.
    pub(crate) results: Vec<bool>,
    /// The arguments of calls, each by its place.
    pub(crate) arguments: Pairs,
    /// Functions.
    pub(crate) functions: Vec<bool>,
    /// The parameters of functions, each by its place.
    pub(crate) parameters: Pairs,
}

impl KeptParts {
    /// The parts that the vertices of a set keep. Err: no memory was left.
    pub(crate) fn of(
        alloc: Global,
        vertices: &[Vertex],
        kept: &VertexSet,
    ) -> Result<KeptParts, AllocError>
        requires { length kept.now ≡ length vertices.now }
        ensures { IfOk result (λ m. AreKept vertices.now kept.now m) }
    {
        let mut parts = KeptParts {
            statements: Vec::new(alloc),
            results: Vec::new(alloc),
            arguments: Pairs::new(alloc),
            functions: Vec::new(alloc),
            parameters: Pairs::new(alloc),
        };
        for number in 0..kept.len() {
            parts.add_kept(alloc, vertices, kept, number)?;
        }
        Ok(parts)
    }

    // Adds the part that the vertex with a number keeps, where it is in the set.
    fn add_kept(
        &mut self,
        alloc: Global,
        vertices: &[Vertex],
        kept: &VertexSet,
        number: VertexId,
    ) -> Result<(), AllocError>
        requires { number < length kept.now }
        ensures { OnOk result (AddsAt kept.now vertices.now number self.old self.new) }
    {
        if !kept.has(number) {
            return Ok(());
        }
        match vertices.get(number as usize) {
            Some(vertex) => {
                self.add(alloc, *vertex)?;
                Ok(())
            }
            None => Ok(()),
        }
    }

    // Adds the part that a vertex keeps, if there is one.
    fn add(&mut self, alloc: Global, vertex: Vertex) -> Result<(), AllocError>
        ensures { OnOk result (AddsVertex self.old self.new vertex) }
    {
        match vertex.kind {
            VertexKind::Statement(id) | VertexKind::Call(id) => mark(&mut self.statements, id),
            VertexKind::ActualOut(id, Slot::Result) => mark(&mut self.results, id),
            VertexKind::ActualIn(id, Slot::Argument(place)) => {
                self.arguments.mark(alloc, id, place)
            }
            VertexKind::Entry => mark(&mut self.functions, vertex.function),
            VertexKind::FormalIn(Slot::Argument(place)) => {
                self.parameters.mark(alloc, vertex.function, place)
            }
            VertexKind::ActualOut(_, Slot::Argument(_) | Slot::At(_))
            | VertexKind::ActualIn(_, Slot::Result | Slot::At(_))
            | VertexKind::FormalIn(Slot::Result | Slot::At(_))
            | VertexKind::FormalOut(_) => Ok(()),
        }
    }

    /// Whether a statement is kept.
    pub(crate) fn keeps(&self, id: StatementId) -> bool
        ensures { result ≡ has self.now.statements.items id }
    {
        is_kept(self.statements.as_slice(), id)
    }

    /// Whether the call of a statement keeps its left side.
    pub(crate) fn keeps_result(&self, id: StatementId) -> bool
        ensures { result ≡ has self.now.results.items id }
    {
        is_kept(self.results.as_slice(), id)
    }
}
