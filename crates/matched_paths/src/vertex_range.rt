//! The vertices of one function, which stand one after another.
ghost use Rattle.std.specs.Prelude.{◌≡◌, ℕ, ◌^◌, ◌<◌, ◌≤◌, length};
ghost use Rattle.dep_model.specs.Shapes.{AreConsecutive};
ghost use Rattle.matched_paths.specs.VertexRanges.{AreApartAt, IsWholeFunction, is_of, within};

use dep_model::{Vertex, VertexId};

/// Vertices one after another: those from `first` on that stand before `last`.
#[derive(Clone, Copy, Debug, PartialEq, Eq)]
pub struct VertexRange {
    /// The number of the first.
    pub first: VertexId,
    /// The number behind the last.
    pub last: VertexId,
}

impl VertexRange {
    /// Whether the vertex is one of them.
    pub fn has(self, vertex: VertexId) -> bool
        ensures { result ≡ within self vertex }
    {
        self.first <= vertex && vertex < self.last
    }
}

/// The vertices of the function whose first vertex is this one.
pub fn range_at(vertices: &[Vertex], first: VertexId) -> VertexRange
    requires few { length vertices.now < 2 ^ 32 }
    requires inside { first < length vertices.now }
    requires consecutive { AreConsecutive vertices.now }
    requires apart { AreApartAt vertices.now first }
    ensures first { result.first ≡ first }
    ensures more { first < result.last }
    ensures inside { result.last ≤ length vertices.now }
    ensures whole { IsWholeFunction vertices.now result }
    ensures apart { AreApartAt vertices.now result.last }
{
    let function = vertices[first as usize].function;
    let mut last = first + 1;
    while is_of(vertices, last, function) {
        last += 1;
    }
    VertexRange { first, last }
}

// Whether there is such a vertex, of the function.
fn is_of(vertices: &[Vertex], vertex: VertexId, function: u32) -> bool
    ensures { result ≡ is_of vertices.now vertex function }
{
    match vertices.get(vertex as usize) {
        Some(vertex) => vertex.function == function,
        None => false,
    }
}
