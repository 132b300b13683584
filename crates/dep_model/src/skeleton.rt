//! A program's vertices with the locations that each defines, uses and kills, and the order in which they are done.
use crate::vertex::{Vertex, VertexId};
use bit_rows::Rows;
use sqlite_items::Items;

/// The vertices of a system graph, in their order.
pub type VertexList = Items<Vertex>;

/// The vertices of a program with what they may define, may use and kill: a row of locations for
/// each vertex.
#[derive(Drop)]
pub struct Skeleton {
    /// The vertices, by their numbers.
    pub vertices: VertexList,
    /// For each vertex the locations that it may define.
    pub defined: Rows,
    /// For each vertex the locations that it may use.
    pub used: Rows,
    /// For each vertex the locations that it kills.
    pub killed: Rows,
}

/// The second vertex may be done directly after the first.
#[derive(Clone, Copy, Debug, PartialEq, Eq, PartialOrd, Ord)]
pub struct Pair {
    /// The number of the vertex that is done first.
    pub from: VertexId,
    /// The number of one that may be done directly after it.
    pub to: VertexId,
}

/// Pairs of vertices.
pub type PairList = Items<Pair>;

/// The order of the vertices of one function.
#[derive(Debug, Drop)]
pub struct FlowGraph {
    /// Each vertex with each that may be done directly after it.
    pub pairs: PairList,
}
