//! The system dependence graph of a program, and the graph of one of its functions, as plain data.
use crate::edge::Edge;
use crate::skeleton::VertexList;
use crate::vertex::VertexId;
use sqlite_items::Items;

/// Edges of a dependence graph.
pub type EdgeList = Items<Edge>;

/// The program dependence graph of one function: its control edges and its flow edges, ascending.
#[derive(Debug, Drop)]
pub struct FunctionGraph {
    /// The edges, each once.
    pub edges: EdgeList,
}

/// Where the facts of a formal-out stand: its row has a bit for each formal-in of its function, and
/// begins a word.
#[derive(Clone, Copy, Debug, PartialEq, Eq)]
pub struct OutRow {
    /// The number of the formal-out.
    pub vertex: VertexId,
    /// The number of the first word of its row.
    pub word: u32,
}

/// The rows of a graph's formal-outs.
pub type OutRowList = Items<OutRow>;

/// The system dependence graph of a program (Horwitz, Reps and Binkley 1990).
#[derive(Debug, Drop)]
pub struct Graph {
    /// The vertices, by their numbers.
    pub vertices: VertexList,
    /// The edges, ascending: by where they lead from, then by where they lead to, then by their labels.
    pub edges: EdgeList,
    /// For each formal-out, in the order of the vertices, where its facts stand.
    pub outs: OutRowList,
    /// How many words all rows take.
    pub fact_words: u32,
}
