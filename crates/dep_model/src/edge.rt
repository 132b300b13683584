//! The edges of a system dependence graph, and the kinds of dependence that label them.
use crate::vertex::VertexId;

/// What kind of dependence an edge is. The number of the last three is the call's vertex.
#[derive(Clone, Copy, Debug, PartialEq, Eq, PartialOrd, Ord)]
pub enum Label {
    /// Control dependence: the source decides whether the target is done.
    Control,
    /// Flow dependence: the target may use what the source may define.
    Flow,
    /// From a call vertex to the entry of the function called.
    Call(VertexId),
    /// From an actual-in to its formal-in.
    In(VertexId),
    /// From a formal-out to its actual-out.
    Out(VertexId),
}

/// An edge of a system dependence graph, between two vertices by their numbers.
#[derive(Clone, Copy, Debug, PartialEq, Eq, PartialOrd, Ord)]
pub struct Edge {
    /// The number of the vertex on which the other one depends.
    pub from: VertexId,
    /// The number of the vertex that depends on it.
    pub to: VertexId,
    /// What kind of dependence it is.
    pub label: Label,
}
