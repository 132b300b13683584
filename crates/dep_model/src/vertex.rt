//! The vertices of a system dependence graph: what each stands for, and the function to which it belongs.
use crate::location::LocationId;
use c_tree::{FunctionId, StatementId};

/// What a formal or an actual carries between a caller and a function.
#[derive(Clone, Copy, Debug, PartialEq, Eq)]
pub enum Slot {
    /// The argument at this place, counted from 0.
    Argument(u32),
    /// What the function returns.
    Result,
    /// A location that the function modifies or uses.
    At(LocationId),
}

/// What a vertex stands for.
#[derive(Clone, Copy, Debug, PartialEq, Eq)]
pub enum VertexKind {
    /// The entry of the function.
    Entry,
    /// What the function is given.
    FormalIn(Slot),
    /// What the function gives back.
    FormalOut(Slot),
    /// A statement that calls no function of the text.
    Statement(StatementId),
    /// The call of a call statement.
    Call(StatementId),
    /// What a call statement gives to the function called.
    ActualIn(StatementId, Slot),
    /// What a call statement gets back.
    ActualOut(StatementId, Slot),
}

/// The place of a vertex in the list of a graph's vertices, counted from 0.
pub type VertexId = u32;

/// A vertex of a system dependence graph (Horwitz, Reps and Binkley 1990).
#[derive(Clone, Copy, Debug, PartialEq, Eq)]
pub struct Vertex {
    /// The function to which it belongs.
    pub function: FunctionId,
    /// What it stands for in it.
    pub kind: VertexKind,
}
