//! The places of memory between which dependence tells: a root, and a path from it to a part.
use c_tree::{FunctionId, StatementId, VarId};
use sqlite_items::Items;

/// The place of a location in the list of a program's locations, counted from 0.
pub type LocationId = u32;

/// Where a location begins.
#[derive(Clone, Copy, Debug, PartialEq, Eq)]
pub enum Root {
    /// What is left to be read of the input.
    Input,
    /// A variable.
    Variable(VarId),
    /// All elements of all blocks that this statement allocates.
    Site(StatementId),
    /// What the function returns.
    Result(FunctionId),
}

/// A step from a location into a part of it.
#[derive(Clone, Copy, Debug, PartialEq, Eq)]
pub enum Part {
    /// The member of a struct at this place among its members, counted from 0.
    Member(u32),
    /// All elements of an array, taken as one.
    Element,
}

/// The steps from a root to a location, from the outermost.
pub type LocationPath = Items<Part>;

/// A place of memory, as far as dependence tells places apart.
#[derive(Debug, Drop)]
pub struct Location {
    /// Where it begins.
    pub root: Root,
    /// The steps from there to it.
    pub path: LocationPath,
}
