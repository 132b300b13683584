//! The summary facts of a graph: which formal-outs depend on which formal-ins of their functions.
use sqlite_items::Items;

/// Words of 64 bits.
pub type WordList = Items<u64>;

/// Which formal-out of a function depends on which of its formal-ins, by a path that matches calls
/// and returns.
#[derive(Debug, Drop)]
pub struct Facts {
    /// The rows of the formal-outs, one after another: formal-in `i` of a function, counted from 0,
    /// is bit `i % 64` of word `i / 64` of a row.
    pub words: WordList,
}
