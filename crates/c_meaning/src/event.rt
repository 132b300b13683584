//! What a run shows: the acts of its statements, each with the values that it stored, tested, returned or wrote.
use c_tree::StatementId;
use sqlite_items::Items;

/// A value as an event shows it: a number, a null pointer, or another pointer's index.
#[derive(Clone, Copy, Debug, PartialEq, Eq)]
pub enum Shown {
    /// The value of an integer.
    Number(i128),
    /// A null pointer.
    Null,
    /// The index of a pointer that is not null.
    Index(u32),
}

/// The values of an event.
pub type ShownList = Items<Shown>;

/// What an act of a statement showed.
#[derive(Debug, Drop)]
pub struct Event {
    /// The statement whose act it was.
    pub statement: StatementId,
    /// What was stored, tested, returned or written, in order.
    pub values: ShownList,
}
