//! What a seat knows, and what a board is told when it is opened.
use std::alloc::Global;
use std::collections::LinkedList;
use std::snapshot::Snapshot;

/// What a seat knows. It stands in contracts alone: no value of it is made.
pub struct View<T> {
    /// False once the seat was joined to another one.
    pub live: bool,
    /// The truth of the board, where the seat is live.
    pub truth: Option<T>,
    /// The words with which the board was opened.
    pub opening: LinkedList<u64>,
    /// The numbers below it are drawn.
    pub end: u32,
    /// The words as the seat knows them.
    pub seen: LinkedList<u64>,
    /// The bits of each word that the seat was the first to set.
    pub set: LinkedList<u64>,
    /// The numbers that it drew.
    pub drawn: LinkedList<u32>,
    /// It draws no more.
    pub done: bool,
    /// How many seats may still be split off it.
    pub spare: u32,
}

/// What a board is told when it is opened: the truth, the words, and the end of the numbers.
#[derive(Drop)]
pub struct Charge<T> {
    pub truth: Snapshot<T>,
    pub start: Snapshot<Vec<u64, Global>>,
    pub end: u32,
}
