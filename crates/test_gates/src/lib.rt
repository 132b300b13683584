//! Gates for tests of workers: one that counts, and one that holds a worker until others have drawn.
#![tactic(auto)]

mod gates;
#[cfg(test)]
mod tests;

pub use gates::{CountGate, HoldGate};
