//! A board of words that only gain bits, which threads share without a lock.
//!
//! A [`Board`] has fact words, and one word to draw numbers from. Workers step on it with seats ([`BoardSeat`]): they draw numbers,
//! look at words and publish facts. Each call is one step on one word or none. Whatever the threads do, the words hold true facts
//! alone ([`Truth`]), no bit is lost, and each number is drawn once (`specs/Rule`).
#![tactic(auto)]

mod board;
mod draw_only;
mod job;
mod laws;
mod rule;
mod team;
#[cfg(test)]
mod tests;
mod truth;
mod view;

pub use board::{Board, BoardSeat};
pub use draw_only::numbers;
pub use job::{Job, run_all};
pub use laws::{boards_share_out, boards_show_moments, events_keep_truth, words_never_shrink};
pub use rule::BoardRule;
pub use team::{Gate, OpenGate, team_map};
pub use truth::{Numbers, Truth};
pub use view::{Charge, View};
