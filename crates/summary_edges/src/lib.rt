//! The summary facts of a dependence graph (Horwitz, Reps and Binkley 1990): which formal-outs of functions depend on which of
//! their formal-ins, by paths whose calls and returns match.
//!
//! They are found by rounds. A step of a function gives the facts that its edges and the facts so far of the functions that it
//! calls say, for all its formal-outs at once. A round takes a step of each function of an agenda; the next agenda has the
//! functions that call one whose facts grew.
#![tactic(auto)]

mod agenda;
mod exit_rows;
mod fact_index;
mod fact_truth;
mod function_parts;
mod laws;
mod rounds;
mod step;
mod team;
mod worker;
mod working;

pub use agenda::next_agenda;
pub use crew::{Board, BoardSeat, Gate};
pub use fact_truth::FactTruth;
pub use laws::{
    boards_show_facts, facts_never_shrink, facts_stay_true, only_true_where_none_is_due,
    others_are_settled, rounds_are_few, series_are_few, whole_rounds_are_exact,
};
pub use rounds::find;
pub use working::work;
