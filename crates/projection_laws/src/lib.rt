//! What is kept of a program stands in what is kept.
//!
//! Each function is a law, and holds no code: its contract is the law, over the definitions of
//! `specs/Nested` and of the crates below.
#![tactic(auto)]

ghost use Rattle.projection_laws.specs.Laws.{NestedIsStanding, StandingIsNested};

/// A law: where each if, loop and switch is kept in which a kept statement stands with none between,
/// each is kept in which something kept stands anyhow.
pub fn standing_is_nested()
    ensures { StandingIsNested }
{}

/// A law: where each if, loop and switch is kept in which something kept stands, each is kept in which a
/// kept statement stands with none between.
pub fn nested_is_standing()
    ensures { NestedIsStanding }
{}
