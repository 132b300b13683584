//! The checks of the phrases of a text, one by one (ISO C99 6.5 to 6.9): whether one breaks a rule.
//!
//! Each check answers Ok where the phrase breaks no rule, else `Fault::Rule` with the number of a rule that it breaks,
//! or `Fault::NoMemory`. The laws in `proofs/` say that it tells a rule exactly where the phrase breaks one (`PhraseLaws`).
#![tactic(auto)]

pub mod allocation_checks;
mod argument_checks;
pub mod call_checks;
pub mod checking;
pub mod completeness_checks;
mod conversions;
pub mod declaration_checks;
pub mod head_checks;
pub mod initialiser_checks;
mod library_calls;
pub mod return_checks;
pub mod stand;
mod strings;
pub mod switch_checks;
mod targets;
mod text;
