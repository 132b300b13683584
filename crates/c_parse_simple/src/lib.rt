//! Reading calls, allocations, simple statements and declarations from left to right (ISO C99 6.7, 6.8.3), with one token
//! in hand, or two. A function answers as those of c_parse_expr do.
#![tactic(auto)]

pub mod calls;
mod letting_go;
pub mod simple;
