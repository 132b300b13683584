//! Reading statements from left to right (ISO C99 6.8), with one token in hand, or two. The recursion is bounded by the
//! depth that is left: what nests deeper is refused before it is read. A function answers as those of c_parse_expr do.
#![tactic(auto)]

pub mod statement;
