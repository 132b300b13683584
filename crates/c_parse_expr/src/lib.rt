//! Reading expressions, types and declarators from left to right (ISO C99 6.5, 6.7), with one token in hand, or two.
//!
//! Each function that reads goes behind what it reads. Else it answers why it stopped, with how many tokens were left
//! there (`Stop`): the tokens have no such tree, it would nest too deep, or memory ran out.
#![tactic(auto)]

pub mod cursor;
pub mod expr;
pub mod extension;
pub mod fault;
pub mod forms;
pub mod int_words;
pub mod nested;
pub mod params;
pub mod shape;
pub mod types;
