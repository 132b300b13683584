//! The truth for work that only draws. It stands apart from its type, whose name differs only by a capital.
use crate::truth::Numbers;

/// The truth without facts. It takes no memory.
pub fn numbers() -> Numbers {
    Numbers
}
