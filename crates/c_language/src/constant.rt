//! What a constant expression is found to be: its integer type, and its value where that is defined.
use c_arith::IntType;

/// What a constant expression is (ISO C99 6.6).
#[derive(Clone, Copy, Debug, PartialEq, Eq)]
pub struct Constant {
    /// Its type.
    pub integer: IntType,
    /// Its value. None where an act of its evaluation is undefined.
    pub value: Option<i128>,
}
