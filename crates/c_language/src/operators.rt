//! The operators as they are written: between two operands, before one, and those that select a member.
use c_arith::{BinaryOp, UnaryOp};

/// An operator between two operands (ISO C99 6.5.5 to 6.5.14).
#[derive(Clone, Copy, Debug, PartialEq, Eq)]
pub enum Infix {
    /// One that always evaluates both operands.
    Strict(BinaryOp),
    /// `&&`
    AndAlso,
    /// `||`
    OrElse,
}

/// An operator before its operand (6.5.3).
#[derive(Clone, Copy, Debug, PartialEq, Eq)]
pub enum Prefix {
    /// One of `+ - ~ !`
    Sign(UnaryOp),
    /// `*`
    Deref,
    /// `&`
    AddressOf,
}

/// How a member is selected (6.5.2.3).
#[derive(Clone, Copy, Debug, PartialEq, Eq)]
pub enum Selector {
    /// `.`
    Dot,
    /// `->`
    Arrow,
}
