//! Expressions of the typed tree, with variables and members by their numbers, and copies of them.
ghost use Rattle.std.specs.Prelude.{◌≡◌, IfOk};

use crate::copies::Copies;
use crate::types::{StructId, VarId};
use c_arith::{BinaryOp, IntType, UnaryOp};
use edge_io::Text;
use sqlite_items::Boxed;
use std::alloc::{AllocError, Global};

/// A member of a struct type: the type's number, and the member's place among its members.
#[derive(Clone, Copy, Debug, PartialEq, Eq)]
pub struct MemberId {
    /// The struct type.
    pub owner: StructId,
    /// Its place among the members, counted from 0.
    pub index: u32,
}

/// An expression (ISO C99 6.5), with the parentheses and spellings of the text.
#[derive(Debug, Drop)]
pub enum Expr {
    /// The spelling, the type and the value of a constant of an integer type (6.4.4).
    Constant(Text, IntType, u64),
    /// `NULL` (7.17)
    Null,
    /// `EOF` (7.19.1)
    Eof,
    /// A variable by its number.
    Variable(VarId),
    /// `+e`, `-e`, `~e`, `!e` (6.5.3.3)
    Unary(UnaryOp, Boxed<Expr>),
    /// `*e` (6.5.3.2)
    Deref(Boxed<Expr>),
    /// `&e` (6.5.3.2)
    AddressOf(Boxed<Expr>),
    /// `a op b`, where both operands are always evaluated (6.5.5 to 6.5.12).
    Binary(BinaryOp, Boxed<Expr>, Boxed<Expr>),
    /// `a && b` (6.5.13)
    AndAlso(Boxed<Expr>, Boxed<Expr>),
    /// `a || b` (6.5.14)
    OrElse(Boxed<Expr>, Boxed<Expr>),
    /// `c ? a : b` (6.5.15)
    Choose(Boxed<Expr>, Boxed<Expr>, Boxed<Expr>),
    /// `(T)e`, to an integer type (6.5.4).
    Cast(IntType, Boxed<Expr>),
    /// `a[i]` (6.5.2.1)
    Index(Boxed<Expr>, Boxed<Expr>),
    /// `e.m` (6.5.2.3)
    Member(Boxed<Expr>, MemberId),
    /// `e->m` (6.5.2.3)
    Arrow(Boxed<Expr>, MemberId),
    /// `(e)` (6.5.1)
    Paren(Boxed<Expr>),
}

impl Expr {
    /// An equal value. Err: no memory was left.
    pub fn copy(&self, alloc: Global) -> Result<Expr, AllocError>
        ensures { IfOk result (λ t. t ≡ self.now) }
    {
        match self {
            Expr::Constant(text, t, value) => Ok(Expr::Constant(text.copy(alloc)?, *t, *value)),
            Expr::Null => Ok(Expr::Null),
            Expr::Eof => Ok(Expr::Eof),
            Expr::Variable(x) => Ok(Expr::Variable(*x)),
            Expr::Unary(op, a) => Ok(Expr::Unary(*op, Boxed::new(alloc, a.get().copy(alloc)?)?)),
            Expr::Deref(a) => Ok(Expr::Deref(Boxed::new(alloc, a.get().copy(alloc)?)?)),
            Expr::AddressOf(a) => Ok(Expr::AddressOf(Boxed::new(alloc, a.get().copy(alloc)?)?)),
            Expr::Binary(op, a, b) => Ok(Expr::Binary(
                *op,
                Boxed::new(alloc, a.get().copy(alloc)?)?,
                Boxed::new(alloc, b.get().copy(alloc)?)?,
            )),
            Expr::AndAlso(a, b) => Ok(Expr::AndAlso(
                Boxed::new(alloc, a.get().copy(alloc)?)?,
                Boxed::new(alloc, b.get().copy(alloc)?)?,
            )),
            Expr::OrElse(a, b) => Ok(Expr::OrElse(
                Boxed::new(alloc, a.get().copy(alloc)?)?,
                Boxed::new(alloc, b.get().copy(alloc)?)?,
            )),
            Expr::Choose(c, a, b) => Ok(Expr::Choose(
                Boxed::new(alloc, c.get().copy(alloc)?)?,
                Boxed::new(alloc, a.get().copy(alloc)?)?,
                Boxed::new(alloc, b.get().copy(alloc)?)?,
            )),
            Expr::Cast(t, a) => Ok(Expr::Cast(*t, Boxed::new(alloc, a.get().copy(alloc)?)?)),
            Expr::Index(a, i) => Ok(Expr::Index(
                Boxed::new(alloc, a.get().copy(alloc)?)?,
                Boxed::new(alloc, i.get().copy(alloc)?)?,
            )),
            Expr::Member(a, m) => Ok(Expr::Member(Boxed::new(alloc, a.get().copy(alloc)?)?, *m)),
            Expr::Arrow(a, m) => Ok(Expr::Arrow(Boxed::new(alloc, a.get().copy(alloc)?)?, *m)),
            Expr::Paren(a) => Ok(Expr::Paren(Boxed::new(alloc, a.get().copy(alloc)?)?)),
        }
    }
}

impl Copies for Expr {
    fn duplicate(&self, alloc: Global) -> Result<Expr, AllocError> {
        self.copy(alloc)
    }
}
