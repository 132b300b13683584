//! Expressions, types and declared names as the parser reads them: by name, and not yet typed.
use c_arith::{BinaryOp, IntType, UnaryOp};
use edge_io::Text;
use sqlite_items::Boxed;

/// An expression (ISO C99 6.5), with the parentheses and spellings of the text.
#[derive(Debug, Drop)]
pub enum RawExpr {
    /// The spelling of a constant of an integer type (6.4.4).
    Constant(Text),
    /// `NULL` (7.17)
    Null,
    /// `EOF` (7.19.1)
    Eof,
    /// A variable by its name.
    Variable(Text),
    /// `+e`, `-e`, `~e`, `!e` (6.5.3.3)
    Unary(UnaryOp, Boxed<RawExpr>),
    /// `*e` (6.5.3.2)
    Deref(Boxed<RawExpr>),
    /// `&e` (6.5.3.2)
    AddressOf(Boxed<RawExpr>),
    /// `a op b`, where both operands are always evaluated (6.5.5 to 6.5.12).
    Binary(BinaryOp, Boxed<RawExpr>, Boxed<RawExpr>),
    /// `a && b` (6.5.13)
    AndAlso(Boxed<RawExpr>, Boxed<RawExpr>),
    /// `a || b` (6.5.14)
    OrElse(Boxed<RawExpr>, Boxed<RawExpr>),
    /// `c ? a : b` (6.5.15)
    Choose(Boxed<RawExpr>, Boxed<RawExpr>, Boxed<RawExpr>),
    /// `(T)e`, to an integer type (6.5.4).
    Cast(IntType, Boxed<RawExpr>),
    /// `a[i]` (6.5.2.1)
    Index(Boxed<RawExpr>, Boxed<RawExpr>),
    /// `e.m`, with the name of the member (6.5.2.3).
    Member(Boxed<RawExpr>, Text),
    /// `e->m`, with the name of the member (6.5.2.3).
    Arrow(Boxed<RawExpr>, Text),
    /// `(e)` (6.5.1)
    Paren(Boxed<RawExpr>),
}

/// The length of an array (6.7.5.2).
#[derive(Debug, Drop)]
pub enum RawLength {
    /// The expression in the brackets.
    Written(RawExpr),
    /// None was written: the list of initialisers gives it.
    Listed,
}

/// A type (6.2.5), with struct types by their tags.
#[derive(Debug, Drop)]
pub enum RawType {
    /// An integer type.
    Integer(IntType),
    /// A pointer to this type.
    PointerTo(Boxed<RawType>),
    /// An array of this type, with its length.
    Array(Boxed<RawType>, RawLength),
    /// A struct type by its tag.
    Struct(Text),
}

/// A name with the type that its declarator gives it (6.7.5).
#[derive(Debug, Drop)]
pub struct RawVar {
    /// The name that is declared.
    pub name: Text,
    /// Its type.
    pub shape: RawType,
}
