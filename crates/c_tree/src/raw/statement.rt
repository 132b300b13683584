//! Statements as the parser reads them, with the arguments, type names, sizes and amounts that stand in them.
use crate::raw::expr::{RawExpr, RawType, RawVar};
use crate::raw::program::RawInit;
use c_arith::BinaryOp;
use edge_io::Text;
use sqlite_items::{Boxed, Items};

/// Where a value that a call gives is stored.
#[derive(Debug, Drop)]
pub enum RawTarget {
    /// Nowhere.
    None,
    /// In the object that this expression designates.
    Place(RawExpr),
    /// The variable that the statement declares.
    Declared(RawVar),
}

/// An argument of a call: a value, or the spelling of a string literal with its quotes.
#[derive(Debug, Drop)]
pub enum RawArg {
    /// An expression.
    Value(RawExpr),
    /// A string literal, by its spelling with its quotes.
    Literal(Text),
}

/// A type name (ISO C99 6.7.6): a base with so many stars. Nothing bounds how many are written, so
/// they are counted, and don't nest.
#[derive(Debug, Drop)]
pub struct RawTypeName {
    /// The type in front of the stars.
    pub base: RawType,
    /// How many stars there are.
    pub stars: usize,
}

/// The words of a size: `sizeof(T)`, or `sizeof(*p)` and `sizeof *p`.
#[derive(Debug, Drop)]
pub enum RawSize {
    /// The size of a type.
    Type(RawTypeName),
    /// What a variable points to, and whether it stands in parentheses.
    Pointee(Text, bool),
}

/// How much memory an allocation asks for.
#[derive(Debug, Drop)]
pub enum RawAmount {
    /// One object of the size.
    Size(RawSize),
    /// `n * sizeof(T)`
    CountSize(RawExpr, RawSize),
    /// `sizeof(T) * n`
    SizeCount(RawSize, RawExpr),
    /// So many bytes, for objects of a char type.
    Count(RawExpr),
}

/// A label of a switch.
#[derive(Debug, Drop)]
pub enum RawLabel {
    /// `case e:`
    Case(RawExpr),
    /// `default:`
    Default,
}

/// An arm of a switch: its labels, and what is done up to its break.
#[cycle(raw_tree)]
#[derive(Debug, Drop)]
pub struct RawArm {
    /// Its labels, in text order.
    pub labels: Items<RawLabel>,
    /// Its statements, without the break.
    pub body: Items<RawStatement>,
}

/// A statement or a declaration (ISO C99 6.7, 6.8).
#[cycle(raw_tree)]
#[derive(Debug, Drop)]
pub enum RawStatement {
    /// A declarator of a declaration (6.7), and what its variable begins with.
    Declare {
        line: u32,
        var: RawVar,
        init: RawInit,
    },
    /// `=`, or a compound assignment with its operator.
    Assign {
        line: u32,
        left: RawExpr,
        op: Option<BinaryOp>,
        right: RawExpr,
    },
    /// `++` or else `--`, written before its place or behind it.
    Bump {
        line: u32,
        left: RawExpr,
        up: bool,
        before: bool,
    },
    /// A call of a function by its name, other than `malloc`.
    Call {
        line: u32,
        target: RawTarget,
        function: Text,
        args: Items<RawArg>,
    },
    /// A call of `malloc` (7.20.3.3), with the type that it is cast to.
    Heap {
        line: u32,
        target: RawTarget,
        cast: Option<RawTypeName>,
        amount: RawAmount,
    },
    /// `if` (6.8.4.1); without an else `other` is empty.
    If {
        line: u32,
        test: RawExpr,
        then: Items<RawStatement>,
        other: Items<RawStatement>,
    },
    /// `while` (6.8.5.1)
    While {
        line: u32,
        test: RawExpr,
        body: Items<RawStatement>,
    },
    /// `do` (6.8.5.2)
    Do {
        line: u32,
        test: RawExpr,
        body: Items<RawStatement>,
    },
    /// `for` (6.8.5.3); what it begins with and its step are statements of their own.
    For {
        line: u32,
        init: Option<Boxed<RawStatement>>,
        test: RawExpr,
        step: Option<Boxed<RawStatement>>,
        body: Items<RawStatement>,
    },
    /// `switch` (6.8.4.2)
    Switch {
        line: u32,
        test: RawExpr,
        arms: Items<RawArm>,
    },
    /// A block that is no part of another statement (6.8.2).
    Block {
        line: u32,
        body: Items<RawStatement>,
    },
    /// `return` (6.8.6.4), with a value or without one.
    Return {
        line: u32,
        value: Option<RawExpr>,
    },
}
