//! Statements of the typed tree, with their numbers and lines, and the targets, amounts and switch arms in them.
ghost use Rattle.std.specs.Prelude.{◌≡◌, IfOk};

use crate::expr::Expr;
use crate::program::Init;
use crate::types::{CType, FunctionId, StatementId, VarId};
use c_arith::BinaryOp;
use edge_io::Text;
use sqlite_items::{Boxed, Items};
use std::alloc::{AllocError, Global};

/// Where a value that a call gives is stored.
#[derive(Debug, Drop)]
pub enum Target {
    /// Nowhere.
    None,
    /// In the object that this expression designates.
    Place(Expr),
    /// The variable that the statement declares.
    Declared(VarId),
}

impl Target {
    /// An equal value. Err: no memory was left.
    pub fn copy(&self, alloc: Global) -> Result<Target, AllocError>
        ensures { IfOk result (λ t. t ≡ self.now) }
    {
        match self {
            Target::None => Ok(Target::None),
            Target::Place(place) => Ok(Target::Place(place.copy(alloc)?)),
            Target::Declared(var) => Ok(Target::Declared(*var)),
        }
    }
}

/// The words of a size: `sizeof(T)`, or `sizeof(*p)` and `sizeof *p`.
#[derive(Debug, Drop)]
pub enum Size {
    /// The size of a type.
    Type(CType),
    /// What a variable points to, and whether it stands in parentheses.
    Pointee(VarId, bool),
}

impl Size {
    /// An equal value. Err: no memory was left.
    pub fn copy(&self, alloc: Global) -> Result<Size, AllocError>
        ensures { IfOk result (λ t. t ≡ self.now) }
    {
        match self {
            Size::Type(shape) => Ok(Size::Type(shape.copy(alloc)?)),
            Size::Pointee(var, in_parentheses) => Ok(Size::Pointee(*var, *in_parentheses)),
        }
    }
}

/// How much memory an allocation asks for.
#[derive(Debug, Drop)]
pub enum Amount {
    /// One object of the size.
    Size(Size),
    /// `n * sizeof(T)`
    CountSize(Expr, Size),
    /// `sizeof(T) * n`
    SizeCount(Size, Expr),
    /// So many bytes, for objects of a char type.
    Count(Expr),
}

impl Amount {
    /// An equal value. Err: no memory was left.
    pub fn copy(&self, alloc: Global) -> Result<Amount, AllocError>
        ensures { IfOk result (λ t. t ≡ self.now) }
    {
        match self {
            Amount::Size(size) => Ok(Amount::Size(size.copy(alloc)?)),
            Amount::CountSize(count, size) => {
                Ok(Amount::CountSize(count.copy(alloc)?, size.copy(alloc)?))
            }
            Amount::SizeCount(size, count) => {
                Ok(Amount::SizeCount(size.copy(alloc)?, count.copy(alloc)?))
            }
            Amount::Count(count) => Ok(Amount::Count(count.copy(alloc)?)),
        }
    }
}

/// A label of a switch: a case with its value, or the default.
#[derive(Debug, Drop)]
pub enum Label {
    /// `case e:`, with its value as the promoted type of the switch has it.
    Case(Expr, i128),
    /// `default:`
    Default,
}

impl Label {
    /// An equal value. Err: no memory was left.
    pub fn copy(&self, alloc: Global) -> Result<Label, AllocError>
        ensures { IfOk result (λ t. t ≡ self.now) }
    {
        match self {
            Label::Case(value, number) => Ok(Label::Case(value.copy(alloc)?, *number)),
            Label::Default => Ok(Label::Default),
        }
    }
}

/// An arm of a switch: its labels, and what is done up to its break.
#[cycle(tree)]
#[derive(Debug, Drop)]
pub struct Arm {
    /// Its labels, in text order.
    pub labels: Items<Label>,
    /// Its statements, without the break.
    pub body: Items<Statement>,
}

/// A statement or a declaration (ISO C99 6.7, 6.8). An `id` is its number, a `line` that of its
/// first token, counted from 1.
#[cycle(tree)]
#[derive(Debug, Drop)]
pub enum Statement {
    /// Has a number where it has an initialiser.
    Declare {
        id: Option<StatementId>,
        line: u32,
        var: VarId,
        init: Init,
    },
    /// `=`, or a compound assignment with its operator.
    Assign {
        id: StatementId,
        line: u32,
        left: Expr,
        op: Option<BinaryOp>,
        right: Expr,
    },
    /// `++` or else `--`, written before its place or behind it.
    Bump {
        id: StatementId,
        line: u32,
        left: Expr,
        up: bool,
        before: bool,
    },
    /// A call of a function of the program.
    Invoke {
        id: StatementId,
        line: u32,
        target: Target,
        function: FunctionId,
        args: Items<Expr>,
    },
    /// A call of `getchar` (7.19.7.6).
    Fetch {
        id: StatementId,
        line: u32,
        target: Target,
    },
    /// A call of `putchar` (7.19.7.9).
    Write {
        id: StatementId,
        line: u32,
        value: Expr,
    },
    /// A call of `printf` (7.19.6.3); the format is the literal's spelling with its quotes.
    Print {
        id: StatementId,
        line: u32,
        format: Text,
        args: Items<Expr>,
    },
    /// A call of `malloc` (7.20.3.3), with the type that it is cast to.
    Heap {
        id: StatementId,
        line: u32,
        target: Target,
        cast: Option<CType>,
        amount: Amount,
    },
    /// A call of `free` (7.20.3.2).
    Release {
        id: StatementId,
        line: u32,
        value: Expr,
    },
    /// `if` (6.8.4.1); without an else `other` is empty.
    If {
        id: StatementId,
        line: u32,
        test: Expr,
        then: Items<Statement>,
        other: Items<Statement>,
    },
    /// `while` (6.8.5.1)
    While {
        id: StatementId,
        line: u32,
        test: Expr,
        body: Items<Statement>,
    },
    /// `do` (6.8.5.2)
    Do {
        id: StatementId,
        line: u32,
        test: Expr,
        body: Items<Statement>,
    },
    /// `for` (6.8.5.3); what it begins with and its step are statements of their own.
    For {
        id: StatementId,
        line: u32,
        init: Option<Boxed<Statement>>,
        test: Expr,
        step: Option<Boxed<Statement>>,
        body: Items<Statement>,
    },
    /// `switch` (6.8.4.2)
    Switch {
        id: StatementId,
        line: u32,
        test: Expr,
        arms: Items<Arm>,
    },
    /// A block that is no part of another statement (6.8.2).
    Block {
        line: u32,
        body: Items<Statement>,
    },
    /// `return` (6.8.6.4), with a value or without one.
    Return {
        id: StatementId,
        line: u32,
        value: Option<Expr>,
    },
}
