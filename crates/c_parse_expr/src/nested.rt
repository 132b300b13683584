//! Trees of expressions that carry how deep they nest, and the forms by which larger ones are built.
ghost use Rattle.std.specs.Prelude.{◌≡◌, ◌+◌, ◌<◌, ◌^◌, IfOk, max};
ghost use Rattle.c_language.specs.ExprGrammar as grammar;
ghost use Rattle.c_language.specs.Nesting.{nesting};

use c_language::{Infix, Prefix, Selector};
use c_tree::{Boxed, IntType, RawExpr, Text};
use std::alloc::{AllocError, Global};
use std::marker::Model;

/// An expression with its nesting.
#[derive(Drop)]
pub struct Nested {
    expr: RawExpr,
    height: u32,
}

impl Model for Nested {
    ghost use Rattle.std.specs.Prelude.{◌≡◌};
    ghost use Rattle.c_tree.specs.declared.raw.expr.RawExpr.{RawExpr};
    ghost use Rattle.c_language.specs.Nesting.{nesting};

    ghost Value = { RawExpr };

    ghost use Rattle.c_tree.specs.contracts.raw.expr.RawExpr as stored;
    ghost use Rattle.std.specs.Coded.{codes};

    ghost coded = { Prim.hlevel (codes, stored.the_row.coded) };

    ghost view = { λ n. n.expr };

    ghost invariant = { λ n. n.height ≡ nesting n.expr };
}

impl Nested {
    /// How deep it nests.
    pub fn height(&self) -> u32
        ensures { result ≡ nesting self.now }
    {
        self.height
    }

    /// Its tree.
    pub fn expr(&self) -> &RawExpr
        ensures { result.now ≡ self.now }
    {
        &self.expr
    }

    /// Its tree, taken out.
    pub fn into_expr(self) -> RawExpr
        ensures { result ≡ self }
    {
        self.expr
    }

    /// A constant with this spelling (6.4.4).
    pub fn constant(text: Text) -> Nested
        ensures { result ≡ RawExpr.Constant text }
    {
        Nested {
            expr: RawExpr::Constant(text),
            height: 0,
        }
    }

    /// The macro `NULL` (7.17).
    pub fn null() -> Nested
        ensures { result ≡ RawExpr.Null }
    {
        Nested {
            expr: RawExpr::Null,
            height: 0,
        }
    }

    /// The macro `EOF` (7.19.1).
    pub fn eof() -> Nested
        ensures { result ≡ RawExpr.Eof }
    {
        Nested {
            expr: RawExpr::Eof,
            height: 0,
        }
    }

    /// A variable with this name.
    pub fn variable(text: Text) -> Nested
        ensures { result ≡ RawExpr.Variable text }
    {
        Nested {
            expr: RawExpr::Variable(text),
            height: 0,
        }
    }

    /// It in parentheses; fails where memory runs out, as do the other forms.
    pub fn paren(self, alloc: Global) -> Result<Nested, AllocError>
        requires { nesting self + 1 < 2 ^ 32 }
        ensures { IfOk result (λ n. n ≡ RawExpr.Paren self) }
    {
        let height = self.height + 1;
        Ok(Nested {
            expr: RawExpr::Paren(Boxed::new(alloc, self.expr)?),
            height,
        })
    }

    /// It cast to an integer type (6.5.4).
    pub fn cast(self, alloc: Global, to: IntType) -> Result<Nested, AllocError>
        requires { nesting self + 1 < 2 ^ 32 }
        ensures { IfOk result (λ n. n ≡ RawExpr.Cast to self) }
    {
        let height = self.height + 1;
        Ok(Nested {
            expr: RawExpr::Cast(to, Boxed::new(alloc, self.expr)?),
            height,
        })
    }

    /// An operator before it (6.5.3).
    pub fn applied(self, alloc: Global, op: Prefix) -> Result<Nested, AllocError>
        requires { nesting self + 1 < 2 ^ 32 }
        ensures { IfOk result (λ n. n ≡ grammar.applied op self) }
    {
        let height = self.height + 1;
        let operand = Boxed::new(alloc, self.expr)?;
        let expr = match op {
            Prefix::Sign(op) => RawExpr::Unary(op, operand),
            Prefix::Deref => RawExpr::Deref(operand),
            Prefix::AddressOf => RawExpr::AddressOf(operand),
        };
        Ok(Nested { expr, height })
    }

    /// A member of it (6.5.2.3).
    pub fn selected(self, alloc: Global, by: Selector, member: Text) -> Result<Nested, AllocError>
        requires { nesting self + 1 < 2 ^ 32 }
        ensures { IfOk result (λ n. n ≡ grammar.selected by self member) }
    {
        let height = self.height + 1;
        let owner = Boxed::new(alloc, self.expr)?;
        let expr = match by {
            Selector::Dot => RawExpr::Member(owner, member),
            Selector::Arrow => RawExpr::Arrow(owner, member),
        };
        Ok(Nested { expr, height })
    }

    /// An element of it (6.5.2.1).
    pub fn index(self, alloc: Global, at: Nested) -> Result<Nested, AllocError>
        requires { max (nesting self) (nesting at) + 1 < 2 ^ 32 }
        ensures { IfOk result (λ n. n ≡ RawExpr.Index self at) }
    {
        let height = self.height.max(at.height) + 1;
        let (array, place) = boxed_pair(alloc, self, at)?;
        Ok(Nested {
            expr: RawExpr::Index(array, place),
            height,
        })
    }

    /// It and another operand, with an operator between them (6.5.5 to 6.5.14).
    pub fn joint(self, alloc: Global, op: Infix, right: Nested) -> Result<Nested, AllocError>
        requires { max (nesting self) (nesting right) + 1 < 2 ^ 32 }
        ensures { IfOk result (λ n. n ≡ grammar.joint op self right) }
    {
        let height = self.height.max(right.height) + 1;
        let (left, right) = boxed_pair(alloc, self, right)?;
        let expr = match op {
            Infix::Strict(op) => RawExpr::Binary(op, left, right),
            Infix::AndAlso => RawExpr::AndAlso(left, right),
            Infix::OrElse => RawExpr::OrElse(left, right),
        };
        Ok(Nested { expr, height })
    }

    /// One of two values by it (6.5.15).
    pub fn choice(self, alloc: Global, yes: Nested, no: Nested) -> Result<Nested, AllocError>
        requires { max (nesting self) (max (nesting yes) (nesting no)) + 1 < 2 ^ 32 }
        ensures { IfOk result (λ n. n ≡ RawExpr.Choose self yes no) }
    {
        let height = self.height.max(yes.height.max(no.height)) + 1;
        let (yes, no) = boxed_pair(alloc, yes, no)?;
        let test = Boxed::new(alloc, self.expr)?;
        Ok(Nested {
            expr: RawExpr::Choose(test, yes, no),
            height,
        })
    }
}

/// The trees of two expressions, each in a box of its own.
fn boxed_pair(
    alloc: Global,
    first: Nested,
    second: Nested,
) -> Result<(Boxed<RawExpr>, Boxed<RawExpr>), AllocError>
    ensures { IfOk result (λ pair. pair ≡ (first, second)) }
{
    let first = Boxed::new(alloc, first.expr)?;
    let second = Boxed::new(alloc, second.expr)?;
    Ok((first, second))
}
