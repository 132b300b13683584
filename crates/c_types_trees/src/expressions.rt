//! Expressions in the tree, with names as numbers.
ghost use Rattle.std.specs.Prelude.{◌≡◌, Some, Ok, IfOk};
ghost use Rattle.c_tree.specs.declared.raw.expr.RawExpr.TheVariants as raw_expr;
ghost use Rattle.c_language.specs.ConstantEvaluation as constants;
ghost use Rattle.c_language.specs.ExprTypes as types;
ghost use Rattle.c_language.specs.ProgramOf as trees;
ghost use Rattle.c_language.specs.Scopes as scopes;
ghost use Rattle.c_types_base.specs.Judging.{judged};
ghost use Rattle.c_types_base.specs.Tables.{scope_of, AreRight};
ghost use Rattle.c_types_trees.specs.KeptPhrases.{IsOperand, IsConstant, IsMeant};

use c_language::Operand;
use c_tree::{Boxed, Expr, MemberId, RawExpr, Text, VarId};
use c_types_base::fault::Fault;
use c_types_base::judging::judge;
use c_types_base::literal::literal;
use c_types_base::names::Meaning;
use c_types_base::operators::pointed;
use c_types_base::tables::Tables;
use std::alloc::{AllocError, Global};

/// The number of a variable that is in scope.
pub fn variable_number(tables: &Tables<'_>, name: &[u8]) -> Option<VarId>
    ensures { result ≡ trees.variable_number (scopes.meaning_in (scope_of tables.now) name.now) }
{
    match tables.names.get(name) {
        Some(Meaning::Variable(id, _)) => Some(*id),
        Some(Meaning::Function) => None,
        None => None,
    }
}

/// A constant with its type and its value (ISO C99 6.4.4).
fn spelled(alloc: Global, text: &Text) -> Result<Expr, AllocError>
    ensures { IfOk result (λ t. t ≡ Expr.Constant text.now (constants.literal_type text.now) (constants.literal_value text.now)) }
{
    let (t, value) = literal(text.bytes());
    Ok(Expr::Constant(text.copy(alloc)?, t, value))
}

/// A variable that is an operand.
fn variable(tables: &Tables<'_>, name: &[u8]) -> VarId
    requires { IsMeant tables.now.raw.now (scope_of tables.now) (raw_expr.Variable name.now) }
    ensures { trees.variable_number (scopes.meaning_in (scope_of tables.now) name.now) ≡ Some result }
{
    match variable_number(tables, name) {
        Some(id) => id,
        None => unreachable!(),
    }
}

/// What an expression is as an operand. Err: no memory was left.
pub fn operand_of(alloc: Global, tables: &Tables<'_>, expr: &RawExpr) -> Result<Operand, AllocError>
    requires right { AreRight tables.now }
    requires operand { IsOperand tables.now.raw.now (scope_of tables.now) expr.now }
    ensures { IfOk result (λ x. judged tables.now.raw.now (scope_of tables.now) expr.now ≡ Ok x) }
{
    match judge(alloc, tables, expr) {
        Ok(operand) => Ok(operand),
        Err(Fault::NoMemory) => Err(AllocError),
        Err(Fault::Rule(_)) => unreachable!(),
    }
}

/// The member that `a.name` selects. Err: no memory was left.
fn member_of(
    alloc: Global,
    tables: &Tables<'_>,
    a: &RawExpr,
    name: &[u8],
) -> Result<MemberId, AllocError>
    requires right { AreRight tables.now }
    requires meant { IsMeant tables.now.raw.now (scope_of tables.now) (raw_expr.Member a.now name.now) }
    ensures { IfOk result (λ m. trees.of_operand tables.now.raw.now name.now (types.operand tables.now.raw.now (scope_of tables.now) a.now) ≡ Some m) }
{
    let object = operand_of(alloc, tables, a)?;
    match tables.defined.member_of(&object.shape, name) {
        Some(id) => Ok(id),
        None => unreachable!(),
    }
}

/// The member that `a->name` selects. Err: no memory was left.
fn arrow_of(
    alloc: Global,
    tables: &Tables<'_>,
    a: &RawExpr,
    name: &[u8],
) -> Result<MemberId, AllocError>
    requires right { AreRight tables.now }
    requires meant { IsMeant tables.now.raw.now (scope_of tables.now) (raw_expr.Arrow a.now name.now) }
    ensures { IfOk result (λ m. trees.of_pointed tables.now.raw.now name.now (types.operand tables.now.raw.now (scope_of tables.now) a.now) ≡ Some m) }
{
    let pointer = operand_of(alloc, tables, a)?;
    let Some(t) = pointed(pointer) else {
        unreachable!();
    };
    match tables.defined.member_of(&t, name) {
        Some(id) => Ok(id),
        None => unreachable!(),
    }
}

/// `a.name` in the tree, where `a` is. Err: no memory was left.
fn member(
    alloc: Global,
    tables: &Tables<'_>,
    object: Expr,
    a: &RawExpr,
    name: &[u8],
) -> Result<Expr, AllocError>
    requires right { AreRight tables.now }
    requires meant { IsMeant tables.now.raw.now (scope_of tables.now) (raw_expr.Member a.now name.now) }
    requires object { trees.expr_of tables.now.raw.now (scope_of tables.now) a.now ≡ Some object }
    ensures { IfOk result (λ t. trees.expr_of tables.now.raw.now (scope_of tables.now) (raw_expr.Member a.now name.now) ≡ Some t) }
{
    let id = member_of(alloc, tables, a, name)?;
    Ok(Expr::Member(Boxed::new(alloc, object)?, id))
}

/// `a->name` in the tree, where `a` is. Err: no memory was left.
fn arrow(
    alloc: Global,
    tables: &Tables<'_>,
    pointer: Expr,
    a: &RawExpr,
    name: &[u8],
) -> Result<Expr, AllocError>
    requires right { AreRight tables.now }
    requires meant { IsMeant tables.now.raw.now (scope_of tables.now) (raw_expr.Arrow a.now name.now) }
    requires pointer { trees.expr_of tables.now.raw.now (scope_of tables.now) a.now ≡ Some pointer }
    ensures { IfOk result (λ t. trees.expr_of tables.now.raw.now (scope_of tables.now) (raw_expr.Arrow a.now name.now) ≡ Some t) }
{
    let id = arrow_of(alloc, tables, a, name)?;
    Ok(Expr::Arrow(Boxed::new(alloc, pointer)?, id))
}

/// A part in a box, where it was made. Err: no memory was left.
fn boxed(alloc: Global, made: Result<Expr, AllocError>) -> Result<Boxed<Expr>, AllocError>
    ensures { IfOk result (λ part. made ≡ Ok part) }
{
    Boxed::new(alloc, made?)
}

/// An expression in the tree, which is an operand, or a constant expression. Err: no memory was left.
#[tactic(auto, using(crate::proofs::Rulesets::trees))]
fn tree(alloc: Global, tables: &Tables<'_>, expr: &RawExpr) -> Result<Expr, AllocError>
    requires right { AreRight tables.now }
    requires meant { IsMeant tables.now.raw.now (scope_of tables.now) expr.now }
    ensures { IfOk result (λ t. trees.expr_of tables.now.raw.now (scope_of tables.now) expr.now ≡ Some t) }
{
    match expr {
        RawExpr::Constant(text) => spelled(alloc, text),
        RawExpr::Null => Ok(Expr::Null),
        RawExpr::Eof => Ok(Expr::Eof),
        RawExpr::Variable(name) => Ok(Expr::Variable(variable(tables, name.bytes()))),
        RawExpr::Unary(op, a) => {
            let operand = boxed(alloc, tree(alloc, tables, a.get()))?;
            Ok(Expr::Unary(*op, operand))
        }
        RawExpr::Deref(a) => {
            let operand = boxed(alloc, tree(alloc, tables, a.get()))?;
            Ok(Expr::Deref(operand))
        }
        RawExpr::AddressOf(a) => {
            let operand = boxed(alloc, tree(alloc, tables, a.get()))?;
            Ok(Expr::AddressOf(operand))
        }
        RawExpr::Binary(op, a, b) => {
            let left = boxed(alloc, tree(alloc, tables, a.get()))?;
            let right = boxed(alloc, tree(alloc, tables, b.get()))?;
            Ok(Expr::Binary(*op, left, right))
        }
        RawExpr::AndAlso(a, b) => {
            let left = boxed(alloc, tree(alloc, tables, a.get()))?;
            let right = boxed(alloc, tree(alloc, tables, b.get()))?;
            Ok(Expr::AndAlso(left, right))
        }
        RawExpr::OrElse(a, b) => {
            let left = boxed(alloc, tree(alloc, tables, a.get()))?;
            let right = boxed(alloc, tree(alloc, tables, b.get()))?;
            Ok(Expr::OrElse(left, right))
        }
        RawExpr::Choose(c, a, b) => {
            let test = boxed(alloc, tree(alloc, tables, c.get()))?;
            let left = boxed(alloc, tree(alloc, tables, a.get()))?;
            let right = boxed(alloc, tree(alloc, tables, b.get()))?;
            Ok(Expr::Choose(test, left, right))
        }
        RawExpr::Cast(t, a) => {
            let operand = boxed(alloc, tree(alloc, tables, a.get()))?;
            Ok(Expr::Cast(*t, operand))
        }
        RawExpr::Index(a, i) => {
            let array = boxed(alloc, tree(alloc, tables, a.get()))?;
            let index = boxed(alloc, tree(alloc, tables, i.get()))?;
            Ok(Expr::Index(array, index))
        }
        RawExpr::Member(a, name) => {
            let object = tree(alloc, tables, a.get())?;
            member(alloc, tables, object, a.get(), name.bytes())
        }
        RawExpr::Arrow(a, name) => {
            let pointer = tree(alloc, tables, a.get())?;
            arrow(alloc, tables, pointer, a.get(), name.bytes())
        }
        RawExpr::Paren(a) => {
            let inner = boxed(alloc, tree(alloc, tables, a.get()))?;
            Ok(Expr::Paren(inner))
        }
    }
}

/// An expression in the tree, which is an operand: no rule is broken in it. Err: no memory was left.
pub fn tree_of(alloc: Global, tables: &Tables<'_>, expr: &RawExpr) -> Result<Expr, AllocError>
    requires right { AreRight tables.now }
    requires operand { IsOperand tables.now.raw.now (scope_of tables.now) expr.now }
    ensures { IfOk result (λ t. trees.expr_of tables.now.raw.now (scope_of tables.now) expr.now ≡ Some t) }
{
    tree(alloc, tables, expr)
}

/// A constant expression in the tree (6.6), whatever its scope. Err: no memory was left.
pub fn constant_tree(alloc: Global, tables: &Tables<'_>, expr: &RawExpr) -> Result<Expr, AllocError>
    requires right { AreRight tables.now }
    requires constant { IsConstant expr.now }
    ensures { IfOk result (λ t. trees.expr_of tables.now.raw.now (scope_of tables.now) expr.now ≡ Some t) }
{
    tree(alloc, tables, expr)
}
