//! Parts of statements in the tree, where they break no rule.
ghost use Rattle.std.specs.Prelude.{◌≡◌, Some, IfOk, option_map};
ghost use Rattle.c_tree.specs.declared.statement.Statement.TheVariants as statement;
ghost use Rattle.c_language.specs.Options.{IsThere};
ghost use Rattle.c_language.specs.ConstantEvaluation as constants;
ghost use Rattle.c_language.specs.ConstantEvaluation.{both};
ghost use Rattle.c_language.specs.Phrases.{Assigns, Bumps, Tests, Returns};
ghost use Rattle.c_language.specs.ProgramOf as trees;
ghost use Rattle.c_language.specs.Rules.{BreaksNone};
ghost use Rattle.c_types_base.specs.Tables.{scope_of, AreRight};
ghost use Rattle.c_types_trees.specs.KeptPhrases.{AreOperands, IsKeptInit, IsMeantTarget, IsKeptSwitch, IsKeptLabel};

use crate::expressions::{constant_tree, operand_of, tree_of};
use c_arith::{BinaryOp, IntType, convert, promote};
use c_tree::{
    Expr, Init, Items, Label, RawExpr, RawInit, RawLabel, RawTarget, Statement, StatementId, Target,
};
use c_types_base::constant::value_of_constant;
use c_types_base::expr_type::integer_of;
use c_types_base::tables::Tables;
use std::alloc::{AllocError, Global};

/// Expressions in the tree, each of which is an operand. Err: no memory was left.
pub fn trees_of(
    alloc: Global,
    tables: &Tables<'_>,
    exprs: &[RawExpr],
) -> Result<Items<Expr>, AllocError>
    requires right { AreRight tables.now }
    requires operands { AreOperands tables.now.raw.now (scope_of tables.now) exprs.now }
    ensures { IfOk result (λ ts. trees.exprs_of tables.now.raw.now (scope_of tables.now) exprs.now ≡ Some ts) }
{
    let mut all = Items::new(alloc);
    for expr in exprs {
        let tree = tree_of(alloc, tables, expr)?;
        all.push(tree)?;
    }
    Ok(all)
}

/// An initialiser in the tree (ISO C99 6.7.8). Err: no memory was left.
pub fn init_tree(alloc: Global, tables: &Tables<'_>, init: &RawInit) -> Result<Init, AllocError>
    requires right { AreRight tables.now }
    requires kept { IsKeptInit tables.now.raw.now (scope_of tables.now) init.now }
    ensures { IfOk result (λ t. trees.init_of tables.now.raw.now (scope_of tables.now) init.now ≡ Some t) }
{
    match init {
        RawInit::None => Ok(Init::None),
        RawInit::One(value) => Ok(Init::One(tree_of(alloc, tables, value)?)),
        RawInit::Items(values) => Ok(Init::Items(trees_of(alloc, tables, values.as_slice())?)),
    }
}

/// An assignment in the tree (6.5.16). Err: no memory was left.
pub fn assign_tree(
    alloc: Global,
    tables: &Tables<'_>,
    id: StatementId,
    line: u32,
    left: &RawExpr,
    op: Option<BinaryOp>,
    right: &RawExpr,
) -> Result<Statement, AllocError>
    requires right { AreRight tables.now }
    requires kept { BreaksNone tables.now.raw.now (scope_of tables.now) (Assigns left.now op right.now) }
    ensures { IfOk result (λ s. both (λ a b. statement.Assign id line a op b) (trees.expr_of tables.now.raw.now (scope_of tables.now) left.now) (trees.expr_of tables.now.raw.now (scope_of tables.now) right.now) ≡ Some s) }
{
    let place = tree_of(alloc, tables, left)?;
    let value = tree_of(alloc, tables, right)?;
    Ok(Statement::Assign {
        id,
        line,
        left: place,
        op,
        right: value,
    })
}

/// `++` or `--` in the tree (6.5.2.4, 6.5.3.1). Err: no memory was left.
pub fn bump_tree(
    alloc: Global,
    tables: &Tables<'_>,
    id: StatementId,
    line: u32,
    left: &RawExpr,
    up: bool,
    before: bool,
) -> Result<Statement, AllocError>
    requires right { AreRight tables.now }
    requires kept { BreaksNone tables.now.raw.now (scope_of tables.now) (Bumps left.now) }
    ensures { IfOk result (λ s. option_map (λ a. statement.Bump id line a up before) (trees.expr_of tables.now.raw.now (scope_of tables.now) left.now) ≡ Some s) }
{
    let place = tree_of(alloc, tables, left)?;
    Ok(Statement::Bump {
        id,
        line,
        left: place,
        up,
        before,
    })
}

/// A return in the tree (6.8.6.4). Err: no memory was left.
pub fn return_tree(
    alloc: Global,
    tables: &Tables<'_>,
    id: StatementId,
    line: u32,
    value: &Option<RawExpr>,
) -> Result<Statement, AllocError>
    requires right { AreRight tables.now }
    requires kept { BreaksNone tables.now.raw.now (scope_of tables.now) (Returns value.now) }
    ensures { IfOk result (λ s. option_map (statement.Return id line) (trees.optional (option_map (trees.expr_of tables.now.raw.now (scope_of tables.now)) value.now)) ≡ Some s) }
{
    let value = match value {
        None => None,
        Some(expr) => Some(tree_of(alloc, tables, expr)?),
    };
    Ok(Statement::Return { id, line, value })
}

/// The test of an if, a while, a do or a for in the tree (6.8.4, 6.8.5). Err: no memory was left.
pub fn test_tree(alloc: Global, tables: &Tables<'_>, test: &RawExpr) -> Result<Expr, AllocError>
    requires right { AreRight tables.now }
    requires kept { BreaksNone tables.now.raw.now (scope_of tables.now) (Tests test.now) }
    ensures { IfOk result (λ t. trees.expr_of tables.now.raw.now (scope_of tables.now) test.now ≡ Some t) }
{
    tree_of(alloc, tables, test)
}

/// Where a call's result is stored, before the variable that it declares is. Err: no memory was left.
pub fn target_tree(
    alloc: Global,
    tables: &Tables<'_>,
    target: &RawTarget,
) -> Result<Target, AllocError>
    requires right { AreRight tables.now }
    requires meant { IsMeantTarget tables.now.raw.now (scope_of tables.now) target.now }
    ensures { IfOk result (λ t. trees.target_tree tables.now.raw.now (scope_of tables.now) target.now ≡ Some t) }
{
    match target {
        RawTarget::None => Ok(Target::None),
        RawTarget::Place(place) => Ok(Target::Place(tree_of(alloc, tables, place)?)),
        RawTarget::Declared(_) => Ok(Target::Declared(tables.variables)),
    }
}

/// The promoted type of a switch (6.8.4.2, paragraph 5). Err: no memory was left.
fn switch_type(alloc: Global, tables: &Tables<'_>, test: &RawExpr) -> Result<IntType, AllocError>
    requires right { AreRight tables.now }
    requires kept { IsKeptSwitch tables.now.raw.now (scope_of tables.now) test.now }
    ensures { IfOk result (λ t. trees.switch_type tables.now.raw.now (scope_of tables.now) test.now ≡ Some t) }
{
    let operand = operand_of(alloc, tables, test)?;
    match integer_of(&operand.shape) {
        Some(t) => Ok(promote(t)),
        None => unreachable!(),
    }
}

/// The test of a switch in the tree, and its promoted type (6.8.4.2). Err: no memory was left.
pub fn switch_tree(
    alloc: Global,
    tables: &Tables<'_>,
    test: &RawExpr,
) -> Result<(Expr, IntType), AllocError>
    requires right { AreRight tables.now }
    requires kept { IsKeptSwitch tables.now.raw.now (scope_of tables.now) test.now }
    ensures tree { IfOk result (λ r. trees.expr_of tables.now.raw.now (scope_of tables.now) test.now ≡ Some r.0) }
    ensures promoted { IfOk result (λ r. trees.switch_type tables.now.raw.now (scope_of tables.now) test.now ≡ Some r.1) }
{
    let promoted = switch_type(alloc, tables, test)?;
    let tree = tree_of(alloc, tables, test)?;
    Ok((tree, promoted))
}

/// A case of a switch over a promoted type, with its value. Err: no memory was left.
fn case_tree(
    alloc: Global,
    tables: &Tables<'_>,
    t: IntType,
    value: &RawExpr,
) -> Result<Label, AllocError>
    requires right { AreRight tables.now }
    requires constant { IsThere (constants.value_of_constant value.now) }
    ensures { IfOk result (λ l. trees.case_tree tables.now.raw.now (scope_of tables.now) t value.now ≡ Some l) }
{
    match value_of_constant(value) {
        Some(number) => {
            let tree = constant_tree(alloc, tables, value)?;
            Ok(Label::Case(tree, convert(number, t)))
        }
        None => unreachable!(),
    }
}

/// A label of a switch over a promoted type (6.8.4.2). Err: no memory was left.
pub fn label_tree(
    alloc: Global,
    tables: &Tables<'_>,
    t: IntType,
    label: &RawLabel,
) -> Result<Label, AllocError>
    requires right { AreRight tables.now }
    requires kept { IsKeptLabel tables.now.raw.now label.now }
    ensures { IfOk result (λ l. trees.label_tree tables.now.raw.now (scope_of tables.now) t label.now ≡ Some l) }
{
    match label {
        RawLabel::Default => Ok(Label::Default),
        RawLabel::Case(value) => case_tree(alloc, tables, t, value),
    }
}
