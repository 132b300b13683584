//! Calls in the tree (ISO C99 6.5.2.2), where they break no rule.
ghost use Rattle.std.specs.Prelude.{◌≡◌, ◌≢◌, Some, None, IfOk, bytes_eq};
ghost use Rattle.c_language.specs.Options.{IsThere};
ghost use Rattle.c_language.specs.CallRules as rules;
ghost use Rattle.c_language.specs.DeclaredTypes as types;
ghost use Rattle.c_language.specs.ProgramOf as trees;
ghost use Rattle.c_language.specs.Uses.{arg_exprs};
ghost use Rattle.c_types_base.specs.Tables.{scope_of, AreRight};
ghost use Rattle.c_types_trees.specs.KeptPhrases.{AreOperands, IsValue, AreValues, IsKeptCall};

use crate::expressions::tree_of;
use c_tree::{Expr, FunctionId, Items, RawArg, Statement, StatementId, Target};
use c_types_base::call_args::{format_in, later_args, only_arg};
use c_types_base::tables::Tables;
use std::alloc::{AllocError, Global};

/// An argument in the tree, which is an operand. Err: no memory was left.
fn arg_tree(alloc: Global, tables: &Tables<'_>, arg: &RawArg) -> Result<Expr, AllocError>
    requires right { AreRight tables.now }
    requires value { IsValue tables.now.raw.now (scope_of tables.now) arg.now }
    ensures { IfOk result (λ t. trees.arg_tree tables.now.raw.now (scope_of tables.now) arg.now ≡ Some t) }
{
    match arg {
        RawArg::Value(value) => tree_of(alloc, tables, value),
        RawArg::Literal(_) => unreachable!(),
    }
}

/// Arguments in the tree, each of which is an operand. Err: no memory was left.
fn args_tree(alloc: Global, tables: &Tables<'_>, args: &[RawArg]) -> Result<Items<Expr>, AllocError>
    requires right { AreRight tables.now }
    requires values { AreValues tables.now.raw.now (scope_of tables.now) args.now }
    ensures { IfOk result (λ ts. trees.args_tree tables.now.raw.now (scope_of tables.now) args.now ≡ Some ts) }
{
    let mut all = Items::new(alloc);
    for arg in args {
        let tree = arg_tree(alloc, tables, arg)?;
        all.push(tree)?;
    }
    Ok(all)
}

/// The one argument of a call in the tree. Err: no memory was left.
fn only_tree(alloc: Global, tables: &Tables<'_>, args: &[RawArg]) -> Result<Expr, AllocError>
    requires right { AreRight tables.now }
    requires only { rules.only_arg args.now ≢ None }
    requires operands { AreOperands tables.now.raw.now (scope_of tables.now) (arg_exprs args.now) }
    ensures { IfOk result (λ t. trees.only_tree tables.now.raw.now (scope_of tables.now) args.now ≡ Some t) }
{
    match only_arg(args) {
        Some(value) => {
            let tree = tree_of(alloc, tables, value)?;
            Ok(tree)
        }
        None => unreachable!(),
    }
}

/// A call of `printf` in the tree (7.19.6.3). Err: no memory was left.
fn print_tree(
    alloc: Global,
    tables: &Tables<'_>,
    id: StatementId,
    line: u32,
    args: &[RawArg],
) -> Result<Statement, AllocError>
    requires right { AreRight tables.now }
    requires format { rules.format_in args.now ≢ None }
    requires values { AreValues tables.now.raw.now (scope_of tables.now) (rules.later_args args.now) }
    ensures { IfOk result (λ s. trees.print_tree tables.now.raw.now (scope_of tables.now) id line args.now ≡ Some s) }
{
    match format_in(args) {
        Some(text) => {
            let format = text.copy(alloc)?;
            let values = args_tree(alloc, tables, later_args(args))?;
            Ok(Statement::Print {
                id,
                line,
                format,
                args: values,
            })
        }
        None => unreachable!(),
    }
}

/// The number of a function that is defined.
pub fn function_of(tables: &Tables<'_>, name: &[u8]) -> FunctionId
    requires right { AreRight tables.now }
    requires defined { IsThere (types.function_id tables.now.raw.now name.now) }
    ensures { types.function_id tables.now.raw.now name.now ≡ Some result }
{
    match tables.defined.function_id(name) {
        Some(id) => id,
        None => unreachable!(),
    }
}

/// A call of a function of the program in the tree. Err: no memory was left.
fn invoke_tree(
    alloc: Global,
    tables: &Tables<'_>,
    id: StatementId,
    line: u32,
    target: Target,
    name: &[u8],
    args: &[RawArg],
) -> Result<Statement, AllocError>
    requires right { AreRight tables.now }
    requires defined { IsThere (types.function_id tables.now.raw.now name.now) }
    requires values { AreValues tables.now.raw.now (scope_of tables.now) args.now }
    ensures { IfOk result (λ s. trees.invoke_tree tables.now.raw.now (scope_of tables.now) id line (Some target) name.now args.now ≡ Some s) }
{
    let function = function_of(tables, name);
    let values = args_tree(alloc, tables, args)?;
    Ok(Statement::Invoke {
        id,
        line,
        target,
        function,
        args: values,
    })
}

/// Whether a function has the name.
fn is_named(function: &[u8], name: &[u8]) -> bool
    ensures { result ≡ bytes_eq function.now name.now }
{
    function == name
}

/// A call in the tree, at the scope of its arguments; those of the library are statements of their own.
/// Err: no memory was left.
pub fn call_tree(
    alloc: Global,
    tables: &Tables<'_>,
    id: StatementId,
    line: u32,
    target: Target,
    function: &[u8],
    args: &[RawArg],
) -> Result<Statement, AllocError>
    requires right { AreRight tables.now }
    requires kept { IsKeptCall tables.now.raw.now (scope_of tables.now) function.now args.now }
    ensures { IfOk result (λ s. trees.call_tree tables.now.raw.now (scope_of tables.now) id line (Some target) function.now args.now ≡ Some s) }
{
    if is_named(function, b"getchar") {
        return Ok(Statement::Fetch { id, line, target });
    }
    if is_named(function, b"putchar") {
        let value = only_tree(alloc, tables, args)?;
        return Ok(Statement::Write { id, line, value });
    }
    if is_named(function, b"printf") {
        return print_tree(alloc, tables, id, line, args);
    }
    if is_named(function, b"free") {
        let value = only_tree(alloc, tables, args)?;
        return Ok(Statement::Release { id, line, value });
    }
    invoke_tree(alloc, tables, id, line, target, function, args)
}
