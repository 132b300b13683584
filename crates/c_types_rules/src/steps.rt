//! The walk along phrases that hold no statements: the check of each, the variable that is declared, the statement that is numbered.
ghost use Rattle.std.specs.Prelude.{◌≡◌, ◌+◌, None, IsSome, OnOk};
ghost use Rattle.c_language.specs.DeclaredTypes as types;
ghost use Rattle.c_language.specs.Phrases as phrases;
ghost use Rattle.c_language.specs.Scopes as scopes;
ghost use Rattle.c_types_base.specs.Tables.{scope_of, AreRight, IsAt};
ghost use Rattle.c_types_checks.specs.Checking.{Decides};
ghost use Rattle.c_types_checks.specs.PhraseChecks.{check_part};
ghost use Rattle.c_types_checks.specs.Stands.{stand_of};
ghost use Rattle.c_types_base.specs.Stretches.{then_comes, a_statement, of_declaration, of_target, of_form};
ghost use Rattle.c_types_rules.specs.Walks as spec;
ghost use Rattle.c_types_rules.specs.Walks.{AnswersOf, Walks};
ghost use Rattle.c_tree.specs.declared.raw.statement.RawStatement.TheOpen.{RawStatement-F};

use crate::walk_fault::WalkFault;
use c_arith::BinaryOp;
use c_tree::{RawAmount, RawArg, RawExpr, RawInit, RawTarget, RawType, RawTypeName, RawVar};
use c_types_base::declared_types::{item_count, type_with};
use c_types_base::fault::Fault;
use c_types_base::tables::Tables;
use c_types_checks::allocation_checks::check_allocation;
use c_types_checks::call_checks::check_call;
use c_types_checks::checking::{check_assignment, check_bump, check_test};
use c_types_checks::declaration_checks::check_declared;
use c_types_checks::initialiser_checks::check_begun;
use c_types_checks::return_checks::check_return;
use c_types_checks::stand::Stand;
use std::alloc::{AllocError, Global};

/// What is told where the check of a phrase on a line answers so.
///
/// Err: the rule that the check tells, at the line; or no memory was left.
pub fn on_line(line: u32, verdict: Result<(), Fault>) -> Result<(), WalkFault>
    ensures { result ≡ spec.on_line line verdict }
{
    match verdict {
        Ok(()) => Ok(()),
        Err(Fault::Rule(number)) => Err(WalkFault::Rule(number, line)),
        Err(Fault::NoMemory) => Err(WalkFault::NoMemory),
    }
}

/// Numbers a statement, where its check answers so.
///
/// Err: the first broken rule and its line; or no memory, or no number, was left.
pub fn number_on(
    tables: &mut Tables<'_>,
    line: u32,
    verdict: Result<(), Fault>,
) -> Result<(), WalkFault>
    requires { AreRight tables.old }
    ensures { (part : phrases.Part) → Decides (check_part tables.old.raw.now (scope_of tables.old) part) verdict → Walks (a_statement line part) tables.old tables.new result }
{
    on_line(line, verdict)?;
    tables.number()?;
    Ok(())
}

/// Declares a variable that has a type, where so many items are listed. Err: no memory was left.
pub fn declare<'a>(
    alloc: Global,
    tables: &mut Tables<'a>,
    name: &'a [u8],
    items: usize,
    shape: &RawType,
) -> Result<(), AllocError>
    requires right { AreRight tables.old }
    requires typed { IsSome (types.type_with tables.old.raw.now items shape.now) }
    requires fresh { scopes.meaning_in (scope_of tables.old) name.now ≡ None }
    ensures { OnOk result (IsAt tables.old tables.new (scopes.with_entry name.now (scopes.Meaning.Variable tables.old.variables (types.type_with tables.old.raw.now items shape.now)) (record (scope_of tables.old) { variables = tables.old.variables + 1 }))) }
{
    let shape = type_with(alloc, &tables.defined, items, shape)?.unwrap();
    tables.declare(name, shape)
}

/// The initialiser of a variable that is declared.
fn begin(
    alloc: Global,
    tables: &Tables<'_>,
    line: u32,
    stand: Stand,
    var: &RawVar,
    init: &RawInit,
) -> Result<(), WalkFault>
    requires { AreRight tables.now }
    ensures { AnswersOf tables.now.raw.now (phrases.begun_phrases line (scope_of tables.now) (stand_of stand) var.now init.now) result }
{
    match init {
        RawInit::None => Ok(()),
        RawInit::One(_) => on_line(line, check_begun(alloc, tables, stand, var, init)),
        RawInit::Items(_) => on_line(line, check_begun(alloc, tables, stand, var, init)),
    }
}

/// A declaration of a variable.
///
/// Err: the first broken rule and its line; or no memory, or no number, was left.
pub fn declaration<'a>(
    alloc: Global,
    tables: &mut Tables<'a>,
    line: u32,
    stand: Stand,
    var: &'a RawVar,
    init: &RawInit,
) -> Result<(), WalkFault>
    requires { AreRight tables.old }
    ensures { Walks (of_declaration line (stand_of stand) var.now init.now) tables.old tables.new result }
{
    on_line(line, check_declared(alloc, tables, stand, var, init))?;
    declare(
        alloc,
        tables,
        var.name.bytes(),
        item_count(init),
        &var.shape,
    )?;
    begin(alloc, tables, line, stand, var, init)
}

/// Numbers a declaration that has an initialiser. Err: there is no number.
fn number_begun(tables: &mut Tables<'_>, init: &RawInit) -> Result<(), AllocError>
    ensures { OnOk result (IsAt tables.old tables.new (scopes.begun init.now (scope_of tables.old))) }
{
    match init {
        RawInit::None => Ok(()),
        RawInit::One(_) => {
            tables.number()?;
            Ok(())
        }
        RawInit::Items(_) => {
            tables.number()?;
            Ok(())
        }
    }
}

/// A declaration among statements.
///
/// Err: the first broken rule and its line; or no memory, or no number, was left.
pub fn declared<'a>(
    alloc: Global,
    tables: &mut Tables<'a>,
    line: u32,
    stand: Stand,
    var: &'a RawVar,
    init: &RawInit,
) -> Result<(), WalkFault>
    requires { AreRight tables.old }
    ensures { Walks (of_form (stand_of stand) (λ raw. RawStatement-F.Declare line var.now init.now)) tables.old tables.new result }
{
    declaration(alloc, tables, line, stand, var, init)?;
    number_begun(tables, init)?;
    Ok(())
}

/// An assignment.
///
/// Err: the first broken rule and its line; or no memory, or no number, was left.
pub fn assigned(
    alloc: Global,
    tables: &mut Tables<'_>,
    line: u32,
    left: &RawExpr,
    op: Option<BinaryOp>,
    right: &RawExpr,
) -> Result<(), WalkFault>
    requires { AreRight tables.old }
    ensures { Walks (a_statement line (phrases.Assigns left.now op right.now)) tables.old tables.new result }
{
    let verdict = check_assignment(alloc, tables, left, op, right);
    number_on(tables, line, verdict)
}

/// `++` or `--`.
///
/// Err: the first broken rule and its line; or no memory, or no number, was left.
pub fn bumped(
    alloc: Global,
    tables: &mut Tables<'_>,
    line: u32,
    left: &RawExpr,
) -> Result<(), WalkFault>
    requires { AreRight tables.old }
    ensures { Walks (a_statement line (phrases.Bumps left.now)) tables.old tables.new result }
{
    let verdict = check_bump(alloc, tables, left);
    number_on(tables, line, verdict)
}

/// The test of an if, a while or a do.
///
/// Err: the first broken rule and its line; or no memory, or no number, was left.
pub fn tested(
    alloc: Global,
    tables: &mut Tables<'_>,
    line: u32,
    test: &RawExpr,
) -> Result<(), WalkFault>
    requires { AreRight tables.old }
    ensures { Walks (a_statement line (phrases.Tests test.now)) tables.old tables.new result }
{
    let verdict = check_test(alloc, tables, test);
    number_on(tables, line, verdict)
}

/// A return.
///
/// Err: the first broken rule and its line; or no memory, or no number, was left.
pub fn returned(
    alloc: Global,
    tables: &mut Tables<'_>,
    line: u32,
    value: &Option<RawExpr>,
) -> Result<(), WalkFault>
    requires { AreRight tables.old }
    ensures { Walks (a_statement line (phrases.Returns value.now)) tables.old tables.new result }
{
    let verdict = check_return(alloc, tables, value);
    number_on(tables, line, verdict)
}

/// The target of a call.
fn target<'a>(
    alloc: Global,
    tables: &mut Tables<'a>,
    line: u32,
    stand: Stand,
    to: &'a RawTarget,
) -> Result<(), WalkFault>
    requires { AreRight tables.old }
    ensures { Walks (of_target line (stand_of stand) to.now) tables.old tables.new result }
{
    match to {
        RawTarget::None => Ok(()),
        RawTarget::Place(_) => Ok(()),
        RawTarget::Declared(var) => {
            let none = RawInit::None;
            declaration(alloc, tables, line, stand, var, &none)
        }
    }
}

/// A call of a function by its name.
///
/// Err: the first broken rule and its line; or no memory, or no number, was left.
pub fn call<'a>(
    alloc: Global,
    tables: &mut Tables<'a>,
    line: u32,
    stand: Stand,
    to: &'a RawTarget,
    function: &[u8],
    args: &[RawArg],
) -> Result<(), WalkFault>
    requires { AreRight tables.old }
    ensures { Walks (then_comes (of_target line (stand_of stand) to.now) (a_statement line (phrases.Calls (stand_of stand) to.now function.now args.now))) tables.old tables.new result }
{
    target(alloc, tables, line, stand, to)?;
    let verdict = check_call(alloc, tables, stand, to, function, args);
    number_on(tables, line, verdict)
}

/// A call of `malloc`.
///
/// Err: the first broken rule and its line; or no memory, or no number, was left.
pub fn heap<'a>(
    alloc: Global,
    tables: &mut Tables<'a>,
    line: u32,
    stand: Stand,
    to: &'a RawTarget,
    cast: &Option<RawTypeName>,
    amount: &RawAmount,
) -> Result<(), WalkFault>
    requires { AreRight tables.old }
    ensures { Walks (then_comes (of_target line (stand_of stand) to.now) (a_statement line (phrases.Allocates to.now cast.now amount.now))) tables.old tables.new result }
{
    target(alloc, tables, line, stand, to)?;
    let verdict = check_allocation(alloc, tables, to, cast, amount);
    number_on(tables, line, verdict)
}
