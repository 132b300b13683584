//! The variables that words of a program name, marked in a list of tests by one walk down an
//! expression or a part of a statement.
#![tactic(auto)]

ghost use Rattle.std.specs.Prelude.{◌==◌, OnOk};
ghost use Rattle.c_language.specs.Names as spec;
ghost use Rattle.named_variables.specs.Marks.{Adds};

use c_tree::{Amount, Expr, Init, Size, Target, VarId};
use std::alloc::AllocError;

/// Marks a variable: the list of tests, one for each number of a variable, grows where it must. Err: no
/// memory was left, and nothing is marked.
pub fn mark(used: &mut Vec<bool>, var: VarId) -> Result<(), AllocError>
    ensures { OnOk result (Adds used.old.items used.new.items (λ x. var == x)) }
{
    let at = var as usize;
    if used.len() <= at {
        used.resize(at + 1, false)?;
    }
    used[at] = true;
    Ok(())
}

/// Marks the variables that an expression names. Err: no memory was left, and some of them may be marked.
pub fn mark_names(used: &mut Vec<bool>, e: &Expr) -> Result<(), AllocError>
    ensures { OnOk result (Adds used.old.items used.new.items (spec.names e.now)) }
{
    match e {
        Expr::Constant(_, _, _) => Ok(()),
        Expr::Null => Ok(()),
        Expr::Eof => Ok(()),
        Expr::Variable(x) => {
            mark(used, *x)?;
            Ok(())
        }
        Expr::Unary(_, a)
        | Expr::Deref(a)
        | Expr::AddressOf(a)
        | Expr::Cast(_, a)
        | Expr::Member(a, _)
        | Expr::Arrow(a, _)
        | Expr::Paren(a) => {
            mark_names(used, a.get())?;
            Ok(())
        }
        Expr::Binary(_, a, b) | Expr::AndAlso(a, b) | Expr::OrElse(a, b) | Expr::Index(a, b) => {
            mark_names(used, a.get())?;
            mark_names(used, b.get())?;
            Ok(())
        }
        Expr::Choose(c, a, b) => {
            mark_names(used, c.get())?;
            mark_names(used, a.get())?;
            mark_names(used, b.get())?;
            Ok(())
        }
    }
}

/// Marks the variables that one of some expressions names. Err: as for an expression.
pub fn mark_all(used: &mut Vec<bool>, list: &[Expr]) -> Result<(), AllocError>
    ensures { OnOk result (Adds used.old.items used.new.items (spec.any_names list.now)) }
{
    for e in list {
        mark_names(used, e)?;
    }
    Ok(())
}

/// Marks the variables that an initialiser names. Err: as for an expression.
pub fn mark_init(used: &mut Vec<bool>, init: &Init) -> Result<(), AllocError>
    ensures { OnOk result (Adds used.old.items used.new.items (spec.init_names init.now)) }
{
    match init {
        Init::None => Ok(()),
        Init::One(value) => {
            mark_names(used, value)?;
            Ok(())
        }
        Init::Items(values) => {
            mark_all(used, values.as_slice())?;
            Ok(())
        }
    }
}

/// Marks the variables that are named where a result goes to. Err: as for an expression.
pub fn mark_target(used: &mut Vec<bool>, to: &Target) -> Result<(), AllocError>
    ensures { OnOk result (Adds used.old.items used.new.items (spec.target_names to.now)) }
{
    match to {
        Target::None => Ok(()),
        Target::Place(place) => {
            mark_names(used, place)?;
            Ok(())
        }
        Target::Declared(var) => {
            mark(used, *var)?;
            Ok(())
        }
    }
}

// Marks the variable of a `sizeof *x`.
fn mark_size(used: &mut Vec<bool>, size: &Size) -> Result<(), AllocError>
    ensures { OnOk result (Adds used.old.items used.new.items (spec.size_names size.now)) }
{
    match size {
        Size::Type(_) => Ok(()),
        Size::Pointee(var, _) => {
            mark(used, *var)?;
            Ok(())
        }
    }
}

/// Marks the variables that the size of an allocation names. Err: as for an expression.
pub fn mark_amount(used: &mut Vec<bool>, amount: &Amount) -> Result<(), AllocError>
    ensures { OnOk result (Adds used.old.items used.new.items (spec.amount_names amount.now)) }
{
    match amount {
        Amount::Size(size) => {
            mark_size(used, size)?;
            Ok(())
        }
        Amount::CountSize(count, size) => {
            mark_names(used, count)?;
            mark_size(used, size)?;
            Ok(())
        }
        Amount::SizeCount(size, count) => {
            mark_size(used, size)?;
            mark_names(used, count)?;
            Ok(())
        }
        Amount::Count(count) => {
            mark_names(used, count)?;
            Ok(())
        }
    }
}

/// Marks the variables that the value of a return names, where it has one. Err: as for an expression.
pub fn mark_value(used: &mut Vec<bool>, value: &Option<Expr>) -> Result<(), AllocError>
    ensures { OnOk result (Adds used.old.items used.new.items (spec.value_names value.now)) }
{
    match value {
        None => Ok(()),
        Some(e) => {
            mark_names(used, e)?;
            Ok(())
        }
    }
}
