//! The parts of statements and declarations.
ghost use Rattle.std.specs.Prelude.{◌≡◌, ◌++◌, OnOk};
ghost use Rattle.c_language.specs.Words as words;
ghost use Rattle.c_language.specs.Layout as spec;

use crate::expressions::{expression, joined};
use crate::names::name_of_var;
use crate::types::{declared, type_words};
use c_language::binary_sign;
use c_tree::{Amount, BinaryOp, CType, Expr, Init, Program, Size, Target, Text, VarId};
use std::alloc::AllocError;

/// Appends what a declared object begins with (ISO C99 6.7.8).
#[tactic(auto, using(crate::proofs::Rules::texts_of))]
pub(crate) fn init(out: &mut Text, program: &Program, init: &Init) -> Result<(), AllocError>
    ensures { OnOk result (out.new ≡ out.old ++ spec.init_words program.now init.now) }
{
    match init {
        Init::None => Ok(()),
        Init::One(value) => {
            out.append(b" = ")?;
            expression(out, program, value)
        }
        Init::Items(values) => {
            out.append(b" = {")?;
            joined(out, program, values.as_slice())?;
            out.append(b"}")
        }
    }
}

/// Appends a variable with its type, as it is declared; a number that no variable has gives no
/// bytes.
#[tactic(auto, using(crate::proofs::Rules::texts_of))]
pub(crate) fn variable(out: &mut Text, program: &Program, var: VarId) -> Result<(), AllocError>
    ensures { OnOk result (out.new ≡ out.old ++ spec.var_words program.now var) }
{
    match program.vars.get(var as usize) {
        Some(found) => declared(out, program, &found.shape, found.name.bytes()),
        None => Ok(()),
    }
}

/// Appends where a call's value is stored, and the sign of that assignment.
#[tactic(auto, using(crate::proofs::Rules::texts_of))]
pub(crate) fn target(out: &mut Text, program: &Program, target: &Target) -> Result<(), AllocError>
    ensures { OnOk result (out.new ≡ out.old ++ spec.target_words program.now target.now) }
{
    match target {
        Target::None => Ok(()),
        Target::Place(place) => {
            expression(out, program, place)?;
            out.append(b" = ")
        }
        Target::Declared(var) => {
            variable(out, program, *var)?;
            out.append(b" = ")
        }
    }
}

/// Appends the size of what a variable points to, in parentheses or not.
#[tactic(auto, using(crate::proofs::Rules::texts_of))]
fn pointee(out: &mut Text, program: &Program, var: VarId, closed: bool) -> Result<(), AllocError>
    ensures { OnOk result (out.new ≡ out.old ++ spec.pointee_words program.now var closed) }
{
    if closed {
        out.append(b"sizeof(*")?;
        out.append(name_of_var(program, var))?;
        out.append(b")")
    } else {
        out.append(b"sizeof *")?;
        out.append(name_of_var(program, var))
    }
}

/// Appends a size (ISO C99 6.5.3.4).
#[tactic(auto, using(crate::proofs::Rules::texts_of))]
fn size(out: &mut Text, program: &Program, size: &Size) -> Result<(), AllocError>
    ensures { OnOk result (out.new ≡ out.old ++ spec.size_words program.now size.now) }
{
    match size {
        Size::Type(shape) => {
            out.append(b"sizeof(")?;
            type_words(out, program, shape)?;
            out.append(b")")
        }
        Size::Pointee(var, closed) => pointee(out, program, *var, *closed),
    }
}

/// Appends how much memory an allocation asks for.
#[tactic(auto, using(crate::proofs::Rules::texts_of))]
pub(crate) fn amount(out: &mut Text, program: &Program, amount: &Amount) -> Result<(), AllocError>
    ensures { OnOk result (out.new ≡ out.old ++ spec.amount_words program.now amount.now) }
{
    match amount {
        Amount::Size(unit) => size(out, program, unit),
        Amount::CountSize(count, unit) => {
            expression(out, program, count)?;
            out.append(b" * ")?;
            size(out, program, unit)
        }
        Amount::SizeCount(unit, count) => {
            size(out, program, unit)?;
            out.append(b" * ")?;
            expression(out, program, count)
        }
        Amount::Count(count) => expression(out, program, count),
    }
}

/// Appends the type that an allocation is cast to, in parentheses.
#[tactic(auto, using(crate::proofs::Rules::texts_of))]
pub(crate) fn pointer_cast(
    out: &mut Text,
    program: &Program,
    cast: &Option<CType>,
) -> Result<(), AllocError>
    ensures { OnOk result (out.new ≡ out.old ++ spec.cast_words program.now cast.now) }
{
    match cast {
        None => Ok(()),
        Some(shape) => {
            out.append(b"(")?;
            type_words(out, program, shape)?;
            out.append(b")")
        }
    }
}

/// Appends the operator of an assignment, `=` or a compound one (ISO C99 6.5.16).
#[tactic(auto, using(crate::proofs::Rules::texts_of))]
pub(crate) fn assign_sign(out: &mut Text, op: Option<BinaryOp>) -> Result<(), AllocError>
    ensures { OnOk result (out.new ≡ out.old ++ words.assign_sign op) }
{
    if let Some(op) = op {
        out.append(binary_sign(op))?;
    }
    out.append(b"=")
}

/// Appends a place with `++` or `--` before it or behind it.
#[tactic(auto, using(crate::proofs::Rules::texts_of))]
pub(crate) fn bump(
    out: &mut Text,
    program: &Program,
    place: &Expr,
    up: bool,
    before: bool,
) -> Result<(), AllocError>
    ensures { OnOk result (out.new ≡ out.old ++ spec.bump_words (words.expr_words program.now place.now) up before) }
{
    let sign = bump_sign(up);
    if before {
        out.append(sign)?;
        expression(out, program, place)
    } else {
        expression(out, program, place)?;
        out.append(sign)
    }
}

/// `++` or else `--` (ISO C99 6.5.2.4, 6.5.3.1).
fn bump_sign(up: bool) -> &'static [u8]
    ensures { result.now ≡ words.bump_sign up }
{
    if up { b"++" } else { b"--" }
}

/// Appends a return with its value, if it has one (ISO C99 6.8.6.4).
#[tactic(auto, using(crate::proofs::Rules::texts_of))]
pub(crate) fn returned(
    out: &mut Text,
    program: &Program,
    value: &Option<Expr>,
) -> Result<(), AllocError>
    ensures { OnOk result (out.new ≡ out.old ++ spec.return_words program.now value.now) }
{
    match value {
        None => out.append(b"return"),
        Some(value) => {
            out.append(b"return ")?;
            expression(out, program, value)
        }
    }
}
