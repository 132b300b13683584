//! Expressions, with the parentheses and spellings of the text.
ghost use Rattle.std.specs.Prelude.{◌≡◌, ◌++◌, OnOk, codes, map, slice_get};
ghost use Rattle.c_language.specs.Words as spec;
ghost use Rattle.c_language.specs.Words.{expr_words};
ghost use Rattle.c_print.specs.Signs as signs;
ghost use Rattle.c_print.specs.Lists.{behind_commas};

use crate::names::{name_of_member, name_of_var};
use c_language::{binary_sign, int_words, unary_sign};
use c_tree::{BinaryOp, Expr, IntType, MemberId, Program, Text, UnaryOp};
use std::alloc::AllocError;

/// The first byte of a written expression.
#[tactic(auto, using(crate::proofs::Rules::first_bytes))]
fn first_byte(program: &Program, expr: &Expr) -> Option<u8>
    ensures { result ≡ slice_get (expr_words program.now expr.now) 0 }
{
    match expr {
        Expr::Constant(spelling, _, _) => spelling.bytes().first().copied(),
        Expr::Null => Some(b'N'),
        Expr::Eof => Some(b'E'),
        Expr::Variable(var) => name_of_var(program, *var).first().copied(),
        Expr::Unary(op, _) => unary_sign(*op).first().copied(),
        Expr::Deref(_) => Some(b'*'),
        Expr::AddressOf(_) => Some(b'&'),
        Expr::Cast(_, _) | Expr::Paren(_) => Some(b'('),
        Expr::Binary(_, left, _)
        | Expr::AndAlso(left, _)
        | Expr::OrElse(left, _)
        | Expr::Choose(left, _, _) => first_byte(program, left.get()).or(Some(b' ')),
        Expr::Index(array, _) => first_byte(program, array.get()).or(Some(b'[')),
        Expr::Member(object, _) => first_byte(program, object.get()).or(Some(b'.')),
        Expr::Arrow(object, _) => first_byte(program, object.get()).or(Some(b'-')),
    }
}

/// Whether a written expression begins with this byte.
#[tactic(auto, using(crate::proofs::Rules::signs_of))]
fn begins_with(program: &Program, expr: &Expr, byte: u8) -> bool
    ensures { result ≡ spec.begins_with byte (expr_words program.now expr.now) }
{
    match first_byte(program, expr) {
        Some(first) => first == byte,
        None => false,
    }
}

/// Whether a sign and its operand would make `++` or `--`.
fn joins(program: &Program, op: UnaryOp, operand: &Expr) -> bool
    ensures { result ≡ signs.joins op (expr_words program.now operand.now) }
{
    match op {
        UnaryOp::Plus => begins_with(program, operand, b'+'),
        UnaryOp::Minus => begins_with(program, operand, b'-'),
        UnaryOp::Flip | UnaryOp::Not => false,
    }
}

/// Appends a sign and its operand, apart where they would make `++` or `--`.
#[cycle(expression)]
#[tactic(auto, using(crate::proofs::Rules::expressions_of))]
fn signed(out: &mut Text, program: &Program, op: UnaryOp, operand: &Expr) -> Result<(), AllocError>
    ensures { OnOk result (out.new ≡ out.old ++ spec.signed op (expr_words program.now operand.now)) }
{
    out.append(unary_sign(op))?;
    if joins(program, op, operand) {
        out.append(b" ")?;
    }
    expression(out, program, operand)
}

/// Appends a sign, as it is given, and its operand.
#[cycle(expression)]
#[tactic(auto, using(crate::proofs::Rules::expressions_of))]
fn prefixed(
    out: &mut Text,
    program: &Program,
    sign: &[u8],
    operand: &Expr,
) -> Result<(), AllocError>
    ensures { OnOk result (out.new ≡ out.old ++ (sign.now ++ expr_words program.now operand.now)) }
{
    out.append(sign)?;
    expression(out, program, operand)
}

/// Appends an operator with a space on both sides, and its right operand.
#[cycle(expression)]
#[tactic(auto, using(crate::proofs::Rules::expressions_of))]
fn operated(out: &mut Text, program: &Program, op: BinaryOp, right: &Expr) -> Result<(), AllocError>
    ensures { OnOk result (out.new ≡ out.old ++ (codes " " ++ (spec.binary_sign op ++ (codes " " ++ expr_words program.now right.now)))) }
{
    out.append(b" ")?;
    out.append(binary_sign(op))?;
    out.append(b" ")?;
    expression(out, program, right)
}

/// Appends an expression between what opens and closes it.
#[cycle(expression)]
#[tactic(auto, using(crate::proofs::Rules::expressions_of))]
pub(crate) fn enclosed(
    out: &mut Text,
    program: &Program,
    opening: &[u8],
    inner: &Expr,
    closing: &[u8],
) -> Result<(), AllocError>
    ensures { OnOk result (out.new ≡ out.old ++ (opening.now ++ (expr_words program.now inner.now ++ closing.now))) }
{
    out.append(opening)?;
    expression(out, program, inner)?;
    out.append(closing)
}

/// Appends a cast and its operand (ISO C99 6.5.4).
#[cycle(expression)]
#[tactic(auto, using(crate::proofs::Rules::expressions_of))]
fn cast(out: &mut Text, program: &Program, to: IntType, operand: &Expr) -> Result<(), AllocError>
    ensures { OnOk result (out.new ≡ out.old ++ (codes "(" ++ (spec.int_words to ++ (codes ")" ++ expr_words program.now operand.now)))) }
{
    out.append(b"(")?;
    out.append(int_words(to))?;
    out.append(b")")?;
    expression(out, program, operand)
}

/// Appends a struct, a sign and the name of its member (ISO C99 6.5.2.3).
#[cycle(expression)]
#[tactic(auto, using(crate::proofs::Rules::expressions_of))]
fn selected(
    out: &mut Text,
    program: &Program,
    object: &Expr,
    sign: &[u8],
    member: MemberId,
) -> Result<(), AllocError>
    ensures { OnOk result (out.new ≡ out.old ++ (expr_words program.now object.now ++ (sign.now ++ spec.name_of_member program.now member))) }
{
    expression(out, program, object)?;
    out.append(sign)?;
    out.append(name_of_member(program, member))
}

/// Appends an expression, as it is written.
#[cycle(expression)]
#[tactic(auto, using(crate::proofs::Rules::expressions_of))]
pub(crate) fn expression(out: &mut Text, program: &Program, expr: &Expr) -> Result<(), AllocError>
    ensures { OnOk result (out.new ≡ out.old ++ expr_words program.now expr.now) }
{
    match expr {
        Expr::Constant(spelling, _, _) => out.append(spelling.bytes()),
        Expr::Null => out.append(b"NULL"),
        Expr::Eof => out.append(b"EOF"),
        Expr::Variable(var) => out.append(name_of_var(program, *var)),
        Expr::Unary(op, operand) => signed(out, program, *op, operand.get()),
        Expr::Deref(operand) => prefixed(out, program, b"*", operand.get()),
        Expr::AddressOf(operand) => prefixed(out, program, b"&", operand.get()),
        Expr::Binary(op, left, right) => {
            expression(out, program, left.get())?;
            operated(out, program, *op, right.get())
        }
        Expr::AndAlso(left, right) => {
            expression(out, program, left.get())?;
            prefixed(out, program, b" && ", right.get())
        }
        Expr::OrElse(left, right) => {
            expression(out, program, left.get())?;
            prefixed(out, program, b" || ", right.get())
        }
        Expr::Choose(test, held, otherwise) => {
            expression(out, program, test.get())?;
            prefixed(out, program, b" ? ", held.get())?;
            prefixed(out, program, b" : ", otherwise.get())
        }
        Expr::Cast(to, operand) => cast(out, program, *to, operand.get()),
        Expr::Index(array, index) => {
            expression(out, program, array.get())?;
            enclosed(out, program, b"[", index.get(), b"]")
        }
        Expr::Member(object, member) => selected(out, program, object.get(), b".", *member),
        Expr::Arrow(object, member) => selected(out, program, object.get(), b"->", *member),
        Expr::Paren(inner) => enclosed(out, program, b"(", inner.get(), b")"),
    }
}

/// Appends expressions, each behind a comma.
#[tactic(auto, using(crate::proofs::Rules::lists_of))]
pub(crate) fn behind_commas(
    out: &mut Text,
    program: &Program,
    all: &[Expr],
) -> Result<(), AllocError>
    ensures { OnOk result (out.new ≡ out.old ++ behind_commas (map (expr_words program.now) all.now)) }
{
    for child in all {
        out.append(b", ")?;
        expression(out, program, child)?;
    }
    Ok(())
}

/// Appends expressions with commas between them.
#[tactic(auto, using(crate::proofs::Rules::lists_of))]
pub(crate) fn joined(out: &mut Text, program: &Program, all: &[Expr]) -> Result<(), AllocError>
    ensures { OnOk result (out.new ≡ out.old ++ spec.joined (codes ", ") (map (expr_words program.now) all.now)) }
{
    let Some((first, rest)) = all.split_first() else {
        return Ok(());
    };
    expression(out, program, first)?;
    behind_commas(out, program, rest)
}
