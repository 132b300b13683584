//! The words of a text's expressions, in the layout.
ghost use Rattle.std.specs.Prelude.{◌≡◌, ◌++◌, IfOk, OnOk, codes};
ghost use Rattle.c_language.specs.ProgramOf.{raw_words};
ghost use Rattle.c_language.specs.Words as spec;

use c_arith::{BinaryOp, IntType, UnaryOp};
use c_language::{binary_sign, int_words};
use c_tree::{RawExpr, Text};
use std::alloc::{AllocError, Global};

fn begins_with(byte: u8, words: &[u8]) -> bool
    ensures { result ≡ spec.begins_with byte words.now }
{
    match words.first() {
        Some(first) => *first == byte,
        None => false,
    }
}

/// What stands before the words of an operand: its sign, apart where the two would make `++` or `--`.
fn sign_before(op: UnaryOp, words: &[u8]) -> &'static [u8]
    ensures { result.now ++ words.now ≡ spec.signed op words.now }
{
    match op {
        UnaryOp::Plus => {
            if begins_with(b'+', words) {
                b"+ "
            } else {
                b"+"
            }
        }
        UnaryOp::Minus => {
            if begins_with(b'-', words) {
                b"- "
            } else {
                b"-"
            }
        }
        UnaryOp::Flip => b"~",
        UnaryOp::Not => b"!",
    }
}

/// Appends a sign and the words of its operand.
fn signed(out: &mut Text, op: UnaryOp, words: &Text) -> Result<(), AllocError>
    ensures { OnOk result (out.new ≡ out.old ++ spec.signed op words.now) }
{
    out.append(sign_before(op, words.bytes()))?;
    out.append(words.bytes())
}

/// The words of an expression. Err: no memory was left.
#[cycle(words)]
pub fn words(alloc: Global, expr: &RawExpr) -> Result<Text, AllocError>
    ensures { IfOk result (λ text. text ≡ raw_words expr.now) }
{
    let mut out = Text::new(alloc);
    append(alloc, &mut out, expr)?;
    Ok(out)
}

/// Appends what opens an expression, the expression, and what closes it.
#[cycle(words)]
#[tactic(auto, using(crate::proofs::Rulesets::words))]
fn enclosed(
    alloc: Global,
    out: &mut Text,
    opening: &[u8],
    inner: &RawExpr,
    closing: &[u8],
) -> Result<(), AllocError>
    ensures { OnOk result (out.new ≡ out.old ++ (opening.now ++ (raw_words inner.now ++ closing.now))) }
{
    out.append(opening)?;
    append(alloc, out, inner)?;
    out.append(closing)
}

/// Appends a sign, as it is given, and an expression.
#[cycle(words)]
#[tactic(auto, using(crate::proofs::Rulesets::words))]
fn prefixed(alloc: Global, out: &mut Text, sign: &[u8], operand: &RawExpr) -> Result<(), AllocError>
    ensures { OnOk result (out.new ≡ out.old ++ (sign.now ++ raw_words operand.now)) }
{
    out.append(sign)?;
    append(alloc, out, operand)
}

/// Appends an operator with a space on both sides, and its right operand.
#[cycle(words)]
#[tactic(auto, using(crate::proofs::Rulesets::words))]
fn operated(alloc: Global, out: &mut Text, op: BinaryOp, right: &RawExpr) -> Result<(), AllocError>
    ensures { OnOk result (out.new ≡ out.old ++ (codes " " ++ (spec.binary_sign op ++ (codes " " ++ raw_words right.now)))) }
{
    out.append(b" ")?;
    out.append(binary_sign(op))?;
    out.append(b" ")?;
    append(alloc, out, right)
}

/// Appends a cast and its operand (6.5.4).
#[cycle(words)]
#[tactic(auto, using(crate::proofs::Rulesets::words))]
fn cast(alloc: Global, out: &mut Text, to: IntType, operand: &RawExpr) -> Result<(), AllocError>
    ensures { OnOk result (out.new ≡ out.old ++ (codes "(" ++ (spec.int_words to ++ (codes ")" ++ raw_words operand.now)))) }
{
    out.append(b"(")?;
    out.append(int_words(to))?;
    out.append(b")")?;
    append(alloc, out, operand)
}

/// Appends a struct, a sign and the name of its member (6.5.2.3).
#[cycle(words)]
#[tactic(auto, using(crate::proofs::Rulesets::words))]
fn selected(
    alloc: Global,
    out: &mut Text,
    object: &RawExpr,
    sign: &[u8],
    member: &[u8],
) -> Result<(), AllocError>
    ensures { OnOk result (out.new ≡ out.old ++ (raw_words object.now ++ (sign.now ++ member.now))) }
{
    append(alloc, out, object)?;
    out.append(sign)?;
    out.append(member)
}

/// Appends the words of an expression.
#[cycle(words)]
#[tactic(auto, using(crate::proofs::Rulesets::words))]
fn append(alloc: Global, out: &mut Text, expr: &RawExpr) -> Result<(), AllocError>
    ensures { OnOk result (out.new ≡ out.old ++ raw_words expr.now) }
{
    match expr {
        RawExpr::Constant(text) => out.append(text.bytes()),
        RawExpr::Null => out.append(b"NULL"),
        RawExpr::Eof => out.append(b"EOF"),
        RawExpr::Variable(name) => out.append(name.bytes()),
        RawExpr::Unary(op, operand) => signed(out, *op, &words(alloc, operand.get())?),
        RawExpr::Deref(operand) => prefixed(alloc, out, b"*", operand.get()),
        RawExpr::AddressOf(operand) => prefixed(alloc, out, b"&", operand.get()),
        RawExpr::Binary(op, left, right) => {
            append(alloc, out, left.get())?;
            operated(alloc, out, *op, right.get())
        }
        RawExpr::AndAlso(left, right) => {
            append(alloc, out, left.get())?;
            prefixed(alloc, out, b" && ", right.get())
        }
        RawExpr::OrElse(left, right) => {
            append(alloc, out, left.get())?;
            prefixed(alloc, out, b" || ", right.get())
        }
        RawExpr::Choose(test, held, otherwise) => {
            append(alloc, out, test.get())?;
            prefixed(alloc, out, b" ? ", held.get())?;
            prefixed(alloc, out, b" : ", otherwise.get())
        }
        RawExpr::Cast(to, operand) => cast(alloc, out, *to, operand.get()),
        RawExpr::Index(array, index) => {
            append(alloc, out, array.get())?;
            enclosed(alloc, out, b"[", index.get(), b"]")
        }
        RawExpr::Member(object, name) => selected(alloc, out, object.get(), b".", name.bytes()),
        RawExpr::Arrow(object, name) => selected(alloc, out, object.get(), b"->", name.bytes()),
        RawExpr::Paren(inner) => enclosed(alloc, out, b"(", inner.get(), b")"),
    }
}
