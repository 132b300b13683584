//! The operators and other marks by which an expression begins or goes on, and how tightly each binds.
ghost use Rattle.std.specs.Prelude.{◌≡◌, ◌≤◌};
ghost use Rattle.c_language.specs.ExprGrammar as grammar;
ghost use Rattle.c_parse_expr.specs.ExprReading as spec;

use crate::cursor::Cursor;
use c_language::{Infix, Prefix, Selector, TokenKind};
use c_tree::{BinaryOp, UnaryOp};

/// What goes on with an expression.
#[derive(Clone, Copy, Debug, PartialEq, Eq)]
pub enum Extension {
    /// An operator, with its right operand behind it.
    Operator(Infix),
    /// `?`
    Question,
    /// `[`
    Bracket,
    /// `.` or `->`, with a member behind it.
    Select(Selector),
}

#[tactic(auto, unfolding(crate::specs::ExprReading::logical))]
fn logical(mark: &[u8]) -> Option<Infix>
    ensures { result ≡ spec.logical mark.now }
{
    if mark == b"||".as_slice() {
        Some(Infix::OrElse)
    } else if mark == b"&&".as_slice() {
        Some(Infix::AndAlso)
    } else if mark == b"|".as_slice() {
        Some(Infix::Strict(BinaryOp::Or))
    } else if mark == b"^".as_slice() {
        Some(Infix::Strict(BinaryOp::Xor))
    } else if mark == b"&".as_slice() {
        Some(Infix::Strict(BinaryOp::And))
    } else {
        None
    }
}

#[tactic(auto, unfolding(crate::specs::ExprReading::comparison))]
fn comparison(mark: &[u8]) -> Option<Infix>
    ensures { result ≡ spec.comparison mark.now }
{
    if mark == b"==".as_slice() {
        Some(Infix::Strict(BinaryOp::Equal))
    } else if mark == b"!=".as_slice() {
        Some(Infix::Strict(BinaryOp::Unequal))
    } else if mark == b"<".as_slice() {
        Some(Infix::Strict(BinaryOp::Less))
    } else if mark == b">".as_slice() {
        Some(Infix::Strict(BinaryOp::Greater))
    } else if mark == b"<=".as_slice() {
        Some(Infix::Strict(BinaryOp::AtMost))
    } else if mark == b">=".as_slice() {
        Some(Infix::Strict(BinaryOp::AtLeast))
    } else {
        None
    }
}

#[tactic(auto, unfolding(crate::specs::ExprReading::arithmetic))]
fn arithmetic(mark: &[u8]) -> Option<Infix>
    ensures { result ≡ spec.arithmetic mark.now }
{
    if mark == b"<<".as_slice() {
        Some(Infix::Strict(BinaryOp::Shl))
    } else if mark == b">>".as_slice() {
        Some(Infix::Strict(BinaryOp::Shr))
    } else if mark == b"+".as_slice() {
        Some(Infix::Strict(BinaryOp::Add))
    } else if mark == b"-".as_slice() {
        Some(Infix::Strict(BinaryOp::Sub))
    } else if mark == b"*".as_slice() {
        Some(Infix::Strict(BinaryOp::Mul))
    } else if mark == b"/".as_slice() {
        Some(Infix::Strict(BinaryOp::Div))
    } else if mark == b"%".as_slice() {
        Some(Infix::Strict(BinaryOp::Rem))
    } else {
        None
    }
}

/// The operator between two operands that is written so.
#[tactic(auto, unfolding(crate::specs::ExprReading::infix_by))]
fn infix_by(mark: &[u8]) -> Option<Infix>
    ensures { result ≡ spec.infix_by mark.now }
{
    if let Some(op) = logical(mark) {
        return Some(op);
    }
    if let Some(op) = comparison(mark) {
        return Some(op);
    }
    arithmetic(mark)
}

#[tactic(auto, unfolding(crate::specs::ExprReading::extension_by))]
fn extension_by(mark: &[u8]) -> Option<Extension>
    ensures { result ≡ spec.extension_by mark.now }
{
    if mark == b"[".as_slice() {
        return Some(Extension::Bracket);
    }
    if mark == b".".as_slice() {
        return Some(Extension::Select(Selector::Dot));
    }
    if mark == b"->".as_slice() {
        return Some(Extension::Select(Selector::Arrow));
    }
    if mark == b"?".as_slice() {
        return Some(Extension::Question);
    }
    match infix_by(mark) {
        Some(op) => Some(Extension::Operator(op)),
        None => None,
    }
}

/// Whether a `*` and the word `sizeof` stand here.
#[tactic(auto, unfolding(crate::specs::ExprReading::multiplies_size))]
pub fn multiplies_size(tokens: &Cursor<'_>) -> bool
    ensures { result ≡ spec.multiplies_size tokens.now }
{
    tokens.sees(TokenKind::Mark, b"*") && tokens.sees_second(TokenKind::Name, b"sizeof")
}

/// What goes on with an expression in front of these tokens; a `*` before a size does not.
#[tactic(auto, unfolding(crate::specs::ExprReading::extension))]
pub fn next_extension(tokens: &Cursor<'_>) -> Option<Extension>
    ensures { result ≡ spec.extension tokens.now }
{
    if multiplies_size(tokens) {
        return None;
    }
    match tokens.first() {
        Some(token) if token.kind == TokenKind::Mark => extension_by(token.text.bytes()),
        _ => None,
    }
}

/// How tightly an operator between two operands binds (6.5.5 to 6.5.12).
pub fn binary_level(op: BinaryOp) -> u8
    ensures value { result ≡ grammar.binary_level op }
    ensures small { result ≤ 11 }
{
    match op {
        BinaryOp::Or => 4,
        BinaryOp::Xor => 5,
        BinaryOp::And => 6,
        BinaryOp::Equal | BinaryOp::Unequal => 7,
        BinaryOp::Less | BinaryOp::Greater | BinaryOp::AtMost | BinaryOp::AtLeast => 8,
        BinaryOp::Shl | BinaryOp::Shr => 9,
        BinaryOp::Add | BinaryOp::Sub => 10,
        BinaryOp::Mul | BinaryOp::Div | BinaryOp::Rem => 11,
    }
}

/// How tightly an operator binds.
pub fn level(op: Infix) -> u8
    ensures value { result ≡ grammar.level op }
    ensures small { result ≤ 11 }
{
    match op {
        Infix::OrElse => 2,
        Infix::AndAlso => 3,
        Infix::Strict(op) => binary_level(op),
    }
}

/// The level of `?:`, and of any expression.
pub const CONDITIONAL_LEVEL: u8 = 1;

/// The level of a multiplicative expression (6.5.5).
pub const MULTIPLICATIVE_LEVEL: u8 = 11;

/// The level of the operand of a cast or a sign.
pub const CAST_LEVEL: u8 = 12;

/// The level of a postfix expression (6.5.2).
pub const POSTFIX_LEVEL: u8 = 14;

fn extension_level(extension: Extension) -> u8
    ensures { result ≡ spec.extension_level extension }
{
    match extension {
        Extension::Operator(op) => level(op),
        Extension::Question => CONDITIONAL_LEVEL,
        Extension::Bracket | Extension::Select(_) => POSTFIX_LEVEL,
    }
}

/// The extension at the front, where it binds at least as tightly.
#[tactic(auto, unfolding(crate::specs::ExprReading::extension_from))]
pub fn extension_from(tokens: &Cursor<'_>, least: u8) -> Option<Extension>
    ensures { result ≡ spec.extension_from least tokens.now }
{
    let extension = next_extension(tokens)?;
    if least <= extension_level(extension) {
        Some(extension)
    } else {
        None
    }
}

#[tactic(auto, unfolding(crate::specs::ExprReading::prefix_by))]
fn prefix_by(mark: &[u8]) -> Option<Prefix>
    ensures { result ≡ spec.prefix_by mark.now }
{
    if mark == b"+".as_slice() {
        Some(Prefix::Sign(UnaryOp::Plus))
    } else if mark == b"-".as_slice() {
        Some(Prefix::Sign(UnaryOp::Minus))
    } else if mark == b"~".as_slice() {
        Some(Prefix::Sign(UnaryOp::Flip))
    } else if mark == b"!".as_slice() {
        Some(Prefix::Sign(UnaryOp::Not))
    } else if mark == b"*".as_slice() {
        Some(Prefix::Deref)
    } else if mark == b"&".as_slice() {
        Some(Prefix::AddressOf)
    } else {
        None
    }
}

/// The operator at the front that stands before its operand.
#[tactic(auto, unfolding(crate::specs::ExprReading::prefix_at))]
pub fn prefix_at(tokens: &Cursor<'_>) -> Option<Prefix>
    ensures { result ≡ spec.prefix_at tokens.now }
{
    match tokens.first() {
        Some(token) if token.kind == TokenKind::Mark => prefix_by(token.text.bytes()),
        _ => None,
    }
}
