//! Questions about forms: whether an expression is a place and how tightly it binds, whether a declarator leaves
//! its first length empty, and whether a type begins at some tokens.
ghost use Rattle.std.specs.Prelude.{◌≡◌};
ghost use Rattle.c_language.specs.ExprGrammar as grammar;
ghost use Rattle.c_language.specs.TypeGrammar as types;
ghost use Rattle.c_parse_expr.specs.TypeReading as spec;

use crate::cursor::Cursor;
use crate::extension::binary_level;
use crate::int_words::sees_int_word;
use c_language::TokenKind;
use c_tree::{RawExpr, RawLength, RawType};

/// Whether an expression is, within parentheses, a name, `*e`, an element or a member.
pub fn is_place(expr: &RawExpr) -> bool
    ensures { result ≡ grammar.is_place expr.now }
{
    match expr {
        RawExpr::Variable(_)
        | RawExpr::Deref(_)
        | RawExpr::Index(_, _)
        | RawExpr::Member(_, _)
        | RawExpr::Arrow(_, _) => true,
        RawExpr::Paren(inner) => is_place(inner.get()),
        RawExpr::Constant(_)
        | RawExpr::Null
        | RawExpr::Eof
        | RawExpr::Unary(_, _)
        | RawExpr::AddressOf(_)
        | RawExpr::Binary(_, _, _)
        | RawExpr::AndAlso(_, _)
        | RawExpr::OrElse(_, _)
        | RawExpr::Choose(_, _, _)
        | RawExpr::Cast(_, _) => false,
    }
}

/// How tightly the outermost form of an expression binds.
pub fn tightness(expr: &RawExpr) -> u8
    ensures { result ≡ grammar.tightness expr.now }
{
    match expr {
        RawExpr::Constant(_)
        | RawExpr::Null
        | RawExpr::Eof
        | RawExpr::Variable(_)
        | RawExpr::Paren(_) => 15,
        RawExpr::Index(_, _) | RawExpr::Member(_, _) | RawExpr::Arrow(_, _) => 14,
        RawExpr::Unary(_, _) | RawExpr::Deref(_) | RawExpr::AddressOf(_) => 13,
        RawExpr::Cast(_, _) => 12,
        RawExpr::Binary(op, _, _) => binary_level(*op),
        RawExpr::AndAlso(_, _) => 3,
        RawExpr::OrElse(_, _) => 2,
        RawExpr::Choose(_, _, _) => 1,
    }
}

/// Whether the first length of a declarator is empty.
pub fn is_listed(shape: &RawType) -> bool
    ensures { result ≡ types.is_listed shape.now }
{
    match shape {
        RawType::Array(_, RawLength::Listed) => true,
        RawType::Array(_, RawLength::Written(_)) => false,
        RawType::Integer(_) | RawType::PointerTo(_) | RawType::Struct(_) => false,
    }
}

/// Whether a type begins here.
#[tactic(auto, unfolding(crate::specs::TypeReading::begins_type))]
pub fn begins_type(tokens: &Cursor<'_>) -> bool
    ensures { result ≡ spec.begins_type tokens.now }
{
    tokens.sees(TokenKind::Name, b"struct") || sees_int_word(tokens)
}
