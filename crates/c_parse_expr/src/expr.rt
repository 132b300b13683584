//! Reads expressions from tokens, by how tightly their operators bind and within a limit of nesting.
ghost use Rattle.std.specs.Prelude.{◌≡◌, ◌+◌, ◌<◌, ◌^◌};
ghost use Rattle.c_language.specs.ExprGrammar as grammar;
ghost use Rattle.c_language.specs.Nesting.{nesting};
ghost use Rattle.c_parse_expr.specs.ExprReading as spec;
ghost use Rattle.c_parse_expr.specs.Outcome.{Reads};

use crate::cursor::Cursor;
use crate::extension::{
    CAST_LEVEL, CONDITIONAL_LEVEL, Extension, extension_from, level, prefix_at,
};
use crate::fault::Stop;
use crate::int_words::{int_type_name, sees_int_word};
use crate::nested::Nested;
use c_language::{Infix, Prefix, Text, TokenKind};
use c_parse_words::is_keyword;
use std::alloc::Global;

fn named(text: Text) -> Nested
    ensures { result ≡ spec.named text }
{
    if text.bytes() == b"NULL".as_slice() {
        Nested::null()
    } else if text.bytes() == b"EOF".as_slice() {
        Nested::eof()
    } else {
        Nested::variable(text)
    }
}

/// A token that is an expression by itself.
#[tactic(auto, unfolding(crate::specs::ExprReading::atom))]
fn atom(alloc: Global, tokens: &mut Cursor<'_>) -> Result<Nested, Stop>
    ensures { Reads (spec.atom tokens.old) result tokens.new }
{
    let Some(token) = tokens.first() else {
        return Err(tokens.refuse());
    };
    match token.kind {
        TokenKind::Number | TokenKind::Character => {
            let text = token.text.copy(alloc)?;
            tokens.skip();
            Ok(Nested::constant(text))
        }
        TokenKind::Name => {
            if is_keyword(token.text.bytes()) {
                return Err(tokens.refuse());
            }
            let text = token.text.copy(alloc)?;
            tokens.skip();
            Ok(named(text))
        }
        TokenKind::Str | TokenKind::Mark | TokenKind::Include | TokenKind::Directive => {
            Err(tokens.refuse())
        }
    }
}

/// A name that is neither a keyword nor `NULL` nor `EOF`.
#[tactic(auto, unfolding(c_language::specs::ExprGrammar::is_plain_name))]
fn is_plain_name(word: &[u8]) -> bool
    ensures { result ≡ grammar.is_plain_name word.now }
{
    !is_keyword(word) && word != b"NULL".as_slice() && word != b"EOF".as_slice()
}

/// The name of a member.
#[tactic(auto, unfolding(crate::specs::ExprReading::read_member))]
fn member_name(alloc: Global, tokens: &mut Cursor<'_>) -> Result<Text, Stop>
    ensures { Reads (spec.read_member tokens.old) result tokens.new }
{
    let Some(token) = tokens.first() else {
        return Err(tokens.refuse());
    };
    if token.kind != TokenKind::Name || !is_plain_name(token.text.bytes()) {
        return Err(tokens.refuse());
    }
    let text = token.text.copy(alloc)?;
    tokens.skip();
    Ok(text)
}

/// An expression that nests less deep than `depth`, and whose outermost form binds at least as
/// tightly as `least`.
#[cycle(expression)]
#[tactic(auto, unfolding(crate::specs::ExprReading::nested, crate::specs::ExprReading::expression_with))]
pub fn nested(alloc: Global, tokens: &mut Cursor<'_>, depth: u32, least: u8) -> Result<Nested, Stop>
    ensures { Reads (spec.nested depth least tokens.old) result tokens.new }
{
    if depth == 0 {
        return Err(tokens.too_deep());
    }
    let below = depth - 1;
    let mut left = prefix(alloc, tokens, below)?;
    let turns = tokens.left();
    for _turn in 0..turns {
        let Some(extension) = extension_from(tokens, least) else {
            return Ok(left);
        };
        left = extended(alloc, tokens, below, extension, left)?;
    }
    Ok(left)
}

/// An expression without an extension. A word of a type behind a parenthesis tells a cast.
#[cycle(expression)]
#[tactic(auto, unfolding(crate::specs::ExprReading::prefix))]
fn prefix(alloc: Global, tokens: &mut Cursor<'_>, depth: u32) -> Result<Nested, Stop>
    ensures { Reads (spec.prefix (spec.nested depth) tokens.old) result tokens.new }
{
    if tokens.sees(TokenKind::Mark, b"(") {
        tokens.skip();
        if sees_int_word(tokens) {
            return converted(alloc, tokens, depth);
        }
        return parenthesized(alloc, tokens, depth);
    }
    let Some(op) = prefix_at(tokens) else {
        return atom(alloc, tokens);
    };
    tokens.skip();
    signed(alloc, tokens, depth, op)
}

#[cycle(expression)]
#[tactic(auto, unfolding(crate::specs::ExprReading::parenthesized))]
fn parenthesized(alloc: Global, tokens: &mut Cursor<'_>, depth: u32) -> Result<Nested, Stop>
    ensures { Reads (spec.parenthesized (spec.nested depth) tokens.old) result tokens.new }
{
    let inner = nested(alloc, tokens, depth, CONDITIONAL_LEVEL)?;
    tokens.expect(b")")?;
    Ok(inner.paren(alloc)?)
}

#[cycle(expression)]
#[tactic(auto, unfolding(crate::specs::ExprReading::converted))]
fn converted(alloc: Global, tokens: &mut Cursor<'_>, depth: u32) -> Result<Nested, Stop>
    ensures { Reads (spec.converted (spec.nested depth) tokens.old) result tokens.new }
{
    let to = int_type_name(tokens)?;
    tokens.expect(b")")?;
    let operand = nested(alloc, tokens, depth, CAST_LEVEL)?;
    Ok(operand.cast(alloc, to)?)
}

#[cycle(expression)]
#[tactic(auto, unfolding(crate::specs::ExprReading::signed))]
fn signed(alloc: Global, tokens: &mut Cursor<'_>, depth: u32, op: Prefix) -> Result<Nested, Stop>
    ensures { Reads (spec.signed (spec.nested depth) op tokens.old) result tokens.new }
{
    let operand = nested(alloc, tokens, depth, CAST_LEVEL)?;
    Ok(operand.applied(alloc, op)?)
}

/// With one more extension, where that nests no deeper than `depth`.
#[cycle(expression)]
#[tactic(auto, unfolding(crate::specs::ExprReading::extended, crate::specs::ExprReading::extended_by))]
fn extended(
    alloc: Global,
    tokens: &mut Cursor<'_>,
    depth: u32,
    extension: Extension,
    left: Nested,
) -> Result<Nested, Stop>
    ensures { Reads (spec.extended (spec.nested depth) depth extension left tokens.old) result tokens.new }
{
    if left.height() >= depth {
        return Err(tokens.too_deep());
    }
    tokens.skip();
    match extension {
        Extension::Operator(op) => with_operand(alloc, tokens, depth, op, left),
        Extension::Question => with_choice(alloc, tokens, depth, left),
        Extension::Bracket => with_index(alloc, tokens, depth, left),
        Extension::Select(by) => {
            let member = member_name(alloc, tokens)?;
            Ok(left.selected(alloc, by, member)?)
        }
    }
}

#[cycle(expression)]
#[tactic(auto, unfolding(crate::specs::ExprReading::with_operand))]
fn with_operand(
    alloc: Global,
    tokens: &mut Cursor<'_>,
    depth: u32,
    op: Infix,
    left: Nested,
) -> Result<Nested, Stop>
    requires { nesting left < depth }
    ensures { Reads (spec.with_operand (spec.nested depth) op left tokens.old) result tokens.new }
{
    let right = nested(alloc, tokens, depth, level(op) + 1)?;
    Ok(left.joint(alloc, op, right)?)
}

#[cycle(expression)]
#[tactic(auto, unfolding(crate::specs::ExprReading::with_choice))]
fn with_choice(
    alloc: Global,
    tokens: &mut Cursor<'_>,
    depth: u32,
    test: Nested,
) -> Result<Nested, Stop>
    requires { nesting test < depth }
    ensures { Reads (spec.with_choice (spec.nested depth) test tokens.old) result tokens.new }
{
    let yes = nested(alloc, tokens, depth, CONDITIONAL_LEVEL)?;
    tokens.expect(b":")?;
    let no = nested(alloc, tokens, depth, CONDITIONAL_LEVEL)?;
    Ok(test.choice(alloc, yes, no)?)
}

#[cycle(expression)]
#[tactic(auto, unfolding(crate::specs::ExprReading::with_index))]
fn with_index(
    alloc: Global,
    tokens: &mut Cursor<'_>,
    depth: u32,
    left: Nested,
) -> Result<Nested, Stop>
    requires { nesting left < depth }
    ensures { Reads (spec.with_index (spec.nested depth) left tokens.old) result tokens.new }
{
    let at = nested(alloc, tokens, depth, CONDITIONAL_LEVEL)?;
    tokens.expect(b"]")?;
    Ok(left.index(alloc, at)?)
}

/// An expression that nests at most as deep as `depth`, and whose outermost form binds at least as
/// tightly as `least`.
#[tactic(auto, unfolding(crate::specs::ExprReading::nested))]
pub fn expression(
    alloc: Global,
    tokens: &mut Cursor<'_>,
    depth: u32,
    least: u8,
) -> Result<Nested, Stop>
    requires { depth + 1 < 2 ^ 32 }
    ensures { Reads (spec.expression depth least tokens.old) result tokens.new }
{
    nested(alloc, tokens, depth + 1, least)
}
