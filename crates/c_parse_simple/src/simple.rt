//! Reads assignments and other simple statements, and declarations of variables with what they begin with.
ghost use Rattle.std.specs.Prelude.{◌≡◌, ◌≤◌, length, [], codes, Ok};
ghost use Rattle.c_parse_expr.specs.Outcome.{Reads, and_then};
ghost use Rattle.c_parse_simple.specs.SimpleReading as spec;

use crate::calls::{call, effect, sees_call, sees_effect};
use crate::letting_go::let_go;
use c_language::TokenKind;
use c_parse_expr::cursor::Cursor;
use c_parse_expr::expr::{expression, nested};
use c_parse_expr::extension::{CONDITIONAL_LEVEL, POSTFIX_LEVEL};
use c_parse_expr::fault::Stop;
use c_parse_expr::forms::{is_listed, is_place, tightness};
use c_parse_expr::nested::Nested;
use c_parse_expr::shape::Base;
use c_parse_expr::types::{base, declarator};
use c_tree::{BinaryOp, Items, RawExpr, RawInit, RawStatement, RawTarget, RawVar};
use std::alloc::Global;

/// `++` or `--`, and the place behind it.
#[tactic(auto, unfolding(crate::specs::SimpleReading::bumped))]
fn bumped(
    alloc: Global,
    tokens: &mut Cursor<'_>,
    depth: u32,
    line: u32,
    up: bool,
) -> Result<RawStatement, Stop>
    ensures { Reads (spec.bumped depth line up tokens.old) result tokens.new }
{
    let left = nested(alloc, tokens, depth, CONDITIONAL_LEVEL)?.into_expr();
    if !is_place(&left) {
        let_go(left);
        return Err(tokens.refuse());
    }
    Ok(RawStatement::Bump {
        line,
        left,
        up,
        before: true,
    })
}

/// `++` or `--` behind a place.
#[tactic(auto, unfolding(crate::specs::SimpleReading::bump))]
fn bump(
    tokens: &Cursor<'_>,
    depth: u32,
    line: u32,
    place: Nested,
    up: bool,
) -> Result<RawStatement, Stop>
    ensures { Reads (spec.bump depth line place up tokens.now) result tokens.now }
{
    let height = place.height();
    let left = place.into_expr();
    if tightness(&left) < POSTFIX_LEVEL {
        let_go(left);
        return Err(tokens.refuse());
    }
    if height >= depth {
        let_go(left);
        return Err(tokens.too_deep());
    }
    Ok(RawStatement::Bump {
        line,
        left,
        up,
        before: false,
    })
}

/// The operator of a compound assignment.
#[tactic(auto, unfolding(crate::specs::SimpleReading::compound_by))]
fn compound_by(text: &[u8]) -> Option<BinaryOp>
    ensures { result ≡ spec.compound_by text.now }
{
    if text == b"+=".as_slice() {
        Some(BinaryOp::Add)
    } else if text == b"-=".as_slice() {
        Some(BinaryOp::Sub)
    } else if text == b"*=".as_slice() {
        Some(BinaryOp::Mul)
    } else if text == b"/=".as_slice() {
        Some(BinaryOp::Div)
    } else if text == b"%=".as_slice() {
        Some(BinaryOp::Rem)
    } else if text == b"<<=".as_slice() {
        Some(BinaryOp::Shl)
    } else if text == b">>=".as_slice() {
        Some(BinaryOp::Shr)
    } else if text == b"&=".as_slice() {
        Some(BinaryOp::And)
    } else if text == b"^=".as_slice() {
        Some(BinaryOp::Xor)
    } else if text == b"|=".as_slice() {
        Some(BinaryOp::Or)
    } else {
        None
    }
}

/// The compound assignment at the front.
#[tactic(auto, unfolding(crate::specs::SimpleReading::compound_at))]
fn compound_at(tokens: &Cursor<'_>) -> Option<BinaryOp>
    ensures { result ≡ spec.compound_at tokens.now }
{
    match tokens.first() {
        Some(token) => {
            if token.kind == TokenKind::Mark {
                compound_by(token.text.bytes())
            } else {
                None
            }
        }
        None => None,
    }
}

/// What is stored behind `=`.
#[tactic(auto, unfolding(crate::specs::SimpleReading::stored))]
fn stored(
    alloc: Global,
    tokens: &mut Cursor<'_>,
    depth: u32,
    line: u32,
    left: RawExpr,
) -> Result<RawStatement, Stop>
    requires { depth ≤ 101 }
    ensures { Reads (spec.stored depth line left tokens.old) result tokens.new }
{
    match sees_effect(alloc, tokens) {
        Ok(true) => return effect(alloc, tokens, depth, line, RawTarget::Place(left)),
        Ok(false) => {}
        Err(error) => {
            let_go(left);
            return Err(Stop::from(error));
        }
    }
    match expression(alloc, tokens, depth, CONDITIONAL_LEVEL) {
        Ok(right) => Ok(RawStatement::Assign {
            line,
            left,
            op: None,
            right: right.into_expr(),
        }),
        Err(stop) => {
            let_go(left);
            Err(stop)
        }
    }
}

/// `=` behind a place.
#[tactic(auto, unfolding(crate::specs::SimpleReading::assigned))]
fn assigned(
    alloc: Global,
    tokens: &mut Cursor<'_>,
    depth: u32,
    line: u32,
    place: Nested,
) -> Result<RawStatement, Stop>
    requires { depth ≤ 101 }
    ensures { Reads (spec.assigned depth line place tokens.old) result tokens.new }
{
    if place.height() >= depth {
        let_go(place);
        return Err(tokens.too_deep());
    }
    stored(alloc, tokens, depth - 1, line, place.into_expr())
}

/// A compound assignment behind a place.
#[tactic(auto, unfolding(crate::specs::SimpleReading::changed))]
fn changed(
    alloc: Global,
    tokens: &mut Cursor<'_>,
    depth: u32,
    line: u32,
    place: Nested,
    op: BinaryOp,
) -> Result<RawStatement, Stop>
    ensures { Reads (spec.changed depth line place op tokens.old) result tokens.new }
{
    if place.height() >= depth {
        let_go(place);
        return Err(tokens.too_deep());
    }
    match nested(alloc, tokens, depth, CONDITIONAL_LEVEL) {
        Ok(right) => Ok(RawStatement::Assign {
            line,
            left: place.into_expr(),
            op: Some(op),
            right: right.into_expr(),
        }),
        Err(stop) => {
            let_go(place);
            Err(stop)
        }
    }
}

/// What is done with a place in front.
#[tactic(auto, unfolding(crate::specs::SimpleReading::acted))]
fn acted(
    alloc: Global,
    tokens: &mut Cursor<'_>,
    depth: u32,
    line: u32,
    place: Nested,
) -> Result<RawStatement, Stop>
    requires { depth ≤ 101 }
    ensures { Reads (spec.acted depth line place tokens.old) result tokens.new }
{
    if tokens.sees(TokenKind::Mark, b"++") {
        tokens.skip();
        return bump(tokens, depth, line, place, true);
    }
    if tokens.sees(TokenKind::Mark, b"--") {
        tokens.skip();
        return bump(tokens, depth, line, place, false);
    }
    if tokens.sees(TokenKind::Mark, b"=") {
        tokens.skip();
        return assigned(alloc, tokens, depth, line, place);
    }
    match compound_at(tokens) {
        Some(op) => {
            tokens.skip();
            changed(alloc, tokens, depth, line, place, op)
        }
        None => {
            let_go(place);
            Err(tokens.refuse())
        }
    }
}

/// A simple statement that begins with a place.
#[tactic(auto, unfolding(crate::specs::SimpleReading::placed))]
fn placed(
    alloc: Global,
    tokens: &mut Cursor<'_>,
    depth: u32,
    line: u32,
) -> Result<RawStatement, Stop>
    requires { depth ≤ 101 }
    ensures { Reads (spec.placed depth line tokens.old) result tokens.new }
{
    let place = expression(alloc, tokens, depth, CONDITIONAL_LEVEL)?;
    if !is_place(place.expr()) {
        let_go(place);
        return Err(tokens.refuse());
    }
    acted(alloc, tokens, depth, line, place)
}

/// A simple statement without its semicolon (ISO C99 6.8.3); it nests at most as deep as `depth`.
#[tactic(auto, unfolding(crate::specs::SimpleReading::simple))]
pub fn simple(alloc: Global, tokens: &mut Cursor<'_>, depth: u32) -> Result<RawStatement, Stop>
    requires { depth ≤ 101 }
    ensures { Reads (spec.simple depth tokens.old) result tokens.new }
{
    let line = tokens.line();
    if tokens.sees(TokenKind::Mark, b"++") {
        tokens.skip();
        return bumped(alloc, tokens, depth, line, true);
    }
    if tokens.sees(TokenKind::Mark, b"--") {
        tokens.skip();
        return bumped(alloc, tokens, depth, line, false);
    }
    if sees_call(tokens) {
        return call(alloc, tokens, depth, line, RawTarget::None);
    }
    placed(alloc, tokens, depth, line)
}

/// A simple statement without its semicolon, that nests less deep than `depth`.
#[tactic(auto, unfolding(crate::specs::SimpleReading::nested_simple))]
pub fn nested_simple(
    alloc: Global,
    tokens: &mut Cursor<'_>,
    depth: u32,
) -> Result<RawStatement, Stop>
    requires { depth ≤ 101 }
    ensures { Reads (spec.nested_simple depth tokens.old) result tokens.new }
{
    if depth == 0 {
        return Err(tokens.too_deep());
    }
    simple(alloc, tokens, depth - 1)
}

/// The items of a list behind its brace, with the closing one (6.7.8); each nests at most as deep as `depth`.
#[tactic(auto, unfolding(crate::specs::SimpleReading::list_from))]
pub fn list(alloc: Global, tokens: &mut Cursor<'_>, depth: u32) -> Result<Items<RawExpr>, Stop>
    requires { depth ≤ 101 }
    ensures { Reads (spec.list depth tokens.old) result tokens.new }
{
    let mut found = Items::new(alloc);
    let turns = tokens.left();
    for _turn in 0..turns {
        found.push(expression(alloc, tokens, depth, CONDITIONAL_LEVEL)?.into_expr())?;
        if tokens.sees(TokenKind::Mark, b"}") {
            tokens.skip();
            return Ok(found);
        }
        tokens.expect(b",")?;
        if tokens.sees(TokenKind::Mark, b"}") {
            tokens.skip();
            return Ok(found);
        }
    }
    Err(tokens.refuse())
}

/// A variable with the items of a list, behind the brace.
fn with_items(
    alloc: Global,
    tokens: &mut Cursor<'_>,
    depth: u32,
    line: u32,
    var: RawVar,
) -> Result<RawStatement, Stop>
    requires { depth ≤ 101 }
    ensures { Reads (and_then (spec.list depth tokens.old) (λ all ts. Ok (RawStatement.Declare line var (RawInit.Items all), ts))) result tokens.new }
{
    match list(alloc, tokens, depth) {
        Ok(items) => Ok(RawStatement::Declare {
            line,
            var,
            init: RawInit::Items(items),
        }),
        Err(stop) => {
            let_go(var);
            Err(stop)
        }
    }
}

/// What a variable is declared with, behind `=`.
#[tactic(auto, unfolding(crate::specs::SimpleReading::initialised))]
fn initialised(
    alloc: Global,
    tokens: &mut Cursor<'_>,
    depth: u32,
    line: u32,
    var: RawVar,
) -> Result<RawStatement, Stop>
    requires { depth ≤ 101 }
    ensures { Reads (spec.initialised depth line var tokens.old) result tokens.new }
{
    if tokens.sees(TokenKind::Mark, b"{") {
        tokens.skip();
        return with_items(alloc, tokens, depth, line, var);
    }
    if is_listed(&var.shape) {
        let_go(var);
        return Err(tokens.refuse());
    }
    match sees_effect(alloc, tokens) {
        Ok(true) => return effect(alloc, tokens, depth, line, RawTarget::Declared(var)),
        Ok(false) => {}
        Err(error) => {
            let_go(var);
            return Err(Stop::from(error));
        }
    }
    match expression(alloc, tokens, depth, CONDITIONAL_LEVEL) {
        Ok(value) => Ok(RawStatement::Declare {
            line,
            var,
            init: RawInit::One(value.into_expr()),
        }),
        Err(stop) => {
            let_go(var);
            Err(stop)
        }
    }
}

/// A declarator with its initialiser.
#[tactic(auto, unfolding(crate::specs::SimpleReading::declared))]
fn declared(
    alloc: Global,
    tokens: &mut Cursor<'_>,
    depth: u32,
    line: u32,
    base: &Base,
) -> Result<RawStatement, Stop>
    requires { depth ≤ 101 }
    ensures { Reads (spec.declared depth line base.now tokens.old) result tokens.new }
{
    let var = declarator(alloc, tokens, depth, base)?;
    if tokens.sees(TokenKind::Mark, b"=") {
        tokens.skip();
        return initialised(alloc, tokens, depth, line, var);
    }
    if is_listed(&var.shape) {
        let_go(var);
        return Err(tokens.refuse());
    }
    Ok(RawStatement::Declare {
        line,
        var,
        init: RawInit::None,
    })
}

/// A declarator behind its base type, with its initialiser, that nests less deep than `depth`.
#[tactic(auto, unfolding(crate::specs::SimpleReading::nested_declared))]
pub fn nested_declared(
    alloc: Global,
    tokens: &mut Cursor<'_>,
    depth: u32,
    line: u32,
    base: &Base,
) -> Result<RawStatement, Stop>
    requires { depth ≤ 101 }
    ensures { Reads (spec.nested_declared depth line base.now tokens.old) result tokens.new }
{
    if depth == 0 {
        return Err(tokens.too_deep());
    }
    declared(alloc, tokens, depth - 1, line, base)
}

/// Declarators with a comma between each two, and the semicolon.
#[tactic(auto, unfolding(crate::specs::SimpleReading::separated))]
fn declarators(
    alloc: Global,
    tokens: &mut Cursor<'_>,
    depth: u32,
    line: u32,
    base: &Base,
) -> Result<Items<RawStatement>, Stop>
    requires { depth ≤ 101 }
    ensures { Reads (spec.separated (codes ";") (spec.declared depth line base.now) (length tokens.old) [] tokens.old) result tokens.new }
{
    let mut found = Items::new(alloc);
    let turns = tokens.left();
    for _turn in 0..turns {
        found.push(declared(alloc, tokens, depth, line, base)?)?;
        if tokens.sees(TokenKind::Mark, b";") {
            tokens.skip();
            return Ok(found);
        }
        tokens.expect(b",")?;
    }
    Err(tokens.refuse())
}

/// A declaration with its semicolon (6.7); each declarator is a statement of its own.
#[tactic(auto, unfolding(crate::specs::SimpleReading::declaration))]
fn declaration(
    alloc: Global,
    tokens: &mut Cursor<'_>,
    depth: u32,
) -> Result<Items<RawStatement>, Stop>
    requires { depth ≤ 101 }
    ensures { Reads (spec.declaration depth tokens.old) result tokens.new }
{
    let line = tokens.line();
    let base = base(alloc, tokens)?;
    declarators(alloc, tokens, depth, line, &base)
}

/// A declaration with its semicolon, of which each declarator nests less deep than `depth`.
#[tactic(auto, unfolding(crate::specs::SimpleReading::nested_declaration))]
pub fn nested_declaration(
    alloc: Global,
    tokens: &mut Cursor<'_>,
    depth: u32,
) -> Result<Items<RawStatement>, Stop>
    requires { depth ≤ 101 }
    ensures { Reads (spec.nested_declaration depth tokens.old) result tokens.new }
{
    if depth == 0 {
        return Err(tokens.too_deep());
    }
    declaration(alloc, tokens, depth - 1)
}
