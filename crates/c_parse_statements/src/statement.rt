//! Reads statements with their bodies: conditionals, loops, switches, blocks, and what stands between braces.
ghost use Rattle.std.specs.Prelude.{◌≡◌, ◌≤◌, ◌∷◌, [], length, IfOk, Some};
ghost use Rattle.c_parse_expr.specs.Outcome.{Reads};
ghost use Rattle.c_parse_statements.specs.StatementReading as spec;

use c_language::{Token, TokenKind};
use c_parse_expr::cursor::Cursor;
use c_parse_expr::expr::{expression, nested};
use c_parse_expr::extension::CONDITIONAL_LEVEL;
use c_parse_expr::fault::Stop;
use c_parse_expr::forms::begins_type;
use c_parse_expr::types::base;
use c_parse_simple::calls::word;
use c_parse_simple::simple::{nested_declaration, nested_declared, nested_simple, simple};
use c_parse_words::is_token;
use c_tree::{Boxed, Items, RawArm, RawExpr, RawLabel, RawStatement};
use std::alloc::{AllocError, Global};

/// A test in its parentheses.
#[tactic(auto, unfolding(crate::specs::StatementReading::condition))]
fn condition(alloc: Global, tokens: &mut Cursor<'_>, depth: u32) -> Result<RawExpr, Stop>
    ensures { Reads (spec.condition depth tokens.old) result tokens.new }
{
    tokens.expect(b"(")?;
    let test = nested(alloc, tokens, depth, CONDITIONAL_LEVEL)?;
    tokens.expect(b")")?;
    Ok(test.into_expr())
}

/// A simple statement of a for, up to a mark and with it.
#[tactic(auto, unfolding(crate::specs::StatementReading::for_simple))]
fn for_simple(
    alloc: Global,
    tokens: &mut Cursor<'_>,
    depth: u32,
    close: &[u8],
) -> Result<Option<Boxed<RawStatement>>, Stop>
    requires { depth ≤ 101 }
    ensures { Reads (spec.for_simple depth close.now tokens.old) result tokens.new }
{
    let statement = nested_simple(alloc, tokens, depth)?;
    tokens.expect(close)?;
    Ok(Some(Boxed::new(alloc, statement)?))
}

/// A declaration of a for, with its semicolon.
#[tactic(auto, unfolding(crate::specs::StatementReading::for_declared))]
fn for_declared(
    alloc: Global,
    tokens: &mut Cursor<'_>,
    depth: u32,
) -> Result<Option<Boxed<RawStatement>>, Stop>
    requires { depth ≤ 101 }
    ensures { Reads (spec.for_declared depth tokens.old) result tokens.new }
{
    let line = tokens.line();
    let base = base(alloc, tokens)?;
    let statement = nested_declared(alloc, tokens, depth, line, &base)?;
    tokens.expect(b";")?;
    Ok(Some(Boxed::new(alloc, statement)?))
}

/// What a for begins with, and its semicolon.
#[tactic(auto, unfolding(crate::specs::StatementReading::for_init))]
fn for_init(
    alloc: Global,
    tokens: &mut Cursor<'_>,
    depth: u32,
) -> Result<Option<Boxed<RawStatement>>, Stop>
    requires { depth ≤ 101 }
    ensures { Reads (spec.for_init depth tokens.old) result tokens.new }
{
    if tokens.sees(TokenKind::Mark, b";") {
        tokens.skip();
        return Ok(None);
    }
    if begins_type(tokens) {
        return for_declared(alloc, tokens, depth);
    }
    for_simple(alloc, tokens, depth, b";")
}

/// What a for does after each turn, and its closing parenthesis.
#[tactic(auto, unfolding(crate::specs::StatementReading::for_step))]
fn for_step(
    alloc: Global,
    tokens: &mut Cursor<'_>,
    depth: u32,
) -> Result<Option<Boxed<RawStatement>>, Stop>
    requires { depth ≤ 101 }
    ensures { Reads (spec.for_step depth tokens.old) result tokens.new }
{
    if tokens.sees(TokenKind::Mark, b")") {
        tokens.skip();
        return Ok(None);
    }
    for_simple(alloc, tokens, depth, b")")
}

/// Whether a label of a switch stands here.
#[tactic(auto, unfolding(crate::specs::StatementReading::sees_label))]
fn sees_label(tokens: &Cursor<'_>) -> bool
    ensures { result ≡ spec.sees_label tokens.now }
{
    tokens.sees(TokenKind::Name, b"case") || tokens.sees(TokenKind::Name, b"default")
}

/// A label of a switch (ISO C99 6.8.1).
#[tactic(auto, unfolding(crate::specs::StatementReading::label))]
fn label(alloc: Global, tokens: &mut Cursor<'_>, depth: u32) -> Result<RawLabel, Stop>
    ensures { Reads (spec.label depth tokens.old) result tokens.new }
{
    if tokens.sees(TokenKind::Name, b"case") {
        tokens.skip();
        let value = nested(alloc, tokens, depth, CONDITIONAL_LEVEL)?;
        tokens.expect(b":")?;
        return Ok(RawLabel::Case(value.into_expr()));
    }
    word(tokens, b"default")?;
    tokens.expect(b":")?;
    Ok(RawLabel::Default)
}

/// One label or more.
#[tactic(auto, unfolding(crate::specs::StatementReading::labels_from))]
fn labels(alloc: Global, tokens: &mut Cursor<'_>, depth: u32) -> Result<Items<RawLabel>, Stop>
    ensures { Reads (spec.labels depth tokens.old) result tokens.new }
{
    let mut found = Items::new(alloc);
    let turns = tokens.left();
    for _turn in 0..turns {
        found.push(label(alloc, tokens, depth)?)?;
        if !sees_label(tokens) {
            return Ok(found);
        }
    }
    Err(tokens.refuse())
}

/// Whether this token ends the statements of a body or an arm.
fn ends(token: &Token) -> bool
    ensures { result ≡ spec.ends (Some token.now) }
{
    is_token(token, TokenKind::Mark, b"}")
        || (is_token(token, TokenKind::Name, b"break")
            || (is_token(token, TokenKind::Name, b"case")
                || is_token(token, TokenKind::Name, b"default")))
}

/// Whether the statements of a body or an arm end here.
#[tactic(auto, unfolding(crate::specs::StatementReading::is_at_end))]
fn is_at_end(tokens: &Cursor<'_>) -> bool
    ensures { result ≡ spec.is_at_end tokens.now }
{
    match tokens.first() {
        Some(token) => ends(token),
        None => true,
    }
}

/// A simple statement with its semicolon.
#[tactic(auto, unfolding(crate::specs::StatementReading::simple_statement))]
fn simple_statement(
    alloc: Global,
    tokens: &mut Cursor<'_>,
    depth: u32,
) -> Result<RawStatement, Stop>
    requires { depth ≤ 101 }
    ensures { Reads (spec.simple_statement depth tokens.old) result tokens.new }
{
    let statement = simple(alloc, tokens, depth)?;
    tokens.expect(b";")?;
    Ok(statement)
}

/// A return behind its word (6.8.6.4).
#[tactic(auto, unfolding(crate::specs::StatementReading::returned))]
fn returned(
    alloc: Global,
    tokens: &mut Cursor<'_>,
    depth: u32,
    line: u32,
) -> Result<RawStatement, Stop>
    requires { depth ≤ 101 }
    ensures { Reads (spec.returned depth line tokens.old) result tokens.new }
{
    if tokens.sees(TokenKind::Mark, b";") {
        tokens.skip();
        return Ok(RawStatement::Return { line, value: None });
    }
    let value = expression(alloc, tokens, depth, CONDITIONAL_LEVEL)?.into_expr();
    tokens.expect(b";")?;
    Ok(RawStatement::Return {
        line,
        value: Some(value),
    })
}

fn only(alloc: Global, statement: RawStatement) -> Result<Items<RawStatement>, AllocError>
    ensures { IfOk result (λ all. all ≡ statement ∷ []) }
{
    let mut all = Items::new(alloc);
    all.push(statement)?;
    Ok(all)
}

/// A statement that is nested one deeper.
#[cycle(statement)]
#[tactic(auto, unfolding(crate::specs::StatementReading::nested_statement))]
fn nested_statement(
    alloc: Global,
    tokens: &mut Cursor<'_>,
    depth: u32,
) -> Result<RawStatement, Stop>
    requires { depth ≤ 101 }
    ensures { Reads (spec.nested_statement depth tokens.old) result tokens.new }
{
    if depth == 0 {
        return Err(tokens.too_deep());
    }
    statement(alloc, tokens, depth - 1)
}

/// A statement other than a declaration and `;` (6.8).
#[cycle(statement)]
#[tactic(auto, unfolding(crate::specs::StatementReading::statement_with))]
fn statement(alloc: Global, tokens: &mut Cursor<'_>, depth: u32) -> Result<RawStatement, Stop>
    requires { depth ≤ 101 }
    ensures { Reads (spec.statement_with (spec.nested_statement depth) depth tokens.old) result tokens.new }
{
    let line = tokens.line();
    if tokens.sees(TokenKind::Name, b"if") {
        tokens.skip();
        return conditional(alloc, tokens, depth, line);
    }
    if tokens.sees(TokenKind::Name, b"while") {
        tokens.skip();
        return while_loop(alloc, tokens, depth, line);
    }
    if tokens.sees(TokenKind::Name, b"do") {
        tokens.skip();
        return do_loop(alloc, tokens, depth, line);
    }
    if tokens.sees(TokenKind::Name, b"for") {
        tokens.skip();
        return for_loop(alloc, tokens, depth, line);
    }
    if tokens.sees(TokenKind::Name, b"switch") {
        tokens.skip();
        return switch(alloc, tokens, depth, line);
    }
    if tokens.sees(TokenKind::Name, b"return") {
        tokens.skip();
        return returned(alloc, tokens, depth, line);
    }
    if tokens.sees(TokenKind::Mark, b"{") {
        tokens.skip();
        return block(alloc, tokens, depth, line);
    }
    simple_statement(alloc, tokens, depth)
}

#[cycle(statement)]
#[tactic(auto, unfolding(crate::specs::StatementReading::conditional))]
fn conditional(
    alloc: Global,
    tokens: &mut Cursor<'_>,
    depth: u32,
    line: u32,
) -> Result<RawStatement, Stop>
    requires { depth ≤ 101 }
    ensures { Reads (spec.conditional (spec.nested_statement depth) depth line tokens.old) result tokens.new }
{
    let test = condition(alloc, tokens, depth)?;
    let then = body(alloc, tokens, depth)?;
    let other = alternative(alloc, tokens, depth)?;
    Ok(RawStatement::If {
        line,
        test,
        then,
        other,
    })
}

#[cycle(statement)]
#[tactic(auto, unfolding(crate::specs::StatementReading::while_loop))]
fn while_loop(
    alloc: Global,
    tokens: &mut Cursor<'_>,
    depth: u32,
    line: u32,
) -> Result<RawStatement, Stop>
    requires { depth ≤ 101 }
    ensures { Reads (spec.while_loop (spec.nested_statement depth) depth line tokens.old) result tokens.new }
{
    let test = condition(alloc, tokens, depth)?;
    let body = body(alloc, tokens, depth)?;
    Ok(RawStatement::While { line, test, body })
}

#[cycle(statement)]
#[tactic(auto, unfolding(crate::specs::StatementReading::do_loop))]
fn do_loop(
    alloc: Global,
    tokens: &mut Cursor<'_>,
    depth: u32,
    line: u32,
) -> Result<RawStatement, Stop>
    requires { depth ≤ 101 }
    ensures { Reads (spec.do_loop (spec.nested_statement depth) depth line tokens.old) result tokens.new }
{
    let body = body(alloc, tokens, depth)?;
    word(tokens, b"while")?;
    let test = condition(alloc, tokens, depth)?;
    tokens.expect(b";")?;
    Ok(RawStatement::Do { line, test, body })
}

#[cycle(statement)]
#[tactic(auto, unfolding(crate::specs::StatementReading::for_loop))]
fn for_loop(
    alloc: Global,
    tokens: &mut Cursor<'_>,
    depth: u32,
    line: u32,
) -> Result<RawStatement, Stop>
    requires { depth ≤ 101 }
    ensures { Reads (spec.for_loop (spec.nested_statement depth) depth line tokens.old) result tokens.new }
{
    tokens.expect(b"(")?;
    let init = for_init(alloc, tokens, depth)?;
    let test = nested(alloc, tokens, depth, CONDITIONAL_LEVEL)?;
    tokens.expect(b";")?;
    let step = for_step(alloc, tokens, depth)?;
    let body = body(alloc, tokens, depth)?;
    Ok(RawStatement::For {
        line,
        init,
        test: test.into_expr(),
        step,
        body,
    })
}

#[cycle(statement)]
#[tactic(auto, unfolding(crate::specs::StatementReading::switch))]
fn switch(
    alloc: Global,
    tokens: &mut Cursor<'_>,
    depth: u32,
    line: u32,
) -> Result<RawStatement, Stop>
    requires { depth ≤ 101 }
    ensures { Reads (spec.switch (spec.nested_statement depth) depth line tokens.old) result tokens.new }
{
    let test = condition(alloc, tokens, depth)?;
    tokens.expect(b"{")?;
    let arms = arms(alloc, tokens, depth)?;
    Ok(RawStatement::Switch { line, test, arms })
}

/// The arms of a switch, and its closing brace.
#[cycle(statement)]
#[tactic(auto, unfolding(crate::specs::StatementReading::arms_from))]
fn arms(alloc: Global, tokens: &mut Cursor<'_>, depth: u32) -> Result<Items<RawArm>, Stop>
    requires { depth ≤ 101 }
    ensures { Reads (spec.arms_from (spec.nested_statement depth) depth (length tokens.old) [] tokens.old) result tokens.new }
{
    let mut found = Items::new(alloc);
    let turns = tokens.left();
    for _turn in 0..turns {
        if tokens.sees(TokenKind::Mark, b"}") {
            tokens.skip();
            return Ok(found);
        }
        let (arm, may_go_on) = arm(alloc, tokens, depth)?;
        found.push(arm)?;
        if !may_go_on {
            return Ok(found);
        }
    }
    Err(tokens.refuse())
}

/// An arm, and whether it ends with its break, so that another one may follow.
#[cycle(statement)]
#[tactic(auto, unfolding(crate::specs::StatementReading::arm_of, crate::specs::StatementReading::arm_end))]
fn arm(alloc: Global, tokens: &mut Cursor<'_>, depth: u32) -> Result<(RawArm, bool), Stop>
    requires { depth ≤ 101 }
    ensures { Reads (spec.arm_of (spec.nested_statement depth) depth tokens.old) result tokens.new }
{
    let labels = labels(alloc, tokens, depth)?;
    let is_empty = tokens.sees(TokenKind::Mark, b"}");
    let body = statements(alloc, tokens, depth)?;
    if tokens.sees(TokenKind::Name, b"break") {
        tokens.skip();
        tokens.expect(b";")?;
        return Ok((RawArm { labels, body }, true));
    }
    if is_empty {
        return Err(tokens.refuse());
    }
    tokens.expect(b"}")?;
    Ok((RawArm { labels, body }, false))
}

#[cycle(statement)]
#[tactic(auto, unfolding(crate::specs::StatementReading::block))]
fn block(
    alloc: Global,
    tokens: &mut Cursor<'_>,
    depth: u32,
    line: u32,
) -> Result<RawStatement, Stop>
    requires { depth ≤ 101 }
    ensures { Reads (spec.block (spec.nested_statement depth) depth line tokens.old) result tokens.new }
{
    if depth == 0 {
        return Err(tokens.too_deep());
    }
    let body = braced(alloc, tokens, depth)?;
    Ok(RawStatement::Block { line, body })
}

#[cycle(statement)]
#[tactic(auto, unfolding(crate::specs::StatementReading::alternative))]
fn alternative(
    alloc: Global,
    tokens: &mut Cursor<'_>,
    depth: u32,
) -> Result<Items<RawStatement>, Stop>
    requires { depth ≤ 101 }
    ensures { Reads (spec.alternative (spec.nested_statement depth) depth tokens.old) result tokens.new }
{
    if !tokens.sees(TokenKind::Name, b"else") {
        return Ok(Items::new(alloc));
    }
    tokens.skip();
    body(alloc, tokens, depth)
}

#[cycle(statement)]
#[tactic(auto, unfolding(crate::specs::StatementReading::body))]
fn body(alloc: Global, tokens: &mut Cursor<'_>, depth: u32) -> Result<Items<RawStatement>, Stop>
    requires { depth ≤ 101 }
    ensures { Reads (spec.body (spec.nested_statement depth) depth tokens.old) result tokens.new }
{
    if tokens.sees(TokenKind::Mark, b"{") {
        tokens.skip();
        return braced(alloc, tokens, depth);
    }
    if tokens.sees(TokenKind::Mark, b";") {
        tokens.skip();
        return Ok(Items::new(alloc));
    }
    let statement = nested_statement(alloc, tokens, depth)?;
    Ok(only(alloc, statement)?)
}

/// What stands behind an opening brace, with the closing one (ISO C99 6.8.2); each statement nests less deep than `depth`.
#[cycle(statement)]
#[tactic(auto, unfolding(crate::specs::StatementReading::braced))]
pub fn braced(
    alloc: Global,
    tokens: &mut Cursor<'_>,
    depth: u32,
) -> Result<Items<RawStatement>, Stop>
    requires { depth ≤ 101 }
    ensures { Reads (spec.braced (spec.nested_statement depth) depth tokens.old) result tokens.new }
{
    let all = statements(alloc, tokens, depth)?;
    tokens.expect(b"}")?;
    Ok(all)
}

/// What stands in a list: nothing for `;`, the variables of a declaration, or a statement.
#[cycle(statement)]
#[tactic(auto, unfolding(crate::specs::StatementReading::listed))]
fn listed(alloc: Global, tokens: &mut Cursor<'_>, depth: u32) -> Result<Items<RawStatement>, Stop>
    requires { depth ≤ 101 }
    ensures { Reads (spec.listed (spec.nested_statement depth) depth tokens.old) result tokens.new }
{
    if tokens.sees(TokenKind::Mark, b";") {
        tokens.skip();
        return Ok(Items::new(alloc));
    }
    if begins_type(tokens) {
        return nested_declaration(alloc, tokens, depth);
    }
    let statement = nested_statement(alloc, tokens, depth)?;
    Ok(only(alloc, statement)?)
}

#[cycle(statement)]
fn statements(
    alloc: Global,
    tokens: &mut Cursor<'_>,
    depth: u32,
) -> Result<Items<RawStatement>, Stop>
    requires { depth ≤ 101 }
    ensures { Reads (spec.statements (spec.nested_statement depth) depth tokens.old) result tokens.new }
{
    let mut found = Items::new(alloc);
    let turns = tokens.left();
    for _turn in 0..turns {
        if is_at_end(tokens) {
            return Ok(found);
        }
        found.append(listed(alloc, tokens, depth)?)?;
    }
    Ok(found)
}
