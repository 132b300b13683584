//! Reads calls and their arguments, and allocations by `malloc` with their amounts.
ghost use Rattle.std.specs.Prelude.{◌≡◌, ◌≤◌, length, [], codes, IfOk};
ghost use Rattle.std.specs.Option.{option_copied};
ghost use Rattle.c_language.specs.StatementGrammar as grammar;
ghost use Rattle.c_parse_expr.specs.Outcome.{Reads};
ghost use Rattle.c_parse_simple.specs.SimpleReading as spec;

use crate::letting_go::let_go;
use c_language::{Text, TokenKind};
use c_parse_expr::cursor::Cursor;
use c_parse_expr::expr::{expression, nested};
use c_parse_expr::extension::{
    CAST_LEVEL, CONDITIONAL_LEVEL, MULTIPLICATIVE_LEVEL, multiplies_size,
};
use c_parse_expr::fault::Stop;
use c_parse_expr::forms::tightness;
use c_parse_expr::nested::Nested;
use c_parse_expr::types::{base, type_name};
use c_parse_words::is_keyword;
use c_tree::{Items, RawAmount, RawArg, RawSize, RawStatement, RawTarget, RawTypeName};
use std::alloc::{AllocError, Global};

/// Skips this word; where another token stands, it is refused.
#[tactic(auto, unfolding(crate::specs::SimpleReading::word))]
pub fn word(tokens: &mut Cursor<'_>, text: &[u8]) -> Result<(), Stop>
    ensures { Reads (spec.word text.now tokens.old) result tokens.new }
{
    if !tokens.sees(TokenKind::Name, text) {
        return Err(tokens.refuse());
    }
    tokens.skip();
    Ok(())
}

/// The string at the front.
#[tactic(auto, unfolding(crate::specs::SimpleReading::string_at))]
fn string_at<'a>(tokens: &Cursor<'a>) -> Option<&'a Text>
    ensures { option_copied result ≡ spec.string_at tokens.now }
{
    match tokens.first() {
        Some(token) => {
            if token.kind == TokenKind::Str {
                Some(&token.text)
            } else {
                None
            }
        }
        None => None,
    }
}

/// An argument, under its call.
#[tactic(auto, unfolding(crate::specs::SimpleReading::arg))]
fn arg(alloc: Global, tokens: &mut Cursor<'_>, depth: u32) -> Result<RawArg, Stop>
    ensures { Reads (spec.arg depth tokens.old) result tokens.new }
{
    match string_at(tokens) {
        Some(text) => {
            let text = text.copy(alloc)?;
            tokens.skip();
            Ok(RawArg::Literal(text))
        }
        None => {
            let value = nested(alloc, tokens, depth, CONDITIONAL_LEVEL)?;
            Ok(RawArg::Value(value.into_expr()))
        }
    }
}

/// Arguments with a comma between each two, and the closing parenthesis.
#[tactic(auto, unfolding(crate::specs::SimpleReading::separated))]
fn some_args(alloc: Global, tokens: &mut Cursor<'_>, depth: u32) -> Result<Items<RawArg>, Stop>
    ensures { Reads (spec.separated (codes ")") (spec.arg depth) (length tokens.old) [] tokens.old) result tokens.new }
{
    let mut found = Items::new(alloc);
    let turns = tokens.left();
    for _turn in 0..turns {
        found.push(arg(alloc, tokens, depth)?)?;
        if tokens.sees(TokenKind::Mark, b")") {
            tokens.skip();
            return Ok(found);
        }
        tokens.expect(b",")?;
    }
    Err(tokens.refuse())
}

/// The arguments of a call behind its parenthesis, with the closing one.
#[tactic(auto, unfolding(crate::specs::SimpleReading::args))]
fn args(alloc: Global, tokens: &mut Cursor<'_>, depth: u32) -> Result<Items<RawArg>, Stop>
    ensures { Reads (spec.args depth tokens.old) result tokens.new }
{
    if tokens.sees(TokenKind::Mark, b")") {
        tokens.skip();
        return Ok(Items::new(alloc));
    }
    some_args(alloc, tokens, depth)
}

/// Whether a name and a parenthesis stand here.
#[tactic(auto, unfolding(crate::specs::SimpleReading::sees_call))]
pub fn sees_call(tokens: &Cursor<'_>) -> bool
    ensures { result ≡ spec.sees_call tokens.now }
{
    tokens.sees_name() && tokens.sees_second(TokenKind::Mark, b"(")
}

/// Whether a call may name this function.
#[tactic(auto, unfolding(c_language::specs::StatementGrammar::is_callee))]
fn is_callee(name: &[u8]) -> bool
    ensures { result ≡ grammar.is_callee name.now }
{
    !is_keyword(name) && name != b"malloc".as_slice()
}

/// The arguments of a call of this function, behind its parenthesis.
#[tactic(auto, unfolding(crate::specs::SimpleReading::called))]
fn called(
    alloc: Global,
    tokens: &mut Cursor<'_>,
    depth: u32,
    function: &[u8],
) -> Result<Items<RawArg>, Stop>
    ensures { Reads (spec.called depth function.now tokens.old) result tokens.new }
{
    if !is_callee(function) {
        return Err(tokens.refuse());
    }
    if depth == 0 {
        return Err(tokens.too_deep());
    }
    args(alloc, tokens, depth)
}

/// The function that is called, and its arguments.
#[tactic(auto, unfolding(crate::specs::SimpleReading::call_parts))]
fn call_parts(
    alloc: Global,
    tokens: &mut Cursor<'_>,
    depth: u32,
) -> Result<(Text, Items<RawArg>), Stop>
    ensures { Reads (spec.call_parts depth tokens.old) result tokens.new }
{
    let function = tokens.name(alloc)?;
    tokens.expect(b"(")?;
    let args = called(alloc, tokens, depth, function.bytes())?;
    Ok((function, args))
}

/// A call whose result is stored there; it nests at most as deep as `depth`.
#[tactic(auto, unfolding(crate::specs::SimpleReading::call))]
pub fn call(
    alloc: Global,
    tokens: &mut Cursor<'_>,
    depth: u32,
    line: u32,
    target: RawTarget,
) -> Result<RawStatement, Stop>
    ensures { Reads (spec.call depth line target tokens.old) result tokens.new }
{
    match call_parts(alloc, tokens, depth) {
        Ok((function, args)) => Ok(RawStatement::Call {
            line,
            target,
            function,
            args,
        }),
        Err(stop) => {
            let_go(target);
            Err(stop)
        }
    }
}

#[tactic(auto, unfolding(crate::specs::SimpleReading::pointee))]
fn pointee(alloc: Global, tokens: &mut Cursor<'_>, in_parens: bool) -> Result<RawSize, Stop>
    ensures { Reads (spec.pointee in_parens tokens.old) result tokens.new }
{
    let name = tokens.name(alloc)?;
    Ok(RawSize::Pointee(name, in_parens))
}

/// What a size in parentheses is of.
#[tactic(auto, unfolding(crate::specs::SimpleReading::size_inside))]
fn size_inside(alloc: Global, tokens: &mut Cursor<'_>) -> Result<RawSize, Stop>
    ensures { Reads (spec.size_inside tokens.old) result tokens.new }
{
    if tokens.sees(TokenKind::Mark, b"*") {
        tokens.skip();
        return pointee(alloc, tokens, true);
    }
    let name = type_name(alloc, tokens)?;
    Ok(RawSize::Type(name))
}

/// A size behind its parenthesis.
#[tactic(auto, unfolding(crate::specs::SimpleReading::size_in_parens))]
fn size_in_parens(alloc: Global, tokens: &mut Cursor<'_>) -> Result<RawSize, Stop>
    ensures { Reads (spec.size_in_parens tokens.old) result tokens.new }
{
    let size = size_inside(alloc, tokens)?;
    match tokens.expect(b")") {
        Ok(()) => Ok(size),
        Err(stop) => {
            let_go(size);
            Err(stop)
        }
    }
}

/// A size behind the word `sizeof`.
#[tactic(auto, unfolding(crate::specs::SimpleReading::size_of))]
fn size_of(alloc: Global, tokens: &mut Cursor<'_>) -> Result<RawSize, Stop>
    ensures { Reads (spec.size_of tokens.old) result tokens.new }
{
    if tokens.sees(TokenKind::Mark, b"*") {
        tokens.skip();
        return pointee(alloc, tokens, false);
    }
    tokens.expect(b"(")?;
    size_in_parens(alloc, tokens)
}

/// An amount that begins with this size.
#[tactic(auto, unfolding(crate::specs::SimpleReading::sized))]
fn sized(
    alloc: Global,
    tokens: &mut Cursor<'_>,
    depth: u32,
    size: RawSize,
) -> Result<RawAmount, Stop>
    ensures { Reads (spec.sized depth size tokens.old) result tokens.new }
{
    if tokens.sees(TokenKind::Mark, b"*") {
        if depth <= 1 {
            let_go(size);
            return Err(tokens.too_deep());
        }
        tokens.skip();
        return match nested(alloc, tokens, depth, CAST_LEVEL) {
            Ok(count) => Ok(RawAmount::SizeCount(size, count.into_expr())),
            Err(stop) => {
                let_go(size);
                Err(stop)
            }
        };
    }
    if depth == 0 {
        let_go(size);
        return Err(tokens.too_deep());
    }
    Ok(RawAmount::Size(size))
}

/// An amount that begins with this count.
#[tactic(auto, unfolding(crate::specs::SimpleReading::counted))]
fn counted(
    alloc: Global,
    tokens: &mut Cursor<'_>,
    depth: u32,
    count: Nested,
) -> Result<RawAmount, Stop>
    ensures { Reads (spec.counted depth count tokens.old) result tokens.new }
{
    if !multiplies_size(tokens) {
        return Ok(RawAmount::Count(count.into_expr()));
    }
    let height = count.height().max(1);
    let count = count.into_expr();
    if tightness(&count) < MULTIPLICATIVE_LEVEL {
        let_go(count);
        return Err(tokens.refuse());
    }
    tokens.skip();
    tokens.skip();
    let size = match size_of(alloc, tokens) {
        Ok(size) => size,
        Err(stop) => {
            let_go(count);
            return Err(stop);
        }
    };
    if height >= depth {
        let_go(count);
        let_go(size);
        return Err(tokens.too_deep());
    }
    Ok(RawAmount::CountSize(count, size))
}

/// How much is allocated.
#[tactic(auto, unfolding(crate::specs::SimpleReading::amount_of))]
fn amount(alloc: Global, tokens: &mut Cursor<'_>, depth: u32) -> Result<RawAmount, Stop>
    requires { depth ≤ 101 }
    ensures { Reads (spec.amount_of depth tokens.old) result tokens.new }
{
    if tokens.sees(TokenKind::Name, b"sizeof") {
        tokens.skip();
        let size = size_of(alloc, tokens)?;
        return sized(alloc, tokens, depth, size);
    }
    let count = expression(alloc, tokens, depth, CONDITIONAL_LEVEL)?;
    counted(alloc, tokens, depth, count)
}

/// The amount behind the parenthesis of a call of `malloc`, with the closing one.
fn amount_behind(alloc: Global, tokens: &mut Cursor<'_>, depth: u32) -> Result<RawAmount, Stop>
    requires { depth ≤ 101 }
    ensures { Reads (spec.amount_behind depth tokens.old) result tokens.new }
{
    if depth == 0 {
        return Err(tokens.too_deep());
    }
    let amount = amount(alloc, tokens, depth - 1)?;
    match tokens.expect(b")") {
        Ok(()) => Ok(amount),
        Err(stop) => {
            let_go(amount);
            Err(stop)
        }
    }
}

/// A call of `malloc`, with its amount.
#[tactic(auto, unfolding(crate::specs::SimpleReading::malloc_of))]
fn malloc(alloc: Global, tokens: &mut Cursor<'_>, depth: u32) -> Result<RawAmount, Stop>
    requires { depth ≤ 101 }
    ensures { Reads (spec.malloc_of depth tokens.old) result tokens.new }
{
    word(tokens, b"malloc")?;
    tokens.expect(b"(")?;
    amount_behind(alloc, tokens, depth)
}

/// The amount of a call of `malloc` that is cast to this type.
#[tactic(auto, unfolding(crate::specs::SimpleReading::cast_amount))]
fn cast_amount(
    alloc: Global,
    tokens: &mut Cursor<'_>,
    depth: u32,
    to: &RawTypeName,
) -> Result<RawAmount, Stop>
    requires { depth ≤ 101 }
    ensures { Reads (spec.cast_amount depth to.now tokens.old) result tokens.new }
{
    if to.stars == 0 {
        return Err(tokens.refuse());
    }
    if depth == 0 {
        return Err(tokens.too_deep());
    }
    malloc(alloc, tokens, depth - 1)
}

/// The type that the result of `malloc` is cast to, if it is, and the amount.
#[tactic(auto, unfolding(crate::specs::SimpleReading::heap_parts))]
fn heap_parts(
    alloc: Global,
    tokens: &mut Cursor<'_>,
    depth: u32,
) -> Result<(Option<RawTypeName>, RawAmount), Stop>
    requires { depth ≤ 101 }
    ensures { Reads (spec.heap_parts depth tokens.old) result tokens.new }
{
    if !tokens.sees(TokenKind::Mark, b"(") {
        let amount = malloc(alloc, tokens, depth)?;
        return Ok((None, amount));
    }
    tokens.skip();
    let to = type_name(alloc, tokens)?;
    if let Err(stop) = tokens.expect(b")") {
        let_go(to);
        return Err(stop);
    }
    match cast_amount(alloc, tokens, depth, &to) {
        Ok(amount) => Ok((Some(to), amount)),
        Err(stop) => {
            let_go(to);
            Err(stop)
        }
    }
}

/// An allocation whose result is stored there.
#[tactic(auto, unfolding(crate::specs::SimpleReading::heap))]
fn heap(
    alloc: Global,
    tokens: &mut Cursor<'_>,
    depth: u32,
    line: u32,
    target: RawTarget,
) -> Result<RawStatement, Stop>
    requires { depth ≤ 101 }
    ensures { Reads (spec.heap depth line target tokens.old) result tokens.new }
{
    match heap_parts(alloc, tokens, depth) {
        Ok((cast, amount)) => Ok(RawStatement::Heap {
            line,
            target,
            cast,
            amount,
        }),
        Err(stop) => {
            let_go(target);
            Err(stop)
        }
    }
}

/// Whether a cast to a pointer stands here.
#[tactic(auto, unfolding(crate::specs::SimpleReading::sees_cast))]
fn sees_cast(alloc: Global, tokens: &Cursor<'_>) -> Result<bool, AllocError>
    ensures { IfOk result (λ seen. seen ≡ spec.sees_cast tokens.now) }
{
    if !tokens.sees(TokenKind::Mark, b"(") {
        return Ok(false);
    }
    let mut ahead = tokens.again();
    ahead.skip();
    match base(alloc, &mut ahead) {
        Ok(_) => Ok(ahead.sees(TokenKind::Mark, b"*")),
        Err(Stop::Memory) => Err(AllocError),
        Err(_) => Ok(false),
    }
}

/// Whether a call or an allocation stands here, unless memory runs out.
#[tactic(auto, unfolding(crate::specs::SimpleReading::sees_effect))]
pub fn sees_effect(alloc: Global, tokens: &Cursor<'_>) -> Result<bool, AllocError>
    ensures { IfOk result (λ seen. seen ≡ spec.sees_effect tokens.now) }
{
    if sees_call(tokens) {
        return Ok(true);
    }
    sees_cast(alloc, tokens)
}

/// A call or an allocation whose result is stored there; it nests at most as deep as `depth`.
#[tactic(auto, unfolding(crate::specs::SimpleReading::effect))]
pub fn effect(
    alloc: Global,
    tokens: &mut Cursor<'_>,
    depth: u32,
    line: u32,
    target: RawTarget,
) -> Result<RawStatement, Stop>
    requires { depth ≤ 101 }
    ensures { Reads (spec.effect depth line target tokens.old) result tokens.new }
{
    if tokens.sees(TokenKind::Name, b"malloc") || tokens.sees(TokenKind::Mark, b"(") {
        return heap(alloc, tokens, depth, line, target);
    }
    call(alloc, tokens, depth, line, target)
}
