//! Reads the parameters of a function, up to the closing parenthesis.
ghost use Rattle.std.specs.Prelude.{◌∷◌, [], length};
ghost use Rattle.c_parse_expr.specs.TypeReading as spec;
ghost use Rattle.c_parse_expr.specs.Outcome.{Reads};

use crate::cursor::Cursor;
use crate::expr::nested;
use crate::extension::CONDITIONAL_LEVEL;
use crate::fault::Stop;
use crate::shape::Shape;
use crate::types::{base, stars};
use c_language::{Text, TokenKind};
use c_tree::{Items, RawExpr, RawParam};
use std::alloc::Global;

#[tactic(auto, unfolding(crate::specs::TypeReading::param_name))]
fn param_name(alloc: Global, tokens: &mut Cursor<'_>) -> Result<Option<Text>, Stop>
    ensures { Reads (spec.param_name tokens.old) result tokens.new }
{
    if !tokens.sees_name() {
        return Ok(None);
    }
    let name = tokens.name(alloc)?;
    Ok(Some(name))
}

/// The length of a parameter behind its bracket, and the closing bracket.
#[tactic(auto, unfolding(crate::specs::TypeReading::param_length))]
fn param_length(alloc: Global, tokens: &mut Cursor<'_>, depth: u32) -> Result<Option<RawExpr>, Stop>
    ensures { Reads (spec.param_length depth tokens.old) result tokens.new }
{
    if tokens.sees(TokenKind::Mark, b"]") {
        tokens.skip();
        return Ok(None);
    }
    let length = nested(alloc, tokens, depth, CONDITIONAL_LEVEL)?;
    tokens.expect(b"]")?;
    Ok(Some(length.into_expr()))
}

/// What a parameter of this line, type and name ends with.
#[tactic(auto, unfolding(crate::specs::TypeReading::param_end))]
fn param_end(
    alloc: Global,
    tokens: &mut Cursor<'_>,
    depth: u32,
    line: u32,
    shape: Shape,
    name: Option<Text>,
) -> Result<RawParam, Stop>
    ensures { Reads (spec.param_end depth line shape name tokens.old) result tokens.new }
{
    if !tokens.sees(TokenKind::Mark, b"[") {
        return Ok(RawParam {
            line,
            name,
            shape: shape.into_type(),
            length: None,
        });
    }
    if shape.height() >= depth as usize {
        return Err(tokens.too_deep());
    }
    tokens.skip();
    let length = param_length(alloc, tokens, depth)?;
    let pointer = shape.pointer(alloc)?;
    Ok(RawParam {
        line,
        name,
        shape: pointer.into_type(),
        length,
    })
}

/// A parameter; it nests at most as deep as `depth`.
#[tactic(auto, unfolding(crate::specs::TypeReading::param))]
fn param(alloc: Global, tokens: &mut Cursor<'_>, depth: u32) -> Result<RawParam, Stop>
    ensures { Reads (spec.param depth tokens.old) result tokens.new }
{
    let line = tokens.line();
    let base = base(alloc, tokens)?;
    let shape = stars(alloc, tokens, depth as usize, base.shape(alloc)?)?;
    let name = param_name(alloc, tokens)?;
    param_end(alloc, tokens, depth, line, shape, name)
}

/// Parameters behind commas, up to the closing parenthesis and with it.
#[tactic(auto, unfolding(crate::specs::TypeReading::params_from))]
fn params_from(
    alloc: Global,
    tokens: &mut Cursor<'_>,
    depth: u32,
    first: RawParam,
) -> Result<Items<RawParam>, Stop>
    ensures { Reads (spec.params_from depth (length tokens.old) (first ∷ []) tokens.old) result tokens.new }
{
    let mut found = Items::new(alloc);
    found.push(first)?;
    let turns = tokens.left();
    for _turn in 0..turns {
        if tokens.sees(TokenKind::Mark, b")") {
            tokens.skip();
            return Ok(found);
        }
        tokens.expect(b",")?;
        found.push(param(alloc, tokens, depth)?)?;
    }
    Err(tokens.refuse())
}

/// What stands behind the opening parenthesis of a function's parameters, with the closing one.
#[tactic(auto, unfolding(crate::specs::TypeReading::params))]
pub fn params(alloc: Global, tokens: &mut Cursor<'_>, depth: u32) -> Result<Items<RawParam>, Stop>
    ensures { Reads (spec.params depth tokens.old) result tokens.new }
{
    if tokens.sees(TokenKind::Mark, b")") {
        tokens.skip();
        return Ok(Items::new(alloc));
    }
    if tokens.sees(TokenKind::Name, b"void") {
        tokens.skip();
        tokens.expect(b")")?;
        return Ok(Items::new(alloc));
    }
    let first = param(alloc, tokens, depth)?;
    params_from(alloc, tokens, depth, first)
}
