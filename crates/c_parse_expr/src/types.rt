//! Reads base types, types without a name, and declarators with their stars and lengths.
ghost use Rattle.std.specs.Prelude.{◌≡◌, ◌+◌, ◌<◌, ◌^◌, drop};
ghost use Rattle.c_language.specs.Nesting.{type_nesting};
ghost use Rattle.c_parse_expr.specs.TypeReading as spec;
ghost use Rattle.c_parse_expr.specs.Outcome.{Reads};

use crate::cursor::Cursor;
use crate::expr::nested;
use crate::extension::CONDITIONAL_LEVEL;
use crate::fault::Stop;
use crate::int_words::int_type_name;
use crate::shape::{Base, Shape};
use c_language::TokenKind;
use c_tree::{RawTypeName, RawVar};
use std::alloc::Global;

/// The type that stands before declarators: a struct by its tag, or an integer type.
#[tactic(auto, unfolding(crate::specs::TypeReading::base))]
pub fn base(alloc: Global, tokens: &mut Cursor<'_>) -> Result<Base, Stop>
    ensures { Reads (spec.base tokens.old) result tokens.new }
{
    if tokens.sees(TokenKind::Name, b"struct") {
        tokens.skip();
        let tag = tokens.name(alloc)?;
        return Ok(Base::structure(tag));
    }
    let to = int_type_name(tokens)?;
    Ok(Base::integer(to))
}

/// All the stars at the front, of which there may be at most `limit`.
#[tactic(auto, unfolding(crate::specs::TypeReading::stars))]
pub fn stars(
    alloc: Global,
    tokens: &mut Cursor<'_>,
    limit: usize,
    base: Shape,
) -> Result<Shape, Stop>
    requires { type_nesting base + limit < 2 ^ 64 }
    ensures { Reads (spec.stars limit base tokens.old) result tokens.new }
{
    let mut shape = base;
    for _star in 0..limit {
        if !tokens.sees(TokenKind::Mark, b"*") {
            return Ok(shape);
        }
        tokens.skip();
        shape = shape.pointer(alloc)?;
    }
    if tokens.sees(TokenKind::Mark, b"*") {
        return Err(tokens.too_deep());
    }
    Ok(shape)
}

/// How many stars stand at the front, which are passed.
#[tactic(auto, unfolding(crate::specs::TypeReading::star_count))]
fn count_stars(tokens: &mut Cursor<'_>) -> usize
    ensures count { result ≡ spec.star_count tokens.old }
    ensures passed { tokens.new ≡ drop (spec.star_count tokens.old) tokens.old }
{
    let mut stars = 0;
    let turns = tokens.left();
    for _turn in 0..turns {
        if !tokens.sees(TokenKind::Mark, b"*") {
            return stars;
        }
        tokens.skip();
        stars += 1;
    }
    stars
}

/// A type without a name. Its stars don't count in the nesting, and are counted, not nested.
#[tactic(auto, unfolding(crate::specs::TypeReading::type_name))]
pub fn type_name(alloc: Global, tokens: &mut Cursor<'_>) -> Result<RawTypeName, Stop>
    ensures { Reads (spec.type_name tokens.old) result tokens.new }
{
    let base = base(alloc, tokens)?;
    let stars = count_stars(tokens);
    Ok(RawTypeName {
        base: base.into_type(),
        stars,
    })
}

fn fitting(tokens: &Cursor<'_>, depth: u32, shape: Shape) -> Result<Shape, Stop>
    ensures { Reads (spec.fitting depth shape tokens.now) result tokens.now }
{
    if shape.height() <= depth as usize {
        Ok(shape)
    } else {
        Err(tokens.too_deep())
    }
}

/// All the lengths at the front, which make arrays of the element.
#[tactic(auto, unfolding(crate::specs::TypeReading::lengths))]
fn lengths(
    alloc: Global,
    tokens: &mut Cursor<'_>,
    depth: u32,
    element: Shape,
) -> Result<Shape, Stop>
    ensures { Reads (spec.lengths depth element tokens.old) result tokens.new }
{
    if !tokens.sees(TokenKind::Mark, b"[") {
        return fitting(tokens, depth, element);
    }
    if depth == 0 {
        return Err(tokens.too_deep());
    }
    tokens.skip();
    let length = nested(alloc, tokens, depth, CONDITIONAL_LEVEL)?;
    tokens.expect(b"]")?;
    let inner = lengths(alloc, tokens, depth - 1, element)?;
    Ok(inner.array(alloc, length)?)
}

#[tactic(auto, unfolding(crate::specs::TypeReading::empty_length))]
fn empty_length(
    alloc: Global,
    tokens: &mut Cursor<'_>,
    depth: u32,
    element: Shape,
) -> Result<Shape, Stop>
    ensures { Reads (spec.empty_length depth element tokens.old) result tokens.new }
{
    if depth == 0 {
        return Err(tokens.too_deep());
    }
    let inner = lengths(alloc, tokens, depth - 1, element)?;
    Ok(inner.listed(alloc)?)
}

/// The lengths of a declarator, of which the first may be empty.
#[tactic(auto, unfolding(crate::specs::TypeReading::outer_lengths, crate::specs::TypeReading::sees_empty_length))]
fn outer_lengths(
    alloc: Global,
    tokens: &mut Cursor<'_>,
    depth: u32,
    element: Shape,
) -> Result<Shape, Stop>
    ensures { Reads (spec.outer_lengths depth element tokens.old) result tokens.new }
{
    if tokens.sees(TokenKind::Mark, b"[") && tokens.sees_second(TokenKind::Mark, b"]") {
        tokens.skip();
        tokens.skip();
        return empty_length(alloc, tokens, depth, element);
    }
    lengths(alloc, tokens, depth, element)
}

/// A declarator behind its base type; it nests at most as deep as `depth`.
#[tactic(auto, unfolding(crate::specs::TypeReading::declarator))]
pub fn declarator(
    alloc: Global,
    tokens: &mut Cursor<'_>,
    depth: u32,
    base: &Base,
) -> Result<RawVar, Stop>
    ensures { Reads (spec.declarator depth base.now tokens.old) result tokens.new }
{
    let pointed = stars(alloc, tokens, depth as usize, base.shape(alloc)?)?;
    let name = tokens.name(alloc)?;
    let shape = outer_lengths(alloc, tokens, depth, pointed)?;
    Ok(RawVar {
        name,
        shape: shape.into_type(),
    })
}
