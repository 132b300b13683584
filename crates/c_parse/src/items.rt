//! Reads the items of a text from its tokens: struct definitions, globals and functions.
ghost use Rattle.std.specs.Prelude.{◌≡◌, ◌≤◌, ◌∷◌, [], length, codes, IfOk};
ghost use Rattle.c_language.specs.ItemGrammar as grammar;
ghost use Rattle.c_parse_expr.specs.Outcome.{Reads};
ghost use Rattle.c_parse_simple.specs.SimpleReading as simple;
ghost use Rattle.c_parse.specs.ItemReading as spec;

use c_language::{Text, TokenKind};
use c_parse_expr::cursor::Cursor;
use c_parse_expr::expr::expression;
use c_parse_expr::extension::CONDITIONAL_LEVEL;
use c_parse_expr::fault::Stop;
use c_parse_expr::forms::is_listed;
use c_parse_expr::params::params;
use c_parse_expr::shape::Base;
use c_parse_expr::types::{base, declarator};
use c_parse_simple::simple::list;
use c_parse_statements::statement::braced;
use c_tree::{Items, RawHead, RawInit, RawItem, RawMember, RawParam, RawProgram, RawType, RawVar};
use std::alloc::{AllocError, Global};

/// One item alone.
fn only(alloc: Global, item: RawItem) -> Result<Items<RawItem>, AllocError>
    ensures { IfOk result (λ all. all ≡ item ∷ []) }
{
    let mut all = Items::new(alloc);
    all.push(item)?;
    Ok(all)
}

/// A declarator of a member.
#[tactic(auto, unfolding(crate::specs::ItemReading::member_of))]
fn member_of(
    alloc: Global,
    tokens: &mut Cursor<'_>,
    depth: u32,
    line: u32,
    base: &Base,
) -> Result<RawMember, Stop>
    ensures { Reads (spec.member_of depth line base.now tokens.old) result tokens.new }
{
    let RawVar { name, shape } = declarator(alloc, tokens, depth, base)?;
    if is_listed(&shape) {
        return Err(tokens.refuse());
    }
    Ok(RawMember { line, name, shape })
}

/// The declarators of members, with a comma between each two, and the semicolon.
#[tactic(auto, unfolding(c_parse_simple::specs::SimpleReading::separated))]
fn member_declarators(
    alloc: Global,
    tokens: &mut Cursor<'_>,
    depth: u32,
    line: u32,
    base: &Base,
) -> Result<Items<RawMember>, Stop>
    ensures { Reads (simple.separated (codes ";") (spec.member_of depth line base.now) (length tokens.old) [] tokens.old) result tokens.new }
{
    let mut found = Items::new(alloc);
    let turns = tokens.left();
    for _turn in 0..turns {
        found.push(member_of(alloc, tokens, depth, line, base)?)?;
        if tokens.sees(TokenKind::Mark, b";") {
            tokens.skip();
            return Ok(found);
        }
        tokens.expect(b",")?;
    }
    Err(tokens.refuse())
}

/// A declaration of members (ISO C99 6.7.2.1).
#[tactic(auto, unfolding(crate::specs::ItemReading::member))]
fn member(alloc: Global, tokens: &mut Cursor<'_>, depth: u32) -> Result<Items<RawMember>, Stop>
    ensures { Reads (spec.member depth tokens.old) result tokens.new }
{
    let line = tokens.line();
    let base = base(alloc, tokens)?;
    member_declarators(alloc, tokens, depth, line, &base)
}

/// Declarations of members up to the closing brace and with it.
#[tactic(auto, unfolding(crate::specs::ItemReading::members_from))]
fn members(alloc: Global, tokens: &mut Cursor<'_>, depth: u32) -> Result<Items<RawMember>, Stop>
    ensures { Reads (spec.members_from depth (length tokens.old) [] tokens.old) result tokens.new }
{
    let mut found = Items::new(alloc);
    let turns = tokens.left();
    for _turn in 0..turns {
        found.append(member(alloc, tokens, depth)?)?;
        if tokens.sees(TokenKind::Mark, b"}") {
            tokens.skip();
            return Ok(found);
        }
    }
    Err(tokens.refuse())
}

/// A struct definition behind its brace.
#[tactic(auto, unfolding(crate::specs::ItemReading::structure))]
fn structure(
    alloc: Global,
    tokens: &mut Cursor<'_>,
    depth: u32,
    line: u32,
    name: Text,
) -> Result<Items<RawItem>, Stop>
    ensures { Reads (spec.structure depth line name tokens.old) result tokens.new }
{
    let members = members(alloc, tokens, depth)?;
    tokens.expect(b";")?;
    Ok(only(
        alloc,
        RawItem::Struct {
            line,
            name,
            members,
        },
    )?)
}

/// A tag alone or a struct definition, behind the word `struct`.
#[tactic(auto, unfolding(crate::specs::ItemReading::tagged))]
fn tagged(
    alloc: Global,
    tokens: &mut Cursor<'_>,
    depth: u32,
    line: u32,
) -> Result<Items<RawItem>, Stop>
    ensures { Reads (spec.tagged depth line tokens.old) result tokens.new }
{
    let name = tokens.name(alloc)?;
    if tokens.sees(TokenKind::Mark, b";") {
        tokens.skip();
        return Ok(only(alloc, RawItem::Tag { line, name })?);
    }
    tokens.expect(b"{")?;
    structure(alloc, tokens, depth, line, name)
}

/// Whether a tag alone or a struct definition stands here.
#[tactic(auto, unfolding(crate::specs::ItemReading::sees_tag))]
fn sees_tag(tokens: &Cursor<'_>) -> bool
    ensures { result ≡ spec.sees_tag tokens.now }
{
    let mut ahead = tokens.again();
    ahead.skip();
    ahead.skip();
    tokens.sees(TokenKind::Name, b"struct")
        && (ahead.sees(TokenKind::Mark, b";") || ahead.sees(TokenKind::Mark, b"{"))
}

/// What a global begins with, behind `=`.
#[tactic(auto, unfolding(crate::specs::ItemReading::global_init))]
fn global_init(
    alloc: Global,
    tokens: &mut Cursor<'_>,
    depth: u32,
    line: u32,
    is_static: bool,
    var: RawVar,
) -> Result<RawItem, Stop>
    requires { depth ≤ 101 }
    ensures { Reads (spec.global_init depth line is_static var tokens.old) result tokens.new }
{
    if tokens.sees(TokenKind::Mark, b"{") {
        tokens.skip();
        let init = RawInit::Items(list(alloc, tokens, depth)?);
        return Ok(RawItem::Global {
            line,
            var,
            init,
            is_static,
        });
    }
    if is_listed(&var.shape) {
        return Err(tokens.refuse());
    }
    let init = RawInit::One(expression(alloc, tokens, depth, CONDITIONAL_LEVEL)?.into_expr());
    Ok(RawItem::Global {
        line,
        var,
        init,
        is_static,
    })
}

/// A global behind its declarator.
#[tactic(auto, unfolding(crate::specs::ItemReading::global_of))]
fn global_of(
    alloc: Global,
    tokens: &mut Cursor<'_>,
    depth: u32,
    line: u32,
    is_static: bool,
    var: RawVar,
) -> Result<RawItem, Stop>
    requires { depth ≤ 101 }
    ensures { Reads (spec.global_of depth line is_static var tokens.old) result tokens.new }
{
    if tokens.sees(TokenKind::Mark, b"=") {
        tokens.skip();
        return global_init(alloc, tokens, depth, line, is_static, var);
    }
    if is_listed(&var.shape) {
        return Err(tokens.refuse());
    }
    Ok(RawItem::Global {
        line,
        var,
        init: RawInit::None,
        is_static,
    })
}

/// A global (ISO C99 6.9.2).
#[tactic(auto, unfolding(crate::specs::ItemReading::global))]
fn global(
    alloc: Global,
    tokens: &mut Cursor<'_>,
    depth: u32,
    line: u32,
    is_static: bool,
    base: &Base,
) -> Result<RawItem, Stop>
    requires { depth ≤ 101 }
    ensures { Reads (spec.global depth line is_static base.now tokens.old) result tokens.new }
{
    let var = declarator(alloc, tokens, depth, base)?;
    global_of(alloc, tokens, depth, line, is_static, var)
}

/// Globals behind a first one, with a comma between each two, and the semicolon.
#[tactic(auto, unfolding(c_parse_simple::specs::SimpleReading::separated))]
fn more_globals(
    alloc: Global,
    tokens: &mut Cursor<'_>,
    depth: u32,
    line: u32,
    is_static: bool,
    base: &Base,
    first: RawItem,
) -> Result<Items<RawItem>, Stop>
    requires { depth ≤ 101 }
    ensures { Reads (simple.separated (codes ";") (spec.global depth line is_static base.now) (length tokens.old) (first ∷ []) tokens.old) result tokens.new }
{
    let mut found = Items::new(alloc);
    found.push(first)?;
    let turns = tokens.left();
    for _turn in 0..turns {
        found.push(global(alloc, tokens, depth, line, is_static, base)?)?;
        if tokens.sees(TokenKind::Mark, b";") {
            tokens.skip();
            return Ok(found);
        }
        tokens.expect(b",")?;
    }
    Err(tokens.refuse())
}

/// Globals of which the first declarator was read.
#[tactic(auto, unfolding(crate::specs::ItemReading::globals))]
fn globals(
    alloc: Global,
    tokens: &mut Cursor<'_>,
    depth: u32,
    line: u32,
    is_static: bool,
    base: &Base,
    var: RawVar,
) -> Result<Items<RawItem>, Stop>
    requires { depth ≤ 101 }
    ensures { Reads (spec.globals depth line is_static base.now var tokens.old) result tokens.new }
{
    let first = global_of(alloc, tokens, depth, line, is_static, var)?;
    if tokens.sees(TokenKind::Mark, b";") {
        tokens.skip();
        return Ok(only(alloc, first)?);
    }
    tokens.expect(b",")?;
    more_globals(alloc, tokens, depth, line, is_static, base, first)
}

/// Whether each parameter has a name.
fn are_named(params: &[RawParam]) -> bool
    ensures { result ≡ grammar.are_named params.now }
{
    params.iter().all(|param| param.name.is_some())
}

/// A definition of a function behind its brace (ISO C99 6.9.1).
#[tactic(auto, unfolding(crate::specs::ItemReading::definition))]
fn definition(
    alloc: Global,
    tokens: &mut Cursor<'_>,
    depth: u32,
    line: u32,
    head: RawHead,
) -> Result<Items<RawItem>, Stop>
    requires { depth ≤ 100 }
    ensures { Reads (spec.definition depth line head tokens.old) result tokens.new }
{
    if !are_named(head.params.as_slice()) {
        return Err(tokens.refuse());
    }
    let body = braced(alloc, tokens, depth + 1)?;
    Ok(only(alloc, RawItem::Define { line, head, body })?)
}

/// A function behind its head.
#[tactic(auto, unfolding(crate::specs::ItemReading::headed))]
fn headed(
    alloc: Global,
    tokens: &mut Cursor<'_>,
    depth: u32,
    line: u32,
    head: RawHead,
) -> Result<Items<RawItem>, Stop>
    requires { depth ≤ 100 }
    ensures { Reads (spec.headed depth line head tokens.old) result tokens.new }
{
    if tokens.sees(TokenKind::Mark, b";") {
        tokens.skip();
        return Ok(only(alloc, RawItem::Prototype { line, head })?);
    }
    tokens.expect(b"{")?;
    definition(alloc, tokens, depth, line, head)
}

/// A function behind the parenthesis of its parameters.
#[tactic(auto, unfolding(crate::specs::ItemReading::function))]
fn function(
    alloc: Global,
    tokens: &mut Cursor<'_>,
    depth: u32,
    line: u32,
    is_static: bool,
    result_type: Option<RawType>,
    name: Text,
) -> Result<Items<RawItem>, Stop>
    requires { depth ≤ 100 }
    ensures { Reads (spec.function depth line is_static result_type name tokens.old) result tokens.new }
{
    let params = params(alloc, tokens, depth)?;
    let head = RawHead {
        name,
        result: result_type,
        params,
        is_static,
    };
    headed(alloc, tokens, depth, line, head)
}

fn is_array(shape: &RawType) -> bool
    ensures { result ≡ spec.is_array shape.now }
{
    match shape {
        RawType::Array(_, _) => true,
        RawType::Integer(_) | RawType::PointerTo(_) | RawType::Struct(_) => false,
    }
}

/// What the first declarator of an item declares.
#[tactic(auto, unfolding(crate::specs::ItemReading::declares))]
fn declares(
    alloc: Global,
    tokens: &mut Cursor<'_>,
    depth: u32,
    line: u32,
    is_static: bool,
    base: &Base,
    var: RawVar,
) -> Result<Items<RawItem>, Stop>
    requires { depth ≤ 100 }
    ensures { Reads (spec.declares depth line is_static base.now var tokens.old) result tokens.new }
{
    if tokens.sees(TokenKind::Mark, b"(") {
        if is_array(&var.shape) {
            return Err(tokens.refuse());
        }
        tokens.skip();
        let RawVar { name, shape } = var;
        return function(alloc, tokens, depth, line, is_static, Some(shape), name);
    }
    globals(alloc, tokens, depth, line, is_static, base, var)
}

/// A function without a result, behind the word `void`.
#[tactic(auto, unfolding(crate::specs::ItemReading::void_function))]
fn void_function(
    alloc: Global,
    tokens: &mut Cursor<'_>,
    depth: u32,
    line: u32,
    is_static: bool,
) -> Result<Items<RawItem>, Stop>
    requires { depth ≤ 100 }
    ensures { Reads (spec.void_function depth line is_static tokens.old) result tokens.new }
{
    let name = tokens.name(alloc)?;
    tokens.expect(b"(")?;
    function(alloc, tokens, depth, line, is_static, None, name)
}

/// Globals or a function, behind `static` or without it.
#[tactic(auto, unfolding(crate::specs::ItemReading::declared_or_defined))]
fn declared_or_defined(
    alloc: Global,
    tokens: &mut Cursor<'_>,
    depth: u32,
    line: u32,
    is_static: bool,
) -> Result<Items<RawItem>, Stop>
    requires { depth ≤ 100 }
    ensures { Reads (spec.declared_or_defined depth line is_static tokens.old) result tokens.new }
{
    if tokens.sees(TokenKind::Name, b"void") {
        tokens.skip();
        return void_function(alloc, tokens, depth, line, is_static);
    }
    let base = base(alloc, tokens)?;
    let var = declarator(alloc, tokens, depth, &base)?;
    declares(alloc, tokens, depth, line, is_static, &base, var)
}

/// An item of a text; one that declares several globals is split.
#[tactic(auto, unfolding(crate::specs::ItemReading::item_of))]
fn item(alloc: Global, tokens: &mut Cursor<'_>, depth: u32) -> Result<Items<RawItem>, Stop>
    requires { depth ≤ 100 }
    ensures { Reads (spec.item_of depth tokens.old) result tokens.new }
{
    let line = tokens.line();
    if tokens.sees(TokenKind::Include, b"<stdio.h>") {
        tokens.skip();
        return Ok(only(alloc, RawItem::Include { is_stdlib: false })?);
    }
    if tokens.sees(TokenKind::Include, b"<stdlib.h>") {
        tokens.skip();
        return Ok(only(alloc, RawItem::Include { is_stdlib: true })?);
    }
    if sees_tag(tokens) {
        tokens.skip();
        return tagged(alloc, tokens, depth, line);
    }
    if tokens.sees(TokenKind::Name, b"static") {
        tokens.skip();
        return declared_or_defined(alloc, tokens, depth, line, true);
    }
    declared_or_defined(alloc, tokens, depth, line, false)
}

/// Whether no tokens are left.
#[tactic(auto, unfolding(crate::specs::ItemReading::none_left))]
fn none_left(tokens: &Cursor<'_>) -> bool
    ensures { result ≡ spec.none_left tokens.now }
{
    tokens.first().is_none()
}

/// Items up to the end of the text.
#[tactic(auto, unfolding(crate::specs::ItemReading::items_from))]
fn items(alloc: Global, tokens: &mut Cursor<'_>, depth: u32) -> Result<Items<RawItem>, Stop>
    requires { depth ≤ 100 }
    ensures { Reads (spec.items depth tokens.old) result tokens.new }
{
    let mut found = Items::new(alloc);
    let turns = tokens.left();
    for _turn in 0..turns {
        if none_left(tokens) {
            return Ok(found);
        }
        found.append(item(alloc, tokens, depth)?)?;
    }
    Ok(found)
}

/// A whole text (6.9) that nests at most as deep as the limit.
#[tactic(auto, unfolding(crate::specs::ItemReading::program))]
pub fn program(alloc: Global, tokens: &mut Cursor<'_>, limit: u32) -> Result<RawProgram, Stop>
    requires { limit ≤ 100 }
    ensures { Reads (spec.program limit tokens.old) result tokens.new }
{
    let items = items(alloc, tokens, limit)?;
    if !none_left(tokens) {
        return Err(tokens.refuse());
    }
    Ok(RawProgram { items })
}
