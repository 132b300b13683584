//! The parser: it gives the tree of a text's tokens, or else finds which fault to tell and at which line.
ghost use Rattle.std.specs.Prelude.{◌≡◌, ◌≤◌, ◌<◌, IfOk, IfSome, Err, length};
ghost use Rattle.c_tree.specs.declared.raw.program.RawProgram.{RawProgram};
ghost use Rattle.c_language.specs.ItemGrammar.{IsProgram};
ghost use Rattle.c_language.specs.LeftOut.{IsInGrammar};
ghost use Rattle.c_language.specs.StatementNesting.{program_nesting};
ghost use Rattle.c_parse.specs.ItemReading as reading;
ghost use Rattle.c_parse_expr.specs.Outcome.{Syntax};
ghost use Rattle.c_parse_left_out.specs.Places.{IsLeftOutAt};
ghost use Rattle.c_parse.specs.Parser as spec;
ghost use Rattle.c_parse.specs.Parser.{IsRight, Gives, IsTooDeep, IsLineOf, HasLine, Names, NamesAt, Answers, ReadsAll, line_before};

use crate::items::program;
use crate::parse_fault::ParseFault;
use c_language::Token;
use c_parse_expr::cursor::Cursor;
use c_parse_expr::fault::Stop;
use c_parse_left_out::{first_told, left_out_near};
use c_tree::{Items, RawProgram};
use std::alloc::Global;

/// How deep the tree of a text may nest.
const MAX_NESTING: u32 = 100;

/// The line of the token before which so many are left, or of the last one.
#[tactic(auto, unfolding(crate::specs::Parser::line_before), using(crate::proofs::NamedLaws::line_is_of))]
fn line_at(tokens: &[Token], left: usize) -> u32
    requires { 0 < length tokens.now }
    ensures line { result ≡ line_before left tokens.now }
    ensures token { IsLineOf tokens.now result }
{
    let last = tokens.len() - 1;
    match tokens.get(tokens.len().saturating_sub(left).min(last)) {
        Some(token) => token.line,
        None => 0,
    }
}

/// That a left-out construct begins at a token.
fn naming(alloc: Global, token: &Token) -> ParseFault
    ensures { Names token.now result }
{
    match token.text.copy(alloc) {
        Ok(text) => ParseFault::LeftOut(text, token.line),
        Err(_) => ParseFault::NoMemory,
    }
}

/// That a left-out construct begins at the token at a place.
fn left_out_at(alloc: Global, tokens: &[Token], at: usize) -> ParseFault
    requires { IsLeftOutAt tokens.now at }
    ensures named { NamesAt tokens.now at result }
    ensures line { HasLine tokens.now (Err result) }
{
    naming(alloc, &tokens[at])
}

/// Where a construct begins because of which reading stopped at a place: the first one that its tokens
/// tell, where it begins there or before, or else one without a production near the place.
#[tactic(auto, unfolding(crate::specs::Parser::left_out), using(c_parse_left_out::proofs::TellingLaws::told_is_left_out, crate::proofs::NamedLaws::near_left_out))]
fn left_out(tokens: &[Token], stop: usize) -> Option<usize>
    requires { (all : RawProgram) → IsProgram tokens.now all → ⊥ }
    ensures place { result ≡ spec.left_out tokens.now stop }
    ensures begins { IfSome result (λ at. IsLeftOutAt tokens.now at) }
{
    if let Some(at) = first_told(tokens) {
        if at <= stop {
            return Some(at);
        }
    }
    left_out_near(tokens, stop)
}

/// Why there is no tree, where reading stopped before so many tokens.
#[tactic(auto, using(crate::proofs::ParserLaws::no_tree, crate::proofs::NamedLaws::stopped_answers, crate::proofs::NamedLaws::unnamed_answers))]
fn refused(alloc: Global, tokens: &[Token], left: usize) -> ParseFault
    requires some { 0 < length tokens.now }
    requires stopped { reading.program 100 tokens.now ≡ Err (Syntax left) }
    ensures exact { Answers tokens.now (reading.program 100 tokens.now) (Err result) }
    ensures line { HasLine tokens.now (Err result) }
{
    match left_out(tokens, tokens.len().saturating_sub(left)) {
        Some(at) => left_out_at(alloc, tokens, at),
        None => ParseFault::Syntax(line_at(tokens, left)),
    }
}

/// What is read of all the tokens.
fn read(alloc: Global, tokens: &[Token]) -> Result<RawProgram, Stop>
    ensures { ReadsAll (reading.program 100 tokens.now) result }
{
    program(alloc, &mut Cursor::new(tokens), MAX_NESTING)
}

/// What is answered for tokens, of which there is one at least.
#[tactic(auto, using(c_parse_left_out::proofs::TellingLaws::told_is_left_out, crate::proofs::NamedLaws::told_answers))]
fn answer(alloc: Global, tokens: &[Token]) -> Result<RawProgram, ParseFault>
    requires { 0 < length tokens.now }
    ensures exact { Answers tokens.now (reading.program 100 tokens.now) result }
    ensures line { HasLine tokens.now result }
{
    match read(alloc, tokens) {
        Ok(all) => match first_told(tokens) {
            Some(at) => Err(left_out_at(alloc, tokens, at)),
            None => Ok(all),
        },
        Err(Stop::Memory) => Err(ParseFault::NoMemory),
        Err(Stop::Syntax(left)) => Err(refused(alloc, tokens, left)),
        Err(Stop::Deep(left)) => Err(ParseFault::Nesting(line_at(tokens, left))),
    }
}

/// What is answered for any tokens. Where there is none, the tree has no items.
fn answered(alloc: Global, tokens: &[Token]) -> Result<RawProgram, ParseFault>
    ensures exact { Answers tokens.now (reading.program 100 tokens.now) result }
    ensures line { HasLine tokens.now result }
{
    if tokens.is_empty() {
        return Ok(RawProgram {
            items: Items::new(alloc),
        });
    }
    answer(alloc, tokens)
}

/// The tree of a text's tokens (ISO C99 6.5 to 6.9).
///
/// It is given exactly where the tokens are in the grammar, which means that they have a tree and hold no
/// construct that the language leaves out, and nest at most 100 deep. Each fault has its cause: `LeftOut`
/// names a token that begins a left-out construct, `Syntax` says that there is no tree, and `Nesting` that
/// more than 100 tokens can nest; tokens in the grammar get it exactly where they nest deeper than 100.
#[tactic(auto, using(crate::proofs::ParserLaws::right, crate::proofs::ParserLaws::accepted, crate::proofs::ParserLaws::deep, crate::proofs::ParserLaws::only))]
pub fn parse(alloc: Global, tokens: &[Token]) -> Result<RawProgram, ParseFault>
    ensures right { IsRight tokens.now 100 result }
    ensures accepted { (all : RawProgram) → IsProgram tokens.now all → IsInGrammar tokens.now → program_nesting all ≤ 100 → Gives all result }
    ensures deep { (all : RawProgram) → IsProgram tokens.now all → IsInGrammar tokens.now → 100 < program_nesting all → IsTooDeep result }
    // No tokens have two trees.
    ensures only { IfOk result (λ found. (all : RawProgram) → IsProgram tokens.now all → found ≡ all) }
    // Of the constructs, the one is named because of which reading stopped, and where none is, the line is the one in
    // which it stopped.
    ensures exact { Answers tokens.now (reading.program 100 tokens.now) result }
    // The line of a fault is that of a token.
    ensures line { HasLine tokens.now result }
{
    answered(alloc, tokens)
}
