//! Finds the first token that begins a construct which the language leaves out, where that token and those around
//! it tell so.
ghost use Rattle.std.specs.Prelude.{◌≡◌, ◌≤◌, ◌<◌, ◌==◌, ◌||◌, ◌&&◌, reverse, slice_get, take, drop, [], ◌∷◌, ◌+◌, ◌^◌};
ghost use Rattle.std.specs.List.{list_any};
ghost use Rattle.std.specs.Str.{bytes_eq};
ghost use Rattle.c_language.specs.TokenForms.{Tokens};
ghost use Rattle.c_language.specs.Sees as language;
ghost use Rattle.c_language.specs.LeftOut as grammar;
ghost use Rattle.c_parse_left_out.specs.Telling as spec;

use c_language::{Token, TokenKind};
use c_parse_words::is_token;

/// Whether the token at a place is this one.
fn stands_at(tokens: &[Token], at: usize, kind: TokenKind, text: &[u8]) -> bool
    ensures { result ≡ language.is_some_token kind text.now (slice_get tokens.now at) }
{
    match tokens.get(at) {
        Some(token) => is_token(token, kind, text),
        None => false,
    }
}

/// Whether a name or a keyword stands at a place.
fn word_at(tokens: &[Token], at: usize) -> bool
    ensures { result ≡ grammar.is_some_kind TokenKind.Name (slice_get tokens.now at) }
{
    match tokens.get(at) {
        Some(token) => token.kind == TokenKind::Name,
        None => false,
    }
}

/// Whether the token at a place, counted back from the last one, is this one.
fn stood_at(tokens: &[Token], back: usize, kind: TokenKind, text: &[u8]) -> bool
    ensures { result ≡ language.is_some_token kind text.now (slice_get (reverse tokens.now) back) }
{
    if back < tokens.len() {
        stands_at(tokens, tokens.len() - 1 - back, kind, text)
    } else {
        false
    }
}

fn is_early_left_out_word(word: &[u8]) -> bool
    ensures { result ≡ list_any (bytes_eq word.now) (take 8 grammar.left_out_words) }
{
    word == b"goto".as_slice()
        || word == b"continue".as_slice()
        || word == b"typedef".as_slice()
        || word == b"enum".as_slice()
        || word == b"union".as_slice()
        || word == b"float".as_slice()
        || word == b"double".as_slice()
        || word == b"_Bool".as_slice()
}

fn is_late_left_out_word(word: &[u8]) -> bool
    ensures { result ≡ list_any (bytes_eq word.now) (drop 8 grammar.left_out_words) }
{
    word == b"const".as_slice()
        || word == b"volatile".as_slice()
        || word == b"restrict".as_slice()
        || word == b"extern".as_slice()
        || word == b"register".as_slice()
        || word == b"auto".as_slice()
        || word == b"inline".as_slice()
}

/// Whether a word begins a construct wherever it stands.
#[tactic(auto, unfolding(c_language::specs::LeftOut::is_left_out_word))]
fn is_left_out_word(word: &[u8]) -> bool
    ensures { result ≡ grammar.is_left_out_word word.now }
{
    is_early_left_out_word(word) || is_late_left_out_word(word)
}

/// What stands behind the first semicolon.
#[tactic(auto, unfolding(c_language::specs::LeftOut::behind_semicolon))]
fn behind_semicolon(tokens: &[Token]) -> &[Token]
    ensures { result.now ≡ grammar.behind_semicolon tokens.now }
{
    for at in 0..tokens.len() {
        let (_, rest) = tokens.split_at(at);
        let Some((token, behind)) = rest.split_first() else {
            return rest;
        };
        if is_token(token, TokenKind::Mark, b";") {
            return behind;
        }
    }
    &[]
}

/// Whether a statement behind these tokens stands in its list by itself.
#[tactic(auto, unfolding(c_language::specs::LeftOut::stands_in_list, c_language::specs::Sees::sees))]
fn stands_in_list(before: &[Token]) -> bool
    ensures { result ≡ grammar.stands_in_list (reverse before.now) }
{
    stood_at(before, 0, TokenKind::Mark, b";")
        || stood_at(before, 0, TokenKind::Mark, b"{")
        || stood_at(before, 0, TokenKind::Mark, b"}")
}

/// Whether a label may follow these tokens.
#[tactic(auto, unfolding(c_language::specs::LeftOut::begins_label, c_language::specs::Sees::sees, c_language::specs::Sees::sees_second))]
fn begins_label(before: &[Token]) -> bool
    ensures { result ≡ grammar.begins_label (reverse before.now) }
{
    stood_at(before, 0, TokenKind::Mark, b"{")
        || stood_at(before, 0, TokenKind::Mark, b":")
        || (stood_at(before, 0, TokenKind::Mark, b";")
            && stood_at(before, 1, TokenKind::Name, b"break"))
}

/// Whether the first argument of `printf` follows these tokens.
#[tactic(auto, unfolding(c_language::specs::LeftOut::begins_format, c_language::specs::Sees::sees, c_language::specs::Sees::sees_second))]
fn begins_format(before: &[Token]) -> bool
    ensures { result ≡ grammar.begins_format (reverse before.now) }
{
    stood_at(before, 0, TokenKind::Mark, b"(") && stood_at(before, 1, TokenKind::Name, b"printf")
}

/// Whether a parameter may begin behind these tokens.
#[tactic(auto, unfolding(c_language::specs::LeftOut::begins_param, c_language::specs::Sees::sees, c_language::specs::Sees::sees_second))]
fn begins_param(before: &[Token]) -> bool
    ensures { result ≡ grammar.begins_param (reverse before.now) }
{
    stood_at(before, 0, TokenKind::Mark, b",")
        || (stood_at(before, 0, TokenKind::Mark, b"(")
            && !stood_at(before, 1, TokenKind::Name, b"sizeof"))
}

/// Whether a tag, the name of a function and its parenthesis follow.
#[tactic(auto, unfolding(c_language::specs::LeftOut::names_function))]
fn names_function(behind: &[Token]) -> bool
    ensures { result ≡ grammar.names_function behind.now }
{
    word_at(behind, 0) && word_at(behind, 1) && stands_at(behind, 2, TokenKind::Mark, b"(")
}

/// Whether a parameter ends at a place.
fn ends_param(tokens: &[Token], at: usize) -> bool
    ensures { result ≡ grammar.ends_param (slice_get tokens.now at) }
{
    stands_at(tokens, at, TokenKind::Mark, b",") || stands_at(tokens, at, TokenKind::Mark, b")")
}

/// Whether a tag, a name or none, and the end of a parameter follow.
#[tactic(auto, unfolding(c_language::specs::LeftOut::names_param))]
fn names_param(behind: &[Token]) -> bool
    ensures { result ≡ grammar.names_param behind.now }
{
    word_at(behind, 0) && (ends_param(behind, 1) || (word_at(behind, 1) && ends_param(behind, 2)))
}

/// Whether a return behind these tokens is the last statement of its function, where so many braces are
/// open there and this stands behind its semicolon.
#[tactic(auto, unfolding(c_language::specs::LeftOut::ends_function, c_language::specs::Sees::sees))]
fn ends_function(before: &[Token], open_braces: usize, after: &[Token]) -> bool
    ensures { (behind : Tokens) → open_braces ≡ grammar.open_braces (reverse before.now) → after.now ≡ grammar.behind_semicolon behind → result ≡ grammar.ends_function (reverse before.now) behind }
{
    open_braces == 1 && stands_in_list(before) && stands_at(after, 0, TokenKind::Mark, b"}")
}

/// Whether a struct is passed or returned between these tokens, where so many braces are open.
fn passes_struct(before: &[Token], behind: &[Token], open_braces: usize) -> bool
    ensures { result ≡ (grammar.names_function behind.now || ((open_braces == 0) && (grammar.begins_param (reverse before.now) && grammar.names_param behind.now))) }
{
    names_function(behind) || (open_braces == 0 && begins_param(before) && names_param(behind))
}

/// Whether a word begins a construct between these tokens, where so many braces are open and `after` is
/// what stands behind the next semicolon.
#[tactic(auto, unfolding(crate::specs::Telling::told_word))]
fn is_told_word(
    word: &[u8],
    before: &[Token],
    behind: &[Token],
    open_braces: usize,
    after: &[Token],
) -> bool
    requires braces { open_braces ≡ grammar.open_braces (reverse before.now) }
    requires after { after.now ≡ grammar.behind_semicolon behind.now }
    ensures { result ≡ spec.told_word word.now (reverse before.now) behind.now }
{
    if is_left_out_word(word) {
        return true;
    }
    if word == b"return".as_slice() {
        return !ends_function(before, open_braces, after);
    }
    if word == b"case".as_slice() || word == b"default".as_slice() {
        return !begins_label(before);
    }
    if word == b"struct".as_slice() {
        return passes_struct(before, behind, open_braces);
    }
    false
}

/// Whether the token begins a construct between these tokens, where so many braces are open and `after` is
/// what stands behind the next semicolon.
fn is_told(
    before: &[Token],
    token: &Token,
    behind: &[Token],
    open_braces: usize,
    after: &[Token],
) -> bool
    requires braces { open_braces ≡ grammar.open_braces (reverse before.now) }
    requires after { after.now ≡ grammar.behind_semicolon behind.now }
    ensures { result ≡ spec.told (reverse before.now) token.now behind.now }
{
    match token.kind {
        TokenKind::Name => is_told_word(token.text.bytes(), before, behind, open_braces, after),
        TokenKind::Str => !begins_format(before),
        TokenKind::Mark => token.text.bytes() == b"...".as_slice(),
        TokenKind::Directive => true,
        TokenKind::Number | TokenKind::Character | TokenKind::Include => false,
    }
}

/// How many braces are open behind a token, where so many were before it.
pub fn braces_behind(token: &Token, before: usize) -> usize
    requires { before + 1 < 2 ^ 64 }
    ensures value { result ≡ spec.braces_behind token.now before }
    ensures few { result ≤ before + 1 }
{
    if is_token(token, TokenKind::Mark, b"{") {
        before + 1
    } else if is_token(token, TokenKind::Mark, b"}") {
        before.saturating_sub(1)
    } else {
        before
    }
}

/// What stands behind the first semicolon behind a token, where `after` stands behind the first one from
/// the token on. Only at a semicolon is the next one looked for, so that each token is passed once.
fn after_next<'a>(token: &Token, behind: &'a [Token], after: &'a [Token]) -> &'a [Token]
    requires { after.now ≡ grammar.behind_semicolon (token.now ∷ behind.now) }
    ensures { result.now ≡ grammar.behind_semicolon behind.now }
{
    if is_token(token, TokenKind::Mark, b";") {
        behind_semicolon(behind)
    } else {
        after
    }
}

/// Where the first token stands that begins a construct which its tokens tell.
#[tactic(auto, unfolding(crate::specs::Telling::first_told))]
pub fn first_told(tokens: &[Token]) -> Option<usize>
    ensures { result ≡ spec.first_told 0 [] tokens.now }
{
    let mut braces = 0;
    let mut after = behind_semicolon(tokens);
    for at in 0..tokens.len() {
        let (before, rest) = tokens.split_at(at);
        let Some((token, behind)) = rest.split_first() else {
            return None;
        };
        after = after_next(token, behind, after);
        if is_told(before, token, behind, braces, after) {
            return Some(at);
        }
        braces = braces_behind(token, braces);
    }
    None
}
