//! What stands around a token.
ghost use Rattle.std.specs.Prelude.{◌≡◌, ◌≤◌, ◌<◌, ◌==◌, ◌+◌, ◌-◌, ◌^◌, not, ◌&&◌, ◌||◌, length, codes};
ghost use Rattle.std.specs.List.{list_any};
ghost use Rattle.std.specs.Str.{bytes_eq};
ghost use Rattle.c_language.specs.Sees as language;
ghost use Rattle.c_language.specs.IntWords as words;
ghost use Rattle.c_language.specs.LeftOut as grammar;
ghost use Rattle.c_parse_left_out.specs.Around as spec;

use crate::neighbours::Neighbours;
use crate::telling::braces_behind;
use c_language::{Token, TokenKind};
use c_parse_words::is_token;

fn is_mark(token: &Token, text: &[u8]) -> bool
    ensures { result ≡ language.is_token TokenKind.Mark text.now token.now }
{
    is_token(token, TokenKind::Mark, text)
}

/// Whether a token is `(`, `[` or `{`.
pub fn is_opening(token: &Token) -> bool
    ensures { result ≡ grammar.is_opening token.now }
{
    let text = token.text.bytes();
    token.kind == TokenKind::Mark
        && (text == b"(".as_slice() || text == b"[".as_slice() || text == b"{".as_slice())
}

/// Whether a token is `)`, `]` or `}`.
pub fn is_closing(token: &Token) -> bool
    ensures { result ≡ grammar.is_closing token.now }
{
    let text = token.text.bytes();
    token.kind == TokenKind::Mark
        && (text == b")".as_slice() || text == b"]".as_slice() || text == b"}".as_slice())
}

/// Whether a word is one of those of the integer types.
fn is_word_of_integers(word: &[u8]) -> bool
    ensures { result ≡ words.is_int_word word.now }
{
    word == b"char".as_slice()
        || word == b"short".as_slice()
        || word == b"int".as_slice()
        || word == b"long".as_slice()
        || word == b"signed".as_slice()
        || word == b"unsigned".as_slice()
}

/// Whether a word of an integer type stands here.
pub fn is_int_word(token: &Token) -> bool
    ensures { result ≡ (language.is_kind TokenKind.Name token.now && words.is_int_word token.now.text) }
{
    token.kind == TokenKind::Name && is_word_of_integers(token.text.bytes())
}

/// The innermost bracket that is open, and the tokens before it.
#[tactic(auto, unfolding(c_language::specs::LeftOut::innermost))]
pub fn innermost<'a>(before: &Neighbours<'a>) -> Neighbours<'a>
    ensures value { result ≡ grammar.innermost 0 before.now }
    ensures short { length result ≤ length before.now }
{
    let mut closed: usize = 0;
    for at in 0..before.len() {
        let Some(token) = before.get(at) else {
            return before.from(at);
        };
        if is_closing(token) {
            closed += 1;
        } else if is_opening(token) {
            if closed == 0 {
                return before.from(at);
            }
            closed -= 1;
        }
    }
    before.from(before.len())
}

/// What stands behind the bracket that closes the one before these tokens.
#[tactic(auto, unfolding(c_language::specs::LeftOut::outside))]
pub fn outside<'a>(behind: &Neighbours<'a>) -> Neighbours<'a>
    ensures { result ≡ grammar.outside 0 behind.now }
{
    let mut opened: usize = 0;
    for at in 0..behind.len() {
        let Some(token) = behind.get(at) else {
            return behind.from(at);
        };
        if is_opening(token) {
            opened += 1;
        } else if is_closing(token) {
            if opened == 0 {
                return behind.from(at + 1);
            }
            opened -= 1;
        }
    }
    behind.from(behind.len())
}

/// The tokens without the stars in front.
#[tactic(auto, unfolding(c_language::specs::LeftOut::behind_stars))]
pub fn behind_stars<'a>(side: &Neighbours<'a>) -> Neighbours<'a>
    ensures { result ≡ grammar.behind_stars side.now }
{
    for at in 0..side.len() {
        let Some(token) = side.get(at) else {
            return side.from(at);
        };
        if !is_mark(token, b"*") {
            return side.from(at);
        }
    }
    side.from(side.len())
}

/// The tokens without the words of an integer type in front.
#[tactic(auto, unfolding(c_language::specs::LeftOut::behind_words))]
pub fn behind_words<'a>(before: &Neighbours<'a>) -> Neighbours<'a>
    ensures { result ≡ grammar.behind_words before.now }
{
    for at in 0..before.len() {
        let Some(token) = before.get(at) else {
            return before.from(at);
        };
        if !is_int_word(token) {
            return before.from(at);
        }
    }
    before.from(before.len())
}

/// Whether `long` is among the words of an integer type.
#[tactic(auto, unfolding(c_language::specs::LeftOut::holds_long))]
pub fn holds_long(before: &Neighbours<'_>) -> bool
    ensures { result ≡ grammar.holds_long before.now }
{
    for at in 0..before.len() {
        let Some(token) = before.get(at) else {
            return false;
        };
        if is_token(token, TokenKind::Name, b"long") {
            return true;
        }
        if !is_int_word(token) {
            return false;
        }
    }
    false
}

/// Whether the first semicolon has another one behind it.
#[tactic(auto, unfolding(c_language::specs::LeftOut::behind_semicolon, c_language::specs::Sees::sees))]
pub fn doubles_semicolon(behind: &Neighbours<'_>) -> bool
    ensures { result ≡ language.sees TokenKind.Mark (codes ";") (grammar.behind_semicolon behind.now) }
{
    for at in 0..behind.len() {
        let Some(token) = behind.get(at) else {
            return false;
        };
        if is_mark(token, b";") {
            return behind.has(at + 1, TokenKind::Mark, b";");
        }
    }
    false
}

/// Whether a brace is open.
#[tactic(auto, unfolding(c_language::specs::LeftOut::open_braces))]
pub fn has_open_brace(before: &Neighbours<'_>) -> bool
    ensures { result ≡ not (grammar.open_braces before.now == 0) }
{
    let mut braces: usize = 0;
    for turn in 0..before.len() {
        let Some(token) = before.far(turn) else {
            return false;
        };
        braces = braces_behind(token, braces);
    }
    braces != 0
}

#[tactic(auto, unfolding(c_language::specs::LeftOut::owes_colon))]
fn owes_colon(token: &Token) -> bool
    ensures { result ≡ grammar.owes_colon token.now }
{
    is_mark(token, b"?")
        || is_token(token, TokenKind::Name, b"case")
        || is_token(token, TokenKind::Name, b"default")
}

#[tactic(auto, unfolding(c_language::specs::LeftOut::ends_statement))]
fn ends_statement(token: &Token) -> bool
    ensures { result ≡ grammar.ends_statement token.now }
{
    is_mark(token, b";") || is_mark(token, b"{") || is_mark(token, b"}")
}

/// How many colons are owed behind a token, where so many were before it.
fn owed_behind(token: &Token, owed: usize) -> usize
    requires { owed + 1 < 2 ^ 64 }
    ensures value { result ≡ spec.owed_behind token.now owed }
    ensures few { result ≤ owed + 1 }
{
    if owes_colon(token) {
        owed + 1
    } else if is_mark(token, b":") {
        owed.saturating_sub(1)
    } else if ends_statement(token) {
        0
    } else {
        owed
    }
}

/// Whether no colon is still to come in this statement.
#[tactic(auto, unfolding(c_language::specs::LeftOut::owed_colons))]
pub fn owes_no_colon(before: &Neighbours<'_>) -> bool
    ensures { result ≡ (grammar.owed_colons before.now == 0) }
{
    let mut owed: usize = 0;
    for turn in 0..before.len() {
        let Some(token) = before.far(turn) else {
            return false;
        };
        owed = owed_behind(token, owed);
    }
    owed == 0
}

/// What is looked for in a statement, back from a token.
#[derive(Debug, Clone, Copy, PartialEq, Eq)]
pub enum Sought {
    /// A side effect or return, behind the nearest comma.
    Effect,
    /// A word of a type.
    TypeWord,
    /// The word `case`, whose colon isn't passed.
    Case,
}

fn is_early_assignment_sign(text: &[u8]) -> bool
    ensures { result ≡ list_any (bytes_eq text.now) spec.early_assignment_signs }
{
    text == b"=".as_slice()
        || text == b"+=".as_slice()
        || text == b"-=".as_slice()
        || text == b"*=".as_slice()
        || text == b"/=".as_slice()
        || text == b"%=".as_slice()
}

fn is_late_assignment_sign(text: &[u8]) -> bool
    ensures { result ≡ list_any (bytes_eq text.now) spec.late_assignment_signs }
{
    text == b"&=".as_slice()
        || text == b"|=".as_slice()
        || text == b"^=".as_slice()
        || text == b"<<=".as_slice()
        || text == b">>=".as_slice()
}

/// Whether a mark is the operator of an assignment (ISO C99 6.5.16).
#[tactic(auto, unfolding(c_language::specs::LeftOut::is_assignment_sign))]
pub fn is_assignment_sign(text: &[u8]) -> bool
    ensures { result ≡ grammar.is_assignment_sign text.now }
{
    is_early_assignment_sign(text) || is_late_assignment_sign(text)
}

/// Whether a mark is `++` or `--`.
pub fn is_bump_sign(text: &[u8]) -> bool
    ensures { result ≡ grammar.is_bump_sign text.now }
{
    text == b"++".as_slice() || text == b"--".as_slice()
}

#[tactic(auto, unfolding(c_language::specs::LeftOut::is_effect))]
fn is_effect(token: &Token) -> bool
    ensures { result ≡ grammar.is_effect token.now }
{
    let text = token.text.bytes();
    (token.kind == TokenKind::Mark && (is_assignment_sign(text) || is_bump_sign(text)))
        || is_token(token, TokenKind::Name, b"return")
}

#[tactic(auto, unfolding(c_language::specs::LeftOut::is_type_word))]
fn is_type_word(token: &Token) -> bool
    ensures { result ≡ grammar.is_type_word token.now }
{
    is_int_word(token)
        || is_token(token, TokenKind::Name, b"struct")
        || is_token(token, TokenKind::Name, b"void")
}

#[tactic(auto, unfolding(c_language::specs::LeftOut::is_case))]
fn is_sought(token: &Token, sought: Sought) -> bool
    ensures { result ≡ spec.found_by sought token.now }
{
    match sought {
        Sought::Effect => is_effect(token),
        Sought::TypeWord => is_type_word(token),
        Sought::Case => is_token(token, TokenKind::Name, b"case"),
    }
}

#[tactic(auto, unfolding(c_language::specs::LeftOut::ends_effect, c_language::specs::LeftOut::ends_declaration, c_language::specs::LeftOut::ends_label))]
fn ends_search(token: &Token, sought: Sought) -> bool
    ensures { result ≡ spec.ended_by sought token.now }
{
    match sought {
        Sought::Effect => is_mark(token, b";") || is_mark(token, b","),
        Sought::TypeWord => is_mark(token, b";"),
        Sought::Case => is_mark(token, b":") || is_mark(token, b";"),
    }
}

/// How many brackets are closed behind a token, where so many were before it.
fn closed_behind(token: &Token, closed: usize) -> usize
    requires { closed + 1 < 2 ^ 64 }
    ensures value { result ≡ spec.closed_behind token.now closed }
    ensures few { result ≤ closed + 1 }
{
    if is_closing(token) {
        closed + 1
    } else if is_opening(token) {
        closed.saturating_sub(1)
    } else {
        closed
    }
}

/// Whether a search back through a statement ends at a token.
fn stops(token: &Token, sought: Sought, closed: usize) -> bool
    ensures { result ≡ spec.stops (spec.found_by sought) (spec.ended_by sought) closed token.now }
{
    if is_closing(token) {
        return closed == 0 && is_mark(token, b"}");
    }
    closed == 0 && (is_opening(token) || is_sought(token, sought) || ends_search(token, sought))
}

/// Whether a search that ends at a token has found it.
fn finds(token: &Token, sought: Sought) -> bool
    ensures { result ≡ spec.finds (spec.found_by sought) token.now }
{
    !is_closing(token) && !is_opening(token) && is_sought(token, sought)
}

/// Whether what is sought stands before this in its statement, outside brackets that are closed.
#[tactic(auto, unfolding(c_language::specs::LeftOut::stands_here))]
pub fn stands_here(before: &Neighbours<'_>, sought: Sought) -> bool
    ensures { result ≡ grammar.stands_here (spec.found_by sought) (spec.ended_by sought) 0 before.now }
{
    let mut closed: usize = 0;
    for at in 0..before.len() {
        let Some(token) = before.get(at) else {
            return false;
        };
        if stops(token, sought, closed) {
            return finds(token, sought);
        }
        closed = closed_behind(token, closed);
    }
    false
}
