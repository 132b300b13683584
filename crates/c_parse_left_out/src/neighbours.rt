//! The tokens on one side of a token.
ghost use Rattle.std.specs.Prelude.{◌≡◌, ◌<◌, ◌-◌, slice_get, length, drop};
ghost use Rattle.std.specs.Option.{option_copied};
ghost use Rattle.c_language.specs.Sees as language;
ghost use Rattle.c_language.specs.LeftOut as grammar;

use c_language::{Token, TokenKind};
use c_parse_words::{is_keyword, is_token};
use std::marker::Model;

/// The tokens on one side of a token, the nearest first.
#[derive(Drop)]
pub struct Neighbours<'a> {
    tokens: &'a [Token],
    are_before: bool,
}

impl<'a> Model for Neighbours<'a> {
    ghost use Rattle.std.specs.Prelude.{reverse, if◌then◌else◌};
    ghost use Rattle.c_language.specs.TokenForms.{Tokens};

    ghost Value = { Tokens };

    ghost view = { λ s. if s.are_before then reverse s.tokens.now else s.tokens.now };
}

impl<'a> Neighbours<'a> {
    ghost use Rattle.std.specs.Prelude.{reverse};

    /// The tokens before a token, these being all of them in text order.
    pub fn before(tokens: &'a [Token]) -> Neighbours<'a>
        ensures { result ≡ reverse tokens.now }
    {
        Neighbours {
            tokens,
            are_before: true,
        }
    }

    /// The tokens behind a token, these being all of them in text order.
    pub fn behind(tokens: &'a [Token]) -> Neighbours<'a>
        ensures { result ≡ tokens.now }
    {
        Neighbours {
            tokens,
            are_before: false,
        }
    }

    /// How many tokens there are on this side.
    pub fn len(&self) -> usize
        ensures { result ≡ length self.now }
    {
        self.tokens.len()
    }

    /// The token at a place, counted from the nearest one.
    pub fn get(&self, at: usize) -> Option<&'a Token>
        ensures { option_copied result ≡ slice_get self.now at }
    {
        if !self.are_before {
            return self.tokens.get(at);
        }
        if at < self.tokens.len() {
            self.tokens.get(self.tokens.len() - 1 - at)
        } else {
            None
        }
    }

    /// The token at a place, counted from the farthest one.
    pub fn far(&self, turn: usize) -> Option<&'a Token>
        requires { turn < length self.now }
        ensures { option_copied result ≡ slice_get self.now (length self.now - 1 - turn) }
    {
        self.get(self.len() - 1 - turn)
    }

    /// The tokens from a place on.
    pub fn from(&self, at: usize) -> Neighbours<'a>
        ensures { result ≡ drop at self.now }
    {
        let tokens = self.tokens;
        if at >= tokens.len() {
            return Neighbours::behind(&[]);
        }
        if self.are_before {
            Neighbours::before(tokens.split_at(tokens.len() - at).0)
        } else {
            Neighbours::behind(tokens.split_at(at).1)
        }
    }

    /// Whether the token at a place is this one.
    pub fn has(&self, at: usize, kind: TokenKind, text: &[u8]) -> bool
        ensures { result ≡ language.is_some_token kind text.now (slice_get self.now at) }
    {
        match self.get(at) {
            Some(token) => is_token(token, kind, text),
            None => false,
        }
    }

    /// Whether a name or a keyword stands at a place.
    pub fn has_word(&self, at: usize) -> bool
        ensures { result ≡ grammar.is_some_kind TokenKind.Name (slice_get self.now at) }
    {
        match self.get(at) {
            Some(token) => token.kind == TokenKind::Name,
            None => false,
        }
    }

    /// Whether a name that is no keyword stands at a place.
    pub fn has_name(&self, at: usize) -> bool
        ensures { result ≡ language.is_some_name (slice_get self.now at) }
    {
        match self.get(at) {
            Some(token) => token.kind == TokenKind::Name && !is_keyword(token.text.bytes()),
            None => false,
        }
    }
}
