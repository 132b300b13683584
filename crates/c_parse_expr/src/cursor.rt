//! The place in the tokens up to which a parser has read: what it sees there, and how it goes on or stops.
ghost use Rattle.std.specs.Prelude.{◌≡◌, drop, length, slice_get};
ghost use Rattle.std.specs.Option.{option_copied};
ghost use Rattle.c_language.specs.TokenForms as forms;
ghost use Rattle.c_language.specs.Sees as language;
ghost use Rattle.c_parse_expr.specs.Outcome as spec;
ghost use Rattle.c_parse_expr.specs.Outcome.{Reads};

use crate::fault::Stop;
use c_language::{Text, Token, TokenKind};
use c_parse_words::{is_keyword, is_token};
use std::alloc::Global;
use std::marker::Model;

/// The tokens from a place on.
#[derive(Drop)]
pub struct Cursor<'a> {
    tokens: &'a [Token],
}

impl<'a> Model for Cursor<'a> {
    ghost use Rattle.c_language.specs.TokenForms.{Tokens};

    ghost Value = { Tokens };

    ghost view = { λ c. c.tokens.now };
}

impl<'a> Cursor<'a> {
    /// At the first of these tokens.
    pub fn new(tokens: &'a [Token]) -> Cursor<'a>
        ensures { result ≡ tokens.now }
    {
        Cursor { tokens }
    }

    /// How many tokens are left.
    pub fn left(&self) -> usize
        ensures { result ≡ length self.now }
    {
        self.tokens.len()
    }

    /// The next token, if there is one.
    pub fn first(&self) -> Option<&'a Token>
        ensures { option_copied result ≡ slice_get self.now 0 }
    {
        self.tokens.first()
    }

    /// Whether the next token is of this kind and has this text.
    #[tactic(auto, unfolding(c_language::specs::Sees::sees))]
    pub fn sees(&self, kind: TokenKind, text: &[u8]) -> bool
        ensures { result ≡ language.sees kind text.now self.now }
    {
        match self.tokens.first() {
            Some(token) => is_token(token, kind, text),
            None => false,
        }
    }

    /// Whether the token behind the next one is of this kind and has this text.
    #[tactic(auto, unfolding(c_language::specs::Sees::sees_second))]
    pub fn sees_second(&self, kind: TokenKind, text: &[u8]) -> bool
        ensures { result ≡ language.sees_second kind text.now self.now }
    {
        match self.tokens.get(1) {
            Some(token) => is_token(token, kind, text),
            None => false,
        }
    }

    /// Whether the next token is a name that is no keyword.
    #[tactic(auto, unfolding(c_language::specs::Sees::sees_name))]
    pub fn sees_name(&self) -> bool
        ensures { result ≡ language.sees_name self.now }
    {
        match self.tokens.first() {
            Some(token) => token.kind == TokenKind::Name && !is_keyword(token.text.bytes()),
            None => false,
        }
    }

    /// The same tokens, to look ahead.
    pub fn again(&self) -> Cursor<'a>
        ensures { result ≡ self.now }
    {
        Cursor {
            tokens: self.tokens,
        }
    }

    /// Goes behind the next token, if there is one.
    pub fn skip(&mut self)
        ensures { self.new ≡ drop 1 self.old }
    {
        if let Some((_, rest)) = self.tokens.split_first() {
            self.tokens = rest;
        }
    }

    /// That no tree goes on here.
    pub fn refuse(&self) -> Stop
        ensures { result ≡ Stop.Syntax (length self.now) }
    {
        Stop::Syntax(self.left())
    }

    /// That the tokens nest too deep here.
    pub fn too_deep(&self) -> Stop
        ensures { result ≡ Stop.Deep (length self.now) }
    {
        Stop::Deep(self.left())
    }

    #[tactic(auto, unfolding(crate::specs::Outcome::expect))]
    /// Goes behind a mark, or fails with `Syntax` where the next token isn't that mark.
    pub fn expect(&mut self, text: &[u8]) -> Result<(), Stop>
        ensures { Reads (spec.expect text.now self.old) result self.new }
    {
        if !self.sees(TokenKind::Mark, text) {
            return Err(self.refuse());
        }
        self.skip();
        Ok(())
    }

    /// A name that is no keyword.
    #[tactic(auto, unfolding(crate::specs::Outcome::read_name))]
    pub fn name(&mut self, alloc: Global) -> Result<Text, Stop>
        ensures { Reads (spec.read_name self.old) result self.new }
    {
        let Some(token) = self.first() else {
            return Err(self.refuse());
        };
        if token.kind != TokenKind::Name || is_keyword(token.text.bytes()) {
            return Err(self.refuse());
        }
        let text = token.text.copy(alloc)?;
        self.skip();
        Ok(text)
    }

    /// The line of the first token.
    pub fn line(&self) -> u32
        ensures { result ≡ forms.line_of self.now }
    {
        match self.tokens.first() {
            Some(token) => token.line,
            None => 0,
        }
    }
}
