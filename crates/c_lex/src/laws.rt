//! Laws of tokens: each is the longest at its place, and with the space between them they are the whole text.
ghost use Rattle.c_lex.specs.Laws.{TokensAreLongest, TokensAreSpread};

/// A law: a token is the longest that stands at its place and has the form of its kind (ISO C99 6.4,
/// paragraph 4).
pub fn tokens_are_longest()
    ensures { TokensAreLongest }
{}

/// A law: the tokens of a text, with the space between them, are its bytes in order, and each has the
/// line on which it begins.
pub fn tokens_are_spread()
    ensures { TokensAreSpread }
{}
