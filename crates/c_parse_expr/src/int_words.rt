//! Reads an integer type from its words, which may stand in any order.
ghost use Rattle.std.specs.Prelude.{◌≡◌};
ghost use Rattle.c_language.specs.IntWords as language;
ghost use Rattle.c_parse_expr.specs.IntReading as spec;
ghost use Rattle.c_parse_expr.specs.Outcome.{Reads};

use crate::cursor::Cursor;
use crate::fault::Stop;
use c_language::TokenKind;
use c_tree::IntType;

/// A word of an integer type (ISO C99 6.7.2).
#[derive(Clone, Copy, Debug, PartialEq, Eq)]
pub enum IntWord {
    Char,
    Short,
    Int,
    Long,
    Signed,
    Unsigned,
}

/// How wide an integer type is said to be.
#[derive(Clone, Copy, Debug, PartialEq, Eq)]
pub enum Width {
    Char,
    Short,
    Long,
}

/// Whether an integer type is said to be signed.
#[derive(Clone, Copy, Debug, PartialEq, Eq)]
pub enum Signedness {
    Signed,
    Unsigned,
}

/// What the words that were read say of an integer type.
#[derive(Clone, Copy, Debug, PartialEq, Eq)]
pub struct IntWords {
    /// What was said of the width, if anything was.
    pub width: Option<Width>,
    /// What was said of the sign, if anything was.
    pub signedness: Option<Signedness>,
    /// Whether `int` was read.
    pub has_int: bool,
}

#[tactic(auto, unfolding(crate::specs::IntReading::word_by))]
fn word_by(word: &[u8]) -> Option<IntWord>
    ensures { result ≡ spec.word_by word.now }
{
    if word == b"char".as_slice() {
        Some(IntWord::Char)
    } else if word == b"short".as_slice() {
        Some(IntWord::Short)
    } else if word == b"int".as_slice() {
        Some(IntWord::Int)
    } else if word == b"long".as_slice() {
        Some(IntWord::Long)
    } else if word == b"signed".as_slice() {
        Some(IntWord::Signed)
    } else if word == b"unsigned".as_slice() {
        Some(IntWord::Unsigned)
    } else {
        None
    }
}

#[tactic(auto, unfolding(crate::specs::IntReading::next_word))]
fn next_word(tokens: &Cursor<'_>) -> Option<IntWord>
    ensures { result ≡ spec.next_word tokens.now }
{
    match tokens.first() {
        Some(token) if token.kind == TokenKind::Name => word_by(token.text.bytes()),
        _ => None,
    }
}

/// Whether a word of an integer type is in front.
#[tactic(auto, using(crate::proofs::IntLaws::word_seen))]
pub fn sees_int_word(tokens: &Cursor<'_>) -> bool
    ensures { result ≡ language.sees_int_word tokens.now }
{
    next_word(tokens).is_some()
}

impl IntWords {
    #[tactic(auto, unfolding(crate::specs::IntReading::with_word))]
    fn with_width(self, width: Width) -> Option<IntWords>
        ensures { result ≡ spec.with_width width self.width self }
    {
        if self.width.is_some() {
            return None;
        }
        Some(IntWords {
            width: Some(width),
            ..self
        })
    }

    fn with_signedness(self, signedness: Signedness) -> Option<IntWords>
        ensures { result ≡ spec.with_signedness signedness self.signedness self }
    {
        if self.signedness.is_some() {
            return None;
        }
        Some(IntWords {
            signedness: Some(signedness),
            ..self
        })
    }

    /// With one more word, where it may stand beside those that were read.
    #[tactic(auto, unfolding(crate::specs::IntReading::with_word))]
    fn with_word(self, word: IntWord) -> Option<IntWords>
        ensures { result ≡ spec.with_word self word }
    {
        match word {
            IntWord::Char => self.with_width(Width::Char),
            IntWord::Short => self.with_width(Width::Short),
            IntWord::Long => self.with_width(Width::Long),
            IntWord::Signed => self.with_signedness(Signedness::Signed),
            IntWord::Unsigned => self.with_signedness(Signedness::Unsigned),
            IntWord::Int if self.has_int => None,
            IntWord::Int => Some(IntWords {
                has_int: true,
                ..self
            }),
        }
    }

    /// The type that the words name.
    #[tactic(auto, unfolding(crate::specs::IntReading::type_of_words))]
    fn type_of_words(self) -> Option<IntType>
        ensures { result ≡ spec.type_of_words self }
    {
        let is_unsigned = matches!(self.signedness, Some(Signedness::Unsigned));
        match (self.width, is_unsigned) {
            (None, true) => Some(IntType::UInt),
            (None, false) if self.has_int || self.signedness.is_some() => Some(IntType::Int),
            (None, false) => None,
            (Some(Width::Char), _) if self.has_int => None,
            (Some(Width::Char), true) => Some(IntType::UChar),
            (Some(Width::Char), false) => Some(IntType::Char),
            (Some(Width::Short), true) => Some(IntType::UShort),
            (Some(Width::Short), false) => Some(IntType::Short),
            (Some(Width::Long), true) => Some(IntType::ULong),
            (Some(Width::Long), false) => Some(IntType::Long),
        }
    }
}

/// All the words at the front, of which no type has more than three.
#[tactic(auto, unfolding(crate::specs::IntReading::words_from))]
fn words_from(tokens: &mut Cursor<'_>, words: IntWords) -> Result<IntWords, Stop>
    ensures { Reads (spec.words_from words tokens.old) result tokens.new }
{
    let Some(word) = next_word(tokens) else {
        return Ok(words);
    };
    let Some(more) = words.with_word(word) else {
        return Err(tokens.refuse());
    };
    tokens.skip();
    words_from(tokens, more)
}

/// An integer type, by all of its words in any order.
#[tactic(auto, unfolding(crate::specs::IntReading::int_type_name))]
pub fn int_type_name(tokens: &mut Cursor<'_>) -> Result<IntType, Stop>
    ensures { Reads (spec.int_type_name tokens.old) result tokens.new }
{
    let none = IntWords {
        width: None,
        signedness: None,
        has_int: false,
    };
    let words = words_from(tokens, none)?;
    match words.type_of_words() {
        Some(named) => Ok(named),
        None => Err(tokens.refuse()),
    }
}
