//! Which words are keywords, so that no name can be one of them.
ghost use Rattle.std.specs.Prelude.{◌≡◌, take, drop};
ghost use Rattle.std.specs.List.{list_any};
ghost use Rattle.std.specs.Str.{bytes_eq};
ghost use Rattle.c_language.specs.Keywords.{keywords};
ghost use Rattle.c_language.specs.Sees as sees;

fn is_early_keyword(word: &[u8]) -> bool
    ensures { result ≡ list_any (bytes_eq word.now) (take 12 keywords) }
{
    word == b"auto".as_slice()
        || word == b"break".as_slice()
        || word == b"case".as_slice()
        || word == b"char".as_slice()
        || word == b"const".as_slice()
        || word == b"continue".as_slice()
        || word == b"default".as_slice()
        || word == b"do".as_slice()
        || word == b"double".as_slice()
        || word == b"else".as_slice()
        || word == b"enum".as_slice()
        || word == b"extern".as_slice()
}

fn is_middle_keyword(word: &[u8]) -> bool
    ensures { result ≡ list_any (bytes_eq word.now) (take 12 (drop 12 keywords)) }
{
    word == b"float".as_slice()
        || word == b"for".as_slice()
        || word == b"goto".as_slice()
        || word == b"if".as_slice()
        || word == b"inline".as_slice()
        || word == b"int".as_slice()
        || word == b"long".as_slice()
        || word == b"register".as_slice()
        || word == b"restrict".as_slice()
        || word == b"return".as_slice()
        || word == b"short".as_slice()
        || word == b"signed".as_slice()
}

fn is_late_keyword(word: &[u8]) -> bool
    ensures { result ≡ list_any (bytes_eq word.now) (drop 24 keywords) }
{
    word == b"sizeof".as_slice()
        || word == b"static".as_slice()
        || word == b"struct".as_slice()
        || word == b"switch".as_slice()
        || word == b"typedef".as_slice()
        || word == b"union".as_slice()
        || word == b"unsigned".as_slice()
        || word == b"void".as_slice()
        || word == b"volatile".as_slice()
        || word == b"while".as_slice()
        || word == b"_Bool".as_slice()
        || word == b"_Complex".as_slice()
        || word == b"_Imaginary".as_slice()
}

/// Whether a word is a keyword (ISO C99 6.4.1).
#[tactic(auto, unfolding(c_language::specs::Sees::is_keyword))]
pub fn is_keyword(word: &[u8]) -> bool
    ensures { result ≡ sees.is_keyword word.now }
{
    is_early_keyword(word) || is_middle_keyword(word) || is_late_keyword(word)
}
