//! The next piece of a text: white space, a comment, a token, or what no text may hold.
ghost use Rattle.std.specs.Prelude.{◌≡◌, ◌≤◌, ◌<◌, ◌^◌, length, drop};
ghost use Rattle.c_language.specs.Tokens as tokens;
ghost use Rattle.c_lex.specs.Scanning as spec;
ghost use Rattle.c_lex.specs.declared.literal.Stage.TheVariants.{Inside};

use crate::bytes::{behind, byte_at, front, is_blank, is_digit, is_letter, line_len};
use crate::line::{behind_gap, header_from, header_len};
use crate::literal::{character_len, literal_len};
use crate::mark::mark_len;
use crate::number::is_constant;
use crate::place::{Sought, first_place};
use crate::word::{name_len, number_len};
use c_language::{Before, TokenKind};

/// What stands at the front of some bytes.
#[derive(Clone, Copy, Debug, PartialEq, Eq)]
pub enum Piece {
    /// White space or a comment of so many bytes.
    Space(usize),
    /// A token of so many bytes of its own. Its text begins at a place among them.
    Token {
        kind: TokenKind,
        len: usize,
        text_at: usize,
        text_len: usize,
    },
    /// A comment in which a `*` and a `/` are split; the `*` stands at this place.
    SplitEnd(usize),
    /// A comment that isn't closed.
    Open,
    /// A number that is no constant.
    BadNumber,
    /// Nothing that a text may hold.
    BadByte,
}

/// A token whose text is its own bytes.
fn whole(kind: TokenKind, len: usize) -> Piece
    ensures { result ≡ spec.whole kind len }
{
    Piece::Token {
        kind,
        len,
        text_at: 0,
        text_len: len,
    }
}

/// The same, where it has any bytes.
fn sized(kind: TokenKind, len: usize) -> Piece
    ensures { result ≡ spec.sized kind len }
{
    if len > 0 {
        whole(kind, len)
    } else {
        Piece::BadByte
    }
}

/// A `/*` comment.
fn comment_piece(bytes: &[u8]) -> Piece
    requires begun { 2 ≤ length bytes.now }
    requires fits { length bytes.now < 2 ^ 32 }
    ensures { result ≡ spec.comment_piece bytes.now (spec.first_place spec.is_end (drop 2 bytes.now)) }
{
    let Some(len) = first_place(Sought::End, behind(bytes, 2)) else {
        return Piece::Open;
    };
    match first_place(Sought::Split, front(behind(bytes, 1), len + 1)) {
        Some(at) => Piece::SplitEnd(at + 1),
        None => Piece::Space(len + 4),
    }
}

/// Whether a line feed behind the bytes would be joined to them.
fn joins_next(bytes: &[u8]) -> bool
    ensures { result ≡ tokens.joins_next bytes.now }
{
    bytes.ends_with(b"\\".as_slice()) || bytes.ends_with(b"??/".as_slice())
}

/// A `//` comment.
fn line_comment_piece(bytes: &[u8]) -> Piece
    requires begun { 2 ≤ length bytes.now }
    requires fits { length bytes.now < 2 ^ 32 }
    ensures { result ≡ spec.line_comment_piece bytes.now (spec.line_len (drop 2 bytes.now)) }
{
    let inside = behind(bytes, 2);
    let len = line_len(inside);
    if len + 2 < bytes.len() && joins_next(front(inside, len)) {
        return Piece::BadByte;
    }
    Piece::Space(len + 2)
}

fn number_piece(bytes: &[u8]) -> Piece
    ensures { result ≡ spec.number_piece bytes.now (spec.run_len tokens.number_goes_on 0 bytes.now) }
{
    let len = number_len(bytes);
    if is_constant(front(bytes, len)) {
        whole(TokenKind::Number, len)
    } else {
        Piece::BadNumber
    }
}

fn string_piece(bytes: &[u8]) -> Piece
    requires begun { 0 < length bytes.now }
    requires fits { length bytes.now < 2 ^ 32 }
    ensures { result ≡ spec.string_piece bytes.now (spec.literal_len Inside (drop 1 bytes.now)) }
{
    let inside = behind(bytes, 1);
    let Some(len) = literal_len(inside) else {
        return Piece::BadByte;
    };
    match first_place(Sought::Trigraph, front(inside, len)) {
        Some(_) => Piece::BadByte,
        None => whole(TokenKind::Str, len + 1),
    }
}

fn directive_piece(bytes: &[u8]) -> Piece
    ensures { result ≡ spec.directive_piece bytes.now }
{
    Piece::Token {
        kind: TokenKind::Directive,
        len: line_len(bytes),
        text_at: 0,
        text_len: 1,
    }
}

/// An include, or another line that begins with `#`.
fn hash_piece(bytes: &[u8]) -> Piece
    requires begun { 0 < length bytes.now }
    requires fits { length bytes.now < 2 ^ 32 }
    ensures { result ≡ spec.hash_piece bytes.now (spec.header_from (spec.behind_gap (drop 1 bytes.now))) }
{
    let Some(named) = header_from(behind_gap(behind(bytes, 1))) else {
        return directive_piece(bytes);
    };
    let text_at = bytes.len() - named.len();
    let text_len = header_len(named);
    Piece::Token {
        kind: TokenKind::Include,
        len: text_at + text_len,
        text_at,
        text_len,
    }
}

/// A line that begins with `#`.
fn line_piece(before: Before, bytes: &[u8]) -> Piece
    requires begun { 0 < length bytes.now }
    requires fits { length bytes.now < 2 ^ 32 }
    ensures { result ≡ spec.line_piece before bytes.now }
{
    match before {
        Before::Blank => hash_piece(bytes),
        Before::Comment => directive_piece(bytes),
        Before::Token => Piece::BadByte,
    }
}

/// Whether no token stands before a place in its line.
fn lacks_token(before: Before) -> bool
    ensures { result ≡ spec.lacks_token before }
{
    match before {
        Before::Blank | Before::Comment => true,
        Before::Token => false,
    }
}

/// What stands at the front of the bytes, by what stands before them in their line.
#[tactic(auto, unfolding(crate::specs::Scanning::piece_of))]
pub fn piece_of(before: Before, bytes: &[u8]) -> Piece
    requires some { 0 < length bytes.now }
    requires fits { length bytes.now < 2 ^ 32 }
    ensures { result ≡ spec.piece_of before bytes.now }
{
    if bytes.starts_with(b"/*".as_slice()) {
        return comment_piece(bytes);
    }
    if bytes.starts_with(b"//".as_slice()) {
        return line_comment_piece(bytes);
    }
    match byte_at(bytes, 0) {
        blank if is_blank(blank) => Piece::Space(1),
        letter if is_letter(letter) => whole(TokenKind::Name, name_len(bytes)),
        digit if is_digit(digit) => number_piece(bytes),
        b'\'' => sized(TokenKind::Character, character_len(bytes)),
        b'"' => string_piece(bytes),
        b'#' if lacks_token(before) => line_piece(before, bytes),
        _ => sized(TokenKind::Mark, mark_len(bytes)),
    }
}
