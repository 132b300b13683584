//! The search in some bytes for the end of a comment, one that joined line ends split, or a trigraph.
ghost use Rattle.std.specs.Prelude.{◌≡◌, ◌≤◌, ◌<◌, length, IfSome};
ghost use Rattle.c_lex.specs.Scanning as spec;
ghost use Rattle.c_lex.specs.Sought as sought_spec;

use crate::bytes::{behind, byte_at, is_one_of};

/// What is looked for in some bytes.
#[derive(Clone, Copy, Debug, PartialEq, Eq)]
pub enum Sought {
    /// The end of a comment.
    End,
    /// The end of a comment or of the line.
    EndOrFeed,
    /// A `*` and a `/` with joined line ends alone between them.
    Split,
    /// A trigraph (ISO C99 5.2.1.1).
    Trigraph,
}

/// The length of a joined line end at the front, or 0 (ISO C99 5.1.1.2).
fn join_len(bytes: &[u8]) -> usize
    ensures value { result ≡ spec.join_len bytes.now }
    ensures within { result ≤ length bytes.now }
{
    if bytes.starts_with(b"\\\n".as_slice()) {
        return 2;
    }
    if bytes.starts_with(b"??/\n".as_slice()) {
        return 4;
    }
    0
}

/// What stands behind joined line ends.
fn behind_joins(bytes: &[u8]) -> &[u8]
    ensures { result.now ≡ spec.behind_joins bytes.now }
{
    let mut rest = bytes;
    for _turn in 0..bytes.len() {
        let len = join_len(rest);
        if len == 0 {
            return rest;
        }
        rest = behind(rest, len);
    }
    rest
}

/// Whether what stands behind a `*` makes it a split end of a comment.
fn is_split_behind(bytes: &[u8]) -> bool
    ensures { result ≡ spec.is_split_behind bytes.now }
{
    join_len(bytes) > 0 && byte_at(behind_joins(bytes), 0) == b'/'
}

fn is_split(bytes: &[u8]) -> bool
    requires { 0 < length bytes.now }
    ensures { result ≡ spec.is_split bytes.now }
{
    byte_at(bytes, 0) == b'*' && is_split_behind(behind(bytes, 1))
}

fn is_trigraph(bytes: &[u8]) -> bool
    ensures { result ≡ spec.is_trigraph bytes.now }
{
    byte_at(bytes, 0) == b'?'
        && byte_at(bytes, 1) == b'?'
        && is_one_of(b"=(/)'<!>-".as_slice(), byte_at(bytes, 2))
}

/// Whether `*/` stands at the front of the bytes.
pub fn is_end(bytes: &[u8]) -> bool
    ensures { result ≡ spec.is_end bytes.now }
{
    bytes.starts_with(b"*/".as_slice())
}

/// Whether it stands at the front of the bytes.
fn stands(sought: Sought, bytes: &[u8]) -> bool
    requires { 0 < length bytes.now }
    ensures { result ≡ sought_spec.stands sought bytes.now }
{
    match sought {
        Sought::End => is_end(bytes),
        Sought::EndOrFeed => is_end(bytes) || byte_at(bytes, 0) == b'\n',
        Sought::Split => is_split(bytes),
        Sought::Trigraph => is_trigraph(bytes),
    }
}

/// The first place in the bytes where it stands.
pub fn first_place(sought: Sought, bytes: &[u8]) -> Option<usize>
    ensures value { result ≡ spec.first_place (sought_spec.stands sought) bytes.now }
    ensures within { IfSome result (λ n. n < length bytes.now) }
{
    for i in 0..bytes.len() {
        if stands(sought, behind(bytes, i)) {
            return Some(i);
        }
    }
    None
}
