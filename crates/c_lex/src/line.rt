//! Lines that begin with `#`: which of them include a library header, and where its name stands.
ghost use Rattle.std.specs.Prelude.{◌≡◌, ◌≤◌, ◌<◌, ◌^◌, length, IfSome};
ghost use Rattle.std.specs.Option.{option_copied};
ghost use Rattle.c_lex.specs.Scanning as spec;

use crate::bytes::{behind, byte_at, is_blank};
use crate::place::{Sought, first_place, is_end};

/// The length of the comment at the front, or 0 where it doesn't lie whole in its line.
fn short_comment_len(bytes: &[u8]) -> usize
    requires begun { 2 ≤ length bytes.now }
    requires fits { length bytes.now < 2 ^ 32 }
    ensures { result ≡ spec.short_comment bytes.now }
{
    let inside = behind(bytes, 2);
    let Some(len) = first_place(Sought::EndOrFeed, inside) else {
        return 0;
    };
    if is_end(behind(inside, len)) {
        len + 4
    } else {
        0
    }
}

/// The length of the blank or the comment within a line at the front, or 0.
fn gap_len(bytes: &[u8]) -> usize
    requires { length bytes.now < 2 ^ 32 }
    ensures { result ≡ spec.gap_len bytes.now }
{
    let first = byte_at(bytes, 0);
    if is_blank(first) {
        return if first == b'\n' { 0 } else { 1 };
    }
    if bytes.starts_with(b"/*".as_slice()) {
        short_comment_len(bytes)
    } else {
        0
    }
}

/// What stands behind blanks and comments within the line.
pub fn behind_gap(bytes: &[u8]) -> &[u8]
    requires { length bytes.now < 2 ^ 32 }
    ensures value { result.now ≡ spec.behind_gap bytes.now }
    ensures within { length result.now ≤ length bytes.now }
{
    let mut rest = bytes;
    for _turn in 0..bytes.len() {
        let len = gap_len(rest);
        if len == 0 {
            return rest;
        }
        rest = behind(rest, len);
    }
    rest
}

/// The length of the name of a library header at the front, or 0.
pub fn header_len(bytes: &[u8]) -> usize
    ensures value { result ≡ spec.header_len bytes.now }
    ensures within { result ≤ length bytes.now }
{
    if bytes.starts_with(b"<stdio.h>".as_slice()) {
        return 9;
    }
    if bytes.starts_with(b"<stdlib.h>".as_slice()) {
        return 10;
    }
    0
}

/// Whether the line ends here, or a `//` comment begins.
fn is_line_tail(bytes: &[u8]) -> bool
    ensures { result ≡ spec.is_line_tail bytes.now }
{
    match bytes.first() {
        None => true,
        Some(byte) => *byte == b'\n' || bytes.starts_with(b"//".as_slice()),
    }
}

/// Whether a header's name stands here, with nothing but white space and comments behind it in its line.
fn is_header_last(bytes: &[u8]) -> bool
    requires { length bytes.now < 2 ^ 32 }
    ensures { result ≡ spec.is_header_last bytes.now }
{
    let len = header_len(bytes);
    len > 0 && is_line_tail(behind_gap(behind(bytes, len)))
}

/// What stands behind a `#`, from the header on, where it is an include (ISO C99 6.10.2).
pub fn header_from(bytes: &[u8]) -> Option<&[u8]>
    requires { length bytes.now < 2 ^ 32 }
    ensures value { option_copied result ≡ spec.header_from bytes.now }
    ensures within { IfSome result (λ named. length named.now ≤ length bytes.now) }
{
    if !bytes.starts_with(b"include".as_slice()) {
        return None;
    }
    let named = behind_gap(behind(bytes, 7));
    if is_header_last(named) {
        Some(named)
    } else {
        None
    }
}
