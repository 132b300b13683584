//! Texts and their tokens, worked out by hand from C99's lexical grammar. Texts that have none are cases of slicer_cases.
use c_language::{Token, TokenKind};
use c_lex::{LexFault, lex};
use edge_io::Text;
use std::process::Abort;

/// A token's kind, its text and its line.
type Row<'a> = (TokenKind, &'a [u8], u32);

const SHORT: usize = 4096;

fn tokens_of<R: Abort + AllocGlobal>(rt: &R, text: &[u8]) -> Vec<Token> {
    assert!(rt; text.len() < SHORT);
    lex(rt.alloc(), text).expect(rt, "tokens")
}

/// The text has these tokens.
fn has<R: Abort + AllocGlobal>(rt: &R, text: &[u8], rows: &[Row<'_>]) {
    let tokens = tokens_of(rt, text);
    assert_eq!(rt; tokens.len(), rows.len());
    for (token, row) in tokens.iter().zip(rows.iter()) {
        let (kind, bytes, line) = *row;
        assert_eq!(rt; token.kind, kind);
        assert!(rt; token.text.bytes() == bytes);
        assert_eq!(rt; token.line, line);
    }
}

/// The text's tokens are of one kind, and one blank stands between each two.
fn are_all<R: Abort + AllocGlobal>(rt: &R, kind: TokenKind, text: &[u8]) {
    let tokens = tokens_of(rt, text);
    let mut joined = Text::new(rt.alloc());
    for token in tokens.iter() {
        assert_eq!(rt; token.kind, kind);
        if !joined.bytes().is_empty() {
            joined.append(b" ").expect(rt, "memory");
        }
        joined.append(token.text.bytes()).expect(rt, "memory");
    }
    assert!(rt; joined.bytes() == text);
}

const NAME: TokenKind = TokenKind::Name;

const NUMBER: TokenKind = TokenKind::Number;

const MARK: TokenKind = TokenKind::Mark;

const STR: TokenKind = TokenKind::Str;

const INCLUDE: TokenKind = TokenKind::Include;

const DIRECTIVE: TokenKind = TokenKind::Directive;

#[test]
fn an_assignment(rt: HostRuntime) {
    let rows: [Row<'_>; 4] = [
        (NAME, b"x", 1),
        (MARK, b"+=", 1),
        (NUMBER, b"1", 1),
        (MARK, b";", 1),
    ];
    has(&rt, b"x+=1;", &rows);
}

#[test]
fn marks(rt: HostRuntime) {
    are_all(&rt, MARK, b"( ) [ ] { } ; , : ? . -> + - * / % & | ^ ~ !");
    are_all(&rt, MARK, b"< > <= >= == != << >> && || = += -= *= /= %=");
    are_all(&rt, MARK, b"&= |= ^= <<= >>= ++ -- ...");
    let rows: [Row<'_>; 6] = [
        (MARK, b"<<=", 1),
        (MARK, b"++", 1),
        (MARK, b"+", 1),
        (MARK, b"...", 1),
        (MARK, b".", 1),
        (MARK, b"->", 1),
    ];
    has(&rt, b"<<=+++....->", &rows);
}

#[test]
fn names_and_constants(rt: HostRuntime) {
    are_all(&rt, NAME, b"x _ _1 aB9 int e10");
    are_all(
        &rt,
        NUMBER,
        b"0 7 017 0x7fffffff 0xffffffff 0x80000000 0XaBc",
    );
    are_all(
        &rt,
        NUMBER,
        b"2147483647 2147483648 4294967295u 9223372036854775807",
    );
    are_all(
        &rt,
        NUMBER,
        b"18446744073709551615u 0xffffffffffffffff 1u 1L 1ul 1LU 1uL",
    );
}

#[test]
fn characters_and_strings(rt: HostRuntime) {
    are_all(
        &rt,
        TokenKind::Character,
        b"'a' '\"' ' ' '~' '\\n' '\\0' '\\'' '\\\\' '\\?'",
    );
    are_all(
        &rt,
        STR,
        b"\"\" \"a'b\" \"\\n\\t\\r\\a\\b\\f\\v\\0\\\\\\'\\\"\\?\" \"??\" \"?\\?!\"",
    );
}

#[test]
fn comments(rt: HostRuntime) {
    let rows: [Row<'_>; 2] = [(NAME, b"x", 1), (NAME, b"y", 3)];
    has(&rt, b"x /* a\n * / ** b */ // c /* \ny", &rows);
    has(&rt, b"/*/ /* */x// a\\b\n\ny// d\\", &rows);
    has(&rt, b"x/* a\\\nb??/\n*/y", &rows);
}

#[test]
fn includes(rt: HostRuntime) {
    let rows: [Row<'_>; 3] = [
        (INCLUDE, b"<stdio.h>", 1),
        (INCLUDE, b"<stdlib.h>", 2),
        (NAME, b"x", 3),
    ];
    has(
        &rt,
        b"#include <stdio.h>\n/* a */ # /* b */\tinclude<stdlib.h>/* c */ // d\nx",
        &rows,
    );
}

#[test]
fn directives(rt: HostRuntime) {
    let rows: [Row<'_>; 6] = [
        (NAME, b"x", 1),
        (DIRECTIVE, b"#", 2),
        (NAME, b"a", 3),
        (MARK, b"*", 3),
        (MARK, b"/", 3),
        (DIRECTIVE, b"#", 4),
    ];
    has(
        &rt,
        b"x\n#include <stdio.h> /* \na */\n#define B \"@",
        &rows,
    );
    let row: [Row<'_>; 1] = [(DIRECTIVE, b"#", 2)];
    has(&rt, b"/* a\n */ #include <stdio.h>\n", &row);
    has(&rt, b"\n#include \"stdio.h\"", &row);
    has(&rt, b"\n#include < stdio.h>", &row);
    has(&rt, b"\n #include <stdio.h> x", &row);
    has(&rt, b"\n##\\\n", &row);
}

#[test]
fn faults_have_their_words(rt: HostRuntime) {
    let rows = [
        (LexFault::BadByte(1), "bad byte"),
        (LexFault::BadNumber(1), "bad number"),
        (LexFault::OpenComment(1), "open comment"),
        (LexFault::NoMemory, "out of memory"),
    ];
    for (fault, words) in rows {
        let shown = format!(in rt.alloc(); "{fault}").expect(&rt, "memory");
        assert_eq!(rt; shown.as_str(), words);
    }
}
