//! Tests of expressions: how operators group, which texts are refused, how deep they nest, and what is a place.
use crate::tokens::{text_at, tokens_of};
use crate::trees::show_expr;
use c_language::Token;
use c_parse_expr::cursor::Cursor;
use c_parse_expr::expr::expression;
use c_parse_expr::fault::Stop;
use c_parse_expr::forms::{is_place, tightness};
use c_parse_expr::nested::Nested;
use c_tree::Text;
use std::alloc::{AllocError, Global};
use std::test::Fail;

fn read(alloc: Global, tokens: &[Token]) -> (Result<Nested, Stop>, usize) {
    let mut cursor = Cursor::new(tokens);
    let outcome = expression(alloc, &mut cursor, 100, 1);
    (outcome, cursor.left())
}

/// The tree, or why there is none, with the token at which reading stopped.
fn shown(alloc: Global, text: &[u8]) -> Result<Text, AllocError> {
    let tokens = tokens_of(alloc, text)?;
    let mut out = Text::new(alloc);
    let (outcome, rest) = read(alloc, tokens.as_slice());
    let left = match outcome {
        Ok(expr) => {
            let tree = expr.into_expr();
            show_expr(&tree, &mut out)?;
            rest
        }
        Err(Stop::Memory) => return Err(AllocError),
        Err(Stop::Syntax(left)) => {
            out.append(b"syntax")?;
            left
        }
        Err(Stop::Deep(left)) => {
            out.append(b"deep")?;
            left
        }
    };
    out.append(b" at ")?;
    out.append(text_at(tokens.as_slice(), left))?;
    Ok(out)
}

#[test]
fn neighbouring_levels(rt: HostRuntime) -> Result<(), Fail> {
    let rows: [(&[u8], &[u8]); 28] = [
        (b"a ? b : c ? d : e ", b"(? a b (? c d e)) at end"),
        (b"a ? b ? c : d : e ", b"(? a (? b c d) e) at end"),
        (b"a || b ? c : d ", b"(? (|| a b) c d) at end"),
        (b"a ? b : c || d ", b"(? a b (|| c d)) at end"),
        (b"a && b || c ", b"(|| (&& a b) c) at end"),
        (b"a || b && c ", b"(|| a (&& b c)) at end"),
        (b"a | b && c ", b"(&& (| a b) c) at end"),
        (b"a && b | c ", b"(&& a (| b c)) at end"),
        (b"a ^ b | c ", b"(| (^ a b) c) at end"),
        (b"a | b ^ c ", b"(| a (^ b c)) at end"),
        (b"a & b ^ c ", b"(^ (& a b) c) at end"),
        (b"a ^ b & c ", b"(^ a (& b c)) at end"),
        (b"a == b & c ", b"(& (== a b) c) at end"),
        (b"a & b == c ", b"(& a (== b c)) at end"),
        (b"a < b == c ", b"(== (< a b) c) at end"),
        (b"a != b >= c ", b"(!= a (>= b c)) at end"),
        (b"a << b < c ", b"(< (<< a b) c) at end"),
        (b"a > b >> c ", b"(> a (>> b c)) at end"),
        (b"a + b << c ", b"(<< (+ a b) c) at end"),
        (b"a >> b - c ", b"(>> a (- b c)) at end"),
        (b"a * b + c ", b"(+ (* a b) c) at end"),
        (b"a - b / c ", b"(- a (/ b c)) at end"),
        (b"a % b - c ", b"(- (% a b) c) at end"),
        (b"( int ) a * b ", b"(* (int a) b) at end"),
        (b"a / ( int ) b ", b"(/ a (int b)) at end"),
        (b"- a * b ", b"(* (- a) b) at end"),
        (b"a - - b ", b"(- a (- b)) at end"),
        (b"- a [ b ] ", b"(- ([] a b)) at end"),
    ];
    for (text, want) in rows {
        let got = shown(rt.alloc(), text)?;
        assert_eq!(rt; got.bytes(), want, "{text:?}");
    }
    Ok(())
}

#[test]
fn operators_of_one_level(rt: HostRuntime) -> Result<(), Fail> {
    let rows: [(&[u8], &[u8]); 8] = [
        (b"a - b - c ", b"(- (- a b) c) at end"),
        (b"a / b * c ", b"(* (/ a b) c) at end"),
        (b"a << b >> c ", b"(>> (<< a b) c) at end"),
        (b"a < b <= c ", b"(<= (< a b) c) at end"),
        (b"a == b != c ", b"(!= (== a b) c) at end"),
        (b"a & b & c ", b"(& (& a b) c) at end"),
        (b"a && b && c ", b"(&& (&& a b) c) at end"),
        (b"a || b || c ", b"(|| (|| a b) c) at end"),
    ];
    for (text, want) in rows {
        let got = shown(rt.alloc(), text)?;
        assert_eq!(rt; got.bytes(), want, "{text:?}");
    }
    Ok(())
}

#[test]
fn signs_casts_and_postfix_forms(rt: HostRuntime) -> Result<(), Fail> {
    let rows: [(&[u8], &[u8]); 26] = [
        (b"- - a ", b"(- (- a)) at end"),
        (b"! ~ + a ", b"(! (~ (+ a))) at end"),
        (b"* * p ", b"(* (* p)) at end"),
        (b"& * p ", b"(& (* p)) at end"),
        (b"& a [ 1 ] ", b"(& ([] a 1)) at end"),
        (b"* p . x ", b"(* (. p x)) at end"),
        (b"( * p ) . x ", b"(. <(* p)> x) at end"),
        (b"- ( int ) - a ", b"(- (int (- a))) at end"),
        (b"( int ) ( a ) ", b"(int <a>) at end"),
        (b"( a ) - b ", b"(- <a> b) at end"),
        (b"( int ) - b ", b"(int (- b)) at end"),
        (b"( long ) ( short ) a ", b"(long (short a)) at end"),
        (b"( int unsigned long ) a ", b"(ulong a) at end"),
        (b"( char signed ) a ", b"(char a) at end"),
        (b"( unsigned ) a [ 0 ] ", b"(uint ([] a 0)) at end"),
        (
            b"a [ 1 ] . b -> c [ d ] ",
            b"([] (-> (. ([] a 1) b) c) d) at end",
        ),
        (b"a [ b [ c ] ] ", b"([] a ([] b c)) at end"),
        (b"( ( a ) ) ", b"<<a>> at end"),
        (b"'x' + 0x1Ful ", b"(+ 'x' 0x1Ful) at end"),
        (b"NULL == EOF ", b"(== <null> <eof>) at end"),
        (b"nULL ", b"nULL at end"),
        (b"n * sizeof ( int ) ", b"n at *"),
        (b"f ( x ) ", b"f at ("),
        (b"a = b ", b"a at ="),
        (b"a , b ", b"a at ,"),
        (b"* p ++ ", b"(* p) at ++"),
    ];
    for (text, want) in rows {
        let got = shown(rt.alloc(), text)?;
        assert_eq!(rt; got.bytes(), want, "{text:?}");
    }
    Ok(())
}

#[test]
fn refused_expressions(rt: HostRuntime) -> Result<(), Fail> {
    let rows: [(&[u8], &[u8]); 25] = [
        (b"", b"syntax at end"),
        (b"; ", b"syntax at ;"),
        (b"a + ; ", b"syntax at ;"),
        (b"( a ; ", b"syntax at ;"),
        (b"( ) ", b"syntax at )"),
        (b"a [ 1 ; ", b"syntax at ;"),
        (b"a [ ] ", b"syntax at ]"),
        (b"a ? b ; ", b"syntax at ;"),
        (b"a ? : b ", b"syntax at :"),
        (b"a . 1 ", b"syntax at 1"),
        (b"a -> if ", b"syntax at if"),
        (b"a . NULL ", b"syntax at NULL"),
        (b"while ", b"syntax at while"),
        (b"sizeof a ", b"syntax at sizeof"),
        (b"\"s\" ", b"syntax at \"s\""),
        (b"++ a ", b"syntax at ++"),
        (b"( int a ) ", b"syntax at a"),
        (b"( int * ) a ", b"syntax at *"),
        (b"( struct s ) a ", b"syntax at struct"),
        (b"( void ) a ", b"syntax at void"),
        (b"( float ) a ", b"syntax at float"),
        (b"( long long ) a ", b"syntax at long"),
        (b"( char int ) a ", b"syntax at )"),
        (b"( unsigned signed ) a ", b"syntax at signed"),
        (b"( int ) ", b"syntax at end"),
    ];
    for (text, want) in rows {
        let got = shown(rt.alloc(), text)?;
        assert_eq!(rt; got.bytes(), want, "{text:?}");
    }
    Ok(())
}

/// So many parentheses around a name.
fn parentheses(alloc: Global, count: usize) -> Result<Text, AllocError> {
    let mut text = Text::new(alloc);
    for _ in 0..count {
        text.append(b"( ")?;
    }
    text.append(b"a ")?;
    for _ in 0..count {
        text.append(b") ")?;
    }
    Ok(text)
}

/// So many operators that group to the left.
fn sums(alloc: Global, count: usize) -> Result<Text, AllocError> {
    let mut text = Text::new(alloc);
    text.append(b"a ")?;
    for _ in 0..count {
        text.append(b"+ a ")?;
    }
    Ok(text)
}

fn is_deep(alloc: Global, text: &[u8]) -> Result<bool, AllocError> {
    let got = shown(alloc, text)?;
    Ok(got.bytes().starts_with(b"deep"))
}

#[test]
fn at_most_a_hundred_nodes_nest(rt: HostRuntime) -> Result<(), Fail> {
    for (count, want) in [(100, false), (101, true), (1000, true)] {
        let inner = parentheses(rt.alloc(), count)?;
        assert_eq!(rt;
            is_deep(rt.alloc(), inner.bytes())?,
            want,
            "{count} parentheses"
        );
        let left = sums(rt.alloc(), count)?;
        assert_eq!(rt; is_deep(rt.alloc(), left.bytes())?, want, "{count} sums");
    }
    Ok(())
}

/// Whether the tree is a place, and how tightly it binds.
fn form_of(alloc: Global, text: &[u8]) -> Result<(bool, u8), AllocError> {
    let tokens = tokens_of(alloc, text)?;
    let (outcome, _) = read(alloc, tokens.as_slice());
    match outcome {
        Ok(expr) => {
            let tree = expr.into_expr();
            Ok((is_place(&tree), tightness(&tree)))
        }
        Err(_) => Ok((false, 0)),
    }
}

#[test]
fn places_and_tightness(rt: HostRuntime) -> Result<(), Fail> {
    let rows: [(&[u8], bool, u8); 14] = [
        (b"a ", true, 15),
        (b"( a ) ", true, 15),
        (b"( ( * p ) ) ", true, 15),
        (b"* p ", true, 13),
        (b"a [ i ] ", true, 14),
        (b"s . m ", true, 14),
        (b"p -> m ", true, 14),
        (b"NULL ", false, 15),
        (b"( a + b ) ", false, 15),
        (b"& a ", false, 13),
        (b"( int ) a ", false, 12),
        (b"a * b ", false, 11),
        (b"a || b ", false, 2),
        (b"a ? b : c ", false, 1),
    ];
    for (text, place, level) in rows {
        let form = form_of(rt.alloc(), text)?;
        assert_eq!(rt; form, (place, level), "{text:?}");
    }
    Ok(())
}
