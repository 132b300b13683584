//! Tests of declarators, type names and parameters, and of how many stars and lengths a declarator may have.
use crate::tokens::{text_at, tokens_of};
use crate::trees::{show_param, show_type, show_type_name};
use c_language::Token;
use c_parse_expr::cursor::Cursor;
use c_parse_expr::fault::Stop;
use c_parse_expr::params::params;
use c_parse_expr::types::{base, declarator, type_name};
use c_tree::{Items, RawParam, RawTypeName, RawVar, Text};
use std::alloc::{AllocError, Global};
use std::test::Fail;

/// Why there is no tree, with the token at which reading stopped.
fn refused(alloc: Global, tokens: &[Token], stop: Stop) -> Result<Text, AllocError> {
    let mut out = Text::new(alloc);
    let left = match stop {
        Stop::Memory => return Err(AllocError),
        Stop::Syntax(left) => {
            out.append(b"syntax at ")?;
            left
        }
        Stop::Deep(left) => {
            out.append(b"deep at ")?;
            left
        }
    };
    out.append(text_at(tokens, left))?;
    Ok(out)
}

fn var_behind_base(alloc: Global, tokens: &mut Cursor<'_>) -> Result<RawVar, Stop> {
    let base = base(alloc, tokens)?;
    declarator(alloc, tokens, 100, &base)
}

fn read_var(alloc: Global, tokens: &[Token]) -> (Result<RawVar, Stop>, usize) {
    let mut cursor = Cursor::new(tokens);
    let outcome = var_behind_base(alloc, &mut cursor);
    (outcome, cursor.left())
}

fn show_var(var: &RawVar, out: &mut Text) -> Result<(), AllocError> {
    out.append(var.name.bytes())?;
    out.append(b": ")?;
    show_type(&var.shape, out)
}

fn shown_var(alloc: Global, text: &[u8]) -> Result<Text, AllocError> {
    let tokens = tokens_of(alloc, text)?;
    let (outcome, left) = read_var(alloc, tokens.as_slice());
    match outcome {
        Ok(var) => {
            let mut out = Text::new(alloc);
            show_var(&var, &mut out)?;
            out.append(b" at ")?;
            out.append(text_at(tokens.as_slice(), left))?;
            Ok(out)
        }
        Err(stop) => refused(alloc, tokens.as_slice(), stop),
    }
}

#[test]
fn declarators(rt: HostRuntime) -> Result<(), Fail> {
    let rows: [(&[u8], &[u8]); 30] = [
        (b"int x ; ", b"x: int at ;"),
        (b"signed x = ", b"x: int at ="),
        (b"int signed x , ", b"x: int at ,"),
        (b"char c ; ", b"c: char at ;"),
        (b"char unsigned c ; ", b"c: uchar at ;"),
        (b"int signed short s ; ", b"s: short at ;"),
        (b"short unsigned s ; ", b"s: ushort at ;"),
        (b"unsigned u ; ", b"u: uint at ;"),
        (b"int long l ; ", b"l: long at ;"),
        (b"long int unsigned l ; ", b"l: ulong at ;"),
        (b"struct s t ; ", b"t: struct s at ;"),
        (b"int * p ; ", b"p: * int at ;"),
        (b"struct s * * q ; ", b"q: * * struct s at ;"),
        (b"int * a [ 3 ] ; ", b"a: [3] * int at ;"),
        (b"int a [ 2 ] [ 3 ] ; ", b"a: [2] [3] int at ;"),
        (b"int a [ n + 1 ] ; ", b"a: [(+ n 1)] int at ;"),
        (b"int a [ ] = ", b"a: [?] int at ="),
        (b"int a [ ] [ 3 ] = ", b"a: [?] [3] int at ="),
        (b"int a [ 2 ] [ ] = ", b"syntax at ]"),
        (b"int a [ 2 ; ", b"syntax at ;"),
        (b"int ; ", b"syntax at ;"),
        (b"int if ; ", b"syntax at if"),
        (b"int ( * p ) ; ", b"syntax at ("),
        (b"int int x ; ", b"syntax at int"),
        (b"long long x ; ", b"syntax at long"),
        (b"short char x ; ", b"syntax at char"),
        (b"char int x ; ", b"syntax at x"),
        (b"struct { ", b"syntax at {"),
        (b"float x ; ", b"syntax at float"),
        (b"", b"syntax at end"),
    ];
    for (text, want) in rows {
        let got = shown_var(rt.alloc(), text)?;
        assert_eq!(rt; got.bytes(), want, "{text:?}");
    }
    Ok(())
}

fn read_type(alloc: Global, tokens: &[Token]) -> (Result<RawTypeName, Stop>, usize) {
    let mut cursor = Cursor::new(tokens);
    let outcome = type_name(alloc, &mut cursor);
    (outcome, cursor.left())
}

fn shown_type(alloc: Global, text: &[u8]) -> Result<Text, AllocError> {
    let tokens = tokens_of(alloc, text)?;
    let (outcome, left) = read_type(alloc, tokens.as_slice());
    match outcome {
        Ok(shape) => {
            let mut out = Text::new(alloc);
            show_type_name(&shape, &mut out)?;
            out.append(b" at ")?;
            out.append(text_at(tokens.as_slice(), left))?;
            Ok(out)
        }
        Err(stop) => refused(alloc, tokens.as_slice(), stop),
    }
}

#[test]
fn types_without_names(rt: HostRuntime) -> Result<(), Fail> {
    let rows: [(&[u8], &[u8]); 5] = [
        (b"int ) ", b"int at )"),
        (b"unsigned char * ) ", b"* uchar at )"),
        (b"struct s * * ) ", b"* * struct s at )"),
        (b"int [ 3 ] ) ", b"int at ["),
        (b"void * ) ", b"syntax at void"),
    ];
    for (text, want) in rows {
        let got = shown_type(rt.alloc(), text)?;
        assert_eq!(rt; got.bytes(), want, "{text:?}");
    }
    Ok(())
}

fn show_all(params: &Items<RawParam>, out: &mut Text) -> Result<(), AllocError> {
    for param in params.as_slice() {
        show_param(param, out)?;
    }
    Ok(())
}

fn read_params(alloc: Global, tokens: &[Token]) -> (Result<Items<RawParam>, Stop>, usize) {
    let mut cursor = Cursor::new(tokens);
    let outcome = params(alloc, &mut cursor, 100);
    (outcome, cursor.left())
}

fn shown_params(alloc: Global, text: &[u8]) -> Result<Text, AllocError> {
    let tokens = tokens_of(alloc, text)?;
    let (outcome, left) = read_params(alloc, tokens.as_slice());
    match outcome {
        Ok(all) => {
            let mut out = Text::new(alloc);
            show_all(&all, &mut out)?;
            out.append(b"at ")?;
            out.append(text_at(tokens.as_slice(), left))?;
            Ok(out)
        }
        Err(stop) => refused(alloc, tokens.as_slice(), stop),
    }
}

#[test]
fn parameters(rt: HostRuntime) -> Result<(), Fail> {
    let rows: [(&[u8], &[u8]); 16] = [
        (b") ; ", b"at ;"),
        (b"void ) ; ", b"at ;"),
        (b"int a ) { ", b"a: int; at {"),
        (b"int a , int * b ) ; ", b"a: int; b: * int; at ;"),
        (b"int , char * ) ; ", b": int; : * char; at ;"),
        (b"int a [ ] ) ; ", b"a: * int; at ;"),
        (b"int a [ n ] ) ; ", b"a: * int of n; at ;"),
        (b"int [ 3 ] ) ; ", b": * int of 3; at ;"),
        (b"struct s * a [ 4 ] ) ; ", b"a: * * struct s of 4; at ;"),
        (b"int a [ 2 ] [ 3 ] ) ; ", b"syntax at ["),
        (b"void a ) ; ", b"syntax at a"),
        (b"void * p ) ; ", b"syntax at *"),
        (b"int a , ) ; ", b"syntax at )"),
        (b"int a , void ) ; ", b"syntax at void"),
        (b"int a ; ", b"syntax at ;"),
        (b"int a ", b"syntax at end"),
    ];
    for (text, want) in rows {
        let got = shown_params(rt.alloc(), text)?;
        assert_eq!(rt; got.bytes(), want, "{text:?}");
    }
    Ok(())
}

/// So many stars before a name, and so many lengths behind it.
fn nesting_declarator(alloc: Global, stars: usize, lengths: usize) -> Result<Text, AllocError> {
    let mut text = Text::new(alloc);
    text.append(b"int ")?;
    for _ in 0..stars {
        text.append(b"* ")?;
    }
    text.append(b"a ")?;
    for _ in 0..lengths {
        text.append(b"[ 1 ] ")?;
    }
    Ok(text)
}

fn is_deep(alloc: Global, stars: usize, lengths: usize) -> Result<bool, AllocError> {
    let text = nesting_declarator(alloc, stars, lengths)?;
    let got = shown_var(alloc, text.bytes())?;
    Ok(got.bytes().starts_with(b"deep"))
}

#[test]
fn at_most_a_hundred_stars_and_lengths(rt: HostRuntime) -> Result<(), Fail> {
    let rows = [
        (100, 0, false),
        (101, 0, true),
        (0, 100, false),
        (0, 101, true),
        (40, 60, false),
        (40, 61, true),
    ];
    for (stars, lengths, want) in rows {
        let deep = is_deep(rt.alloc(), stars, lengths)?;
        assert_eq!(rt; deep, want, "{stars} stars, {lengths} lengths");
    }
    Ok(())
}
