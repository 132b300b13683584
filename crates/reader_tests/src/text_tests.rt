//! Tests of whole texts: which have a tree, and how deep a text may nest. Which fault is told at which line is seen by the
//! cases of slicer_cases.
use crate::tokens::tokens_of;
use c_parse::{ParseFault, parse};
use c_tree::Text;
use std::alloc::{AllocError, Global};
use std::test::Fail;

/// Why the text has no tree: the token that is left out, `syntax` or `nesting`; or `ok`.
fn answer(alloc: Global, text: &[u8]) -> Result<Text, AllocError> {
    let tokens = tokens_of(alloc, text)?;
    match parse(alloc, tokens.as_slice()) {
        Ok(_) => Text::from_slice(alloc, b"ok"),
        Err(ParseFault::LeftOut(text, _)) => Ok(text),
        Err(ParseFault::Syntax(_)) => Text::from_slice(alloc, b"syntax"),
        Err(ParseFault::Nesting(_)) => Text::from_slice(alloc, b"nesting"),
        Err(ParseFault::NoMemory) => Err(AllocError),
    }
}

#[test]
fn accepted_items(rt: HostRuntime) -> Result<(), Fail> {
    let rows: [&[u8]; 10] = [
        b"int main ( void ) { } ",
        b"int main ( ) { return 0 ; } ",
        b"<stdio.h>\n<stdlib.h>\nint main ( void ) {\n} ",
        b"struct s ; struct s { int a , * b [ 3 ] ; struct s * next ; } ; ",
        b"static unsigned long x = 1 , * p , a [ 2 ] = { 1 , 2 , } , b [ ] = { 3 } ; ",
        b"int f ( int a , int * b , struct s * c , int d [ ] , int e [ 3 ] ) ; ",
        b"int f ( int , int * , struct s [ 3 ] ) ; ",
        b"static void f ( void ) { } ",
        b"struct s * * f ( void ) { return p ; } ",
        b"int x ; int f ( void ) ; int y = 2 ; ",
    ];
    for row in rows {
        let text = answer(rt.alloc(), row)?;
        assert_eq!(rt; text.bytes(), b"ok".as_slice(), "{row:?}");
    }
    Ok(())
}

#[test]
fn accepted_simple_statements(rt: HostRuntime) -> Result<(), Fail> {
    let rows: [&[u8]; 15] = [
        b"void f ( void ) { int x ; int y = 1 , * p = & y ; struct s z ; } ",
        b"void f ( void ) { int a [ ] = { 1 , 2 } , b [ 2 ] = { 3 , } ; } ",
        b"void f ( void ) { int x = g ( 1 , y ) ; int z = getchar ( ) ; } ",
        b"void f ( void ) { int * p = ( int * ) malloc ( sizeof ( int ) ) ; } ",
        b"void f ( void ) { p = malloc ( n * sizeof ( struct s * ) ) ; } ",
        b"void f ( void ) { p = malloc ( sizeof * p * ( n + 1 ) ) ; } ",
        b"void f ( void ) { p = malloc ( sizeof ( * p ) ) ; q = malloc ( n + 1 ) ; } ",
        b"void f ( void ) { x = 1 ; x += 2 ; x -= 3 ; x *= 4 ; x /= 5 ; x %= 6 ; } ",
        b"void f ( void ) { x <<= 1 ; x >>= 2 ; x &= 3 ; x ^= 4 ; x |= 5 ; } ",
        b"void f ( void ) { ++ x ; -- x ; x ++ ; x -- ; ++ * p ; ( * p ) ++ ; } ",
        b"void f ( void ) { a [ i ] ++ ; p -> m -- ; s . m ++ ; } ",
        b"void f ( void ) { * p = 1 ; p -> m = 2 ; a [ 1 ] . m = 3 ; ( x ) = 4 ; } ",
        b"void f ( void ) { x = ( int ) y ; x = ( unsigned char ) - y ; } ",
        b"void f ( void ) { g ( ) ; g ( 1 ) ; x = g ( a , b ) ; } ",
        b"void f ( void ) { printf ( \"%d\" , x ) ; printf ( \"\" ) ; } ",
    ];
    for row in rows {
        let text = answer(rt.alloc(), row)?;
        assert_eq!(rt; text.bytes(), b"ok".as_slice(), "{row:?}");
    }
    Ok(())
}

#[test]
fn accepted_statements(rt: HostRuntime) -> Result<(), Fail> {
    let rows: [&[u8]; 15] = [
        b"void f ( void ) { ; ; { } { x = 1 ; } } ",
        b"void f ( void ) { if ( x ) y = 1 ; if ( x ) { } else y = 2 ; } ",
        b"void f ( void ) { if ( x ) if ( y ) ; else z = 1 ; else { z = 2 ; } } ",
        b"void f ( void ) { while ( x ) x -- ; while ( 1 ) { } } ",
        b"void f ( void ) { do x ++ ; while ( x < 3 ) ; do { } while ( 0 ) ; } ",
        b"void f ( void ) { for ( i = 0 ; i < 3 ; i ++ ) { } } ",
        b"void f ( void ) { for ( int i = 0 ; i < 3 ; i += 1 ) x = i ; } ",
        b"void f ( void ) { for ( ; x ; ) ; for ( f ( ) ; x ; g ( ) ) ; } ",
        b"void f ( void ) { for ( struct s * p = q ; p ; p = p -> next ) { } } ",
        b"void f ( void ) { switch ( x ) { } } ",
        b"void f ( void ) { switch ( x ) { case 1 : y = 1 ; break ; default : y = 2 ; } } ",
        b"void f ( void ) { switch ( x ) { case 1 : case 2 : break ; case c ? 3 : 4 : break ; } } ",
        b"void f ( void ) { switch ( x ) { default : ; } } ",
        b"void f ( void ) { switch ( x ) { case 1 : switch ( y ) { case 2 : break ; } break ; } } ",
        b"int f ( void ) { x = 1 ; { } return x + 1 ; } ",
    ];
    for row in rows {
        let text = answer(rt.alloc(), row)?;
        assert_eq!(rt; text.bytes(), b"ok".as_slice(), "{row:?}");
    }
    Ok(())
}

/// A function whose body is so many nested ifs.
fn nested_ifs(alloc: Global, depth: usize) -> Result<Text, AllocError> {
    let mut text = Text::from_slice(alloc, b"void f ( void ) { ")?;
    for _ in 0..depth {
        text.append(b"if ( 1 ) { ")?;
    }
    for _ in 0..depth {
        text.append(b"} ")?;
    }
    text.append(b"} ")?;
    Ok(text)
}

/// A function that assigns a number in so many parentheses.
fn nested_parens(alloc: Global, depth: usize) -> Result<Text, AllocError> {
    let mut text = Text::from_slice(alloc, b"void f ( void ) { x = ")?;
    for _ in 0..depth {
        text.append(b"( ")?;
    }
    text.append(b"1 ")?;
    for _ in 0..depth {
        text.append(b") ")?;
    }
    text.append(b"; } ")?;
    Ok(text)
}

/// What stands before a fault as it may stand in a text without one: nothing of it is named.
#[test]
fn nothing_else_is_named(rt: HostRuntime) -> Result<(), Fail> {
    let rows: [&[u8]; 15] = [
        b"void f ( void ) { int x = 1 , y = ; } ",
        b"void f ( void ) { for ( i = 0 ; i < 3 ; i ++ ) x = ; } ",
        b"void f ( void ) { switch ( x ) { case 1 : x = ; } } ",
        b"void f ( void ) { if ( x ) ( * p ) ++ ; y = ; } ",
        b"void f ( void ) { x = ( int ) ( y + ) ; } ",
        b"void f ( int * p , int * * ) ; int ; ",
        b"void f ( void ) { p = ( int * ) malloc ( ) ; } ",
        b"void f ( void ) { x = c ? ( int ) a : ; } ",
        b"struct s { int x ; } int y ; ",
        // A semicolon or a bracket is missing.
        b"void f ( void ) { x = 1\ny = 2 ; } ",
        b"void f ( void ) { int x = 1\nint y = 2 ; } ",
        b"void f ( void ) { x ++\ny ++ ; } ",
        b"void f ( void ) { if ( x == 1 ) x = 2\nelse x = 3 ; } ",
        b"void f ( void ) { x = ( 1 + 2 ;\nx = 3 ; } ",
        b"void f ( void ) { g ( x\nx = 2 ; } ",
    ];
    for row in rows {
        let text = answer(rt.alloc(), row)?;
        assert_eq!(rt; text.bytes(), b"syntax".as_slice(), "{row:?}");
    }
    Ok(())
}

/// What is answered for so many nested ifs, and for so many parentheses.
fn answers(alloc: Global, depth: usize) -> Result<(Text, Text), AllocError> {
    let ifs = nested_ifs(alloc, depth)?;
    let parens = nested_parens(alloc, depth)?;
    let first = answer(alloc, ifs.bytes())?;
    let second = answer(alloc, parens.bytes())?;
    Ok((first, second))
}

#[test]
fn nesting_up_to_100(rt: HostRuntime) -> Result<(), Fail> {
    let rows: [(usize, &[u8], &[u8]); 3] = [
        (99, b"ok", b"ok"),
        (100, b"ok", b"nesting"),
        (101, b"nesting", b"nesting"),
    ];
    for (depth, ifs, parens) in rows {
        let (first, second) = answers(rt.alloc(), depth)?;
        assert_eq!(rt; (first.bytes(), second.bytes()), (ifs, parens), "{depth}");
    }
    Ok(())
}
