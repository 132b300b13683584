//! What the functions of texts modify and use, by themselves or by what they call.
ghost use Rattle.std.specs.Prelude.{◌<◌, length};

use crate::analyses::{effects_of, read};
use crate::programs::{ADD, KEPT, MUTUAL, OVERWRITTEN, PICK, READS};
use bit_rows::Rows;
use std::process::Abort;

/// A function: the locations that it modifies, and those that it uses. Of each row this is the word, with bit `k` for the
/// location at place `k`.
type Row = (u64, u64);

const INPUT: u64 = 1;

/// Row `row` is this word.
fn is_word<R: Abort>(rt: &R, rows: &Rows, row: u32, wanted: u64)
    requires { row < length rows.now.sets }
{
    assert_eq!(rt; rows.words(row), [wanted].as_slice(), "row {row}");
}

/// The functions of the text, in the order of their definitions, modify and use what the table says.
fn functions_do<R: Abort + AllocGlobal>(rt: &R, text: &str, table: &[Row]) {
    let p = read(rt, text);
    let effects = effects_of(rt.alloc(), &p).expect(rt, "memory");
    assert_eq!(rt; p.functions.len(), table.len());
    for (f, (modified, used)) in table.iter().enumerate() {
        is_word(rt, &effects.modified, f as u32, *modified);
        is_word(rt, &effects.used, f as u32, *used);
    }
}

#[test]
fn global_that_is_set(rt: HostRuntime) {
    let g = 1 << 1;
    functions_do(&rt, OVERWRITTEN, &[(g, 0), (g, g)]);
    functions_do(&rt, KEPT, &[(g, 0), (g, g)]);
}

#[test]
fn two_globals(rt: HostRuntime) {
    let (g, h) = (1 << 1, 1 << 2);
    functions_do(&rt, PICK, &[(g | h, 0), (g | h, g | h)]);
}

// What stays inside a function, its parameters and its result aren't seen outside.
#[test]
fn nothing_but_results(rt: HostRuntime) {
    functions_do(&rt, ADD, &[(0, 0), (0, 0), (0, 0)]);
}

#[test]
fn input(rt: HostRuntime) {
    functions_do(&rt, READS, &[(INPUT, INPUT)]);
    functions_do(&rt, MUTUAL, &[(0, 0), (0, 0), (INPUT, INPUT)]);
}

const COUNTDOWN: &str = r#"#include <stdio.h>
int steps;
int sum(int n) {
    int r = 0;
    if (n > 0) {
        steps = n;
        r = sum(n - 1);
        r = r + n;
    }
    return r;
}
int main(void) {
    int s = sum(4);
    printf("%d\n", s);
}
"#;

const TURNS: &str = "int g;
int h;
int k;
void second(int n);
void first(int n) {
    g = n;
    if (n > 0) {
        second(n - 1);
    }
}
void second(int n) {
    h = k;
    if (n > 0) {
        first(n - 1);
    }
}
int main(void) {
    first(3);
}
";

#[test]
fn recursion(rt: HostRuntime) {
    let steps = 1 << 1;
    functions_do(&rt, COUNTDOWN, &[(steps, 0), (steps, 0)]);
    let (g, h, k) = (1 << 1, 1 << 2, 1 << 3);
    functions_do(&rt, TURNS, &[(g | h, k), (g | h, k), (g | h, k)]);
}

const HEADS: &str = "#include <stdio.h>
static int g;
int h;
void set(void);
static int twice(int n);
void set(void);
int twice(int n);
void unused(void) {
    h = g;
    set();
}
void set(void) {
    g = getchar();
}
static int twice(int n) {
    return n + n;
}
int main(void) {
    h = twice(2);
    set();
}
";

// A function that is never called, `set` and `twice` with two prototypes each, and a global and a function that are static.
#[test]
fn heads_of_functions(rt: HostRuntime) {
    let (g, h) = (1 << 1, 1 << 2);
    let table = [
        (INPUT | g | h, INPUT | g),
        (INPUT | g, INPUT),
        (0, 0),
        (INPUT | g | h, INPUT),
    ];
    functions_do(&rt, HEADS, &table);
}
