//! The texts of small programs, with the numbers worked out by hand.
use crate::generate;
use std::process::Abort;
use std::rt::HostRuntime;

const ONE_FUNCTION: &[u8] = b"#include <stdio.h>
int g0;
int g1;
int g2;
int g3;
int f1(int a, int b) {
    int t = a + 8;
    g2 = t;
    b = b + g1;
    return b;
}
int main(void) {
    int r = f1(1, 2);
    printf(\"%d\\n\", r);
}
";

const THREE_FUNCTIONS: &[u8] = b"#include <stdio.h>
int g0;
int g1;
int g2;
int g3;
int f1(int a, int b) {
    int t = a + 9;
    g1 = t;
    b = b + g2;
    return t;
}
int f2(int a, int b) {
    int t = a + 3;
    g2 = t;
    t = f1(t, g3);
    b = b + g0;
    return t;
}
int f3(int a, int b) {
    int t = a + 3;
    g1 = t;
    t = f2(t, g0);
    b = b + g1;
    return t;
}
int main(void) {
    int r = f3(1, 2);
    printf(\"%d\\n\", r);
}
";

fn is_text<R: Abort + AllocGlobal>(rt: &R, seed: u32, size: u32, wanted: &[u8]) -> bool {
    let text = generate(rt.alloc(), seed, size).expect(rt, "memory");
    text.bytes() == wanted
}

#[test]
fn one_function(rt: HostRuntime) {
    assert!(rt; is_text(&rt, 1, 1, ONE_FUNCTION));
}

#[test]
fn three_functions_from_the_greatest_seed(rt: HostRuntime) {
    assert!(rt; is_text(&rt, 2_147_483_647, 3, THREE_FUNCTIONS));
}
