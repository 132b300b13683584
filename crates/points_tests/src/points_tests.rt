//! Pairs of locations of which one may point to the other. The locations are numbered in their order: the input, variables,
//! what statements allocate, and results, each with its parts.
use crate::reading::point_to;
use crate::texts::{
    ADDRESSES, BACKWARDS, CHOICES, FORWARDS, FREED, LIST, LISTS, MUTUAL, NESTED, PASSED, PICK,
    RECURSION, SITES, UNCALLED,
};

// head 1, n 2, c, sum and len, the site 6 with its members val 7 and next 8, and main's result.
#[test]
fn list(rt: HostRuntime) {
    let (head, n, site, next) = (1 << 1, 1 << 2, 1 << 6, 1 << 8);
    point_to(&rt, LIST, 10, &[(head, site), (n, site), (next, site)]);
}

// k 1, up 2, r 3, x 4, t 5, and the results of f and main.
#[test]
fn recursion(rt: HostRuntime) {
    let (up, x) = (1 << 2, 1 << 4);
    point_to(&rt, RECURSION, 8, &[(up, x)]);
}

// p 1, d 2, e 3, the site 4, and main's result.
#[test]
fn compared_subtracted_and_freed(rt: HostRuntime) {
    let (p, site) = (1 << 1, 1 << 4);
    point_to(&rt, FREED, 6, &[(p, site)]);
}

// x 1, y 2, a 3, b 4, c 5, q 6, and main's result.
#[test]
fn order_does_not_matter(rt: HostRuntime) {
    let (x, y, a, b, c, q) = (1 << 1, 1 << 2, 1 << 3, 1 << 4, 1 << 5, 1 << 6);
    let pairs = [(a, x), (b, x | y), (c, x | y), (q, b)];
    point_to(&rt, FORWARDS, 8, &pairs);
    point_to(&rt, BACKWARDS, 8, &pairs);
}

// x 1, i 2, s 3 with left 4 and right 5, a 6 with its elements 7, p 8 to v 13, and main's result.
#[test]
fn addresses(rt: HostRuntime) {
    let (x, left, right, elements) = (1 << 1, 1 << 4, 1 << 5, 1 << 7);
    let (p, q, r, t, u, v) = (1 << 8, 1 << 9, 1 << 10, 1 << 11, 1 << 12, 1 << 13);
    let pairs = [
        (p, x),
        (q, left),
        (right, left),
        (r, elements),
        (t, elements),
        (u, elements),
        (v, elements),
    ];
    point_to(&rt, ADDRESSES, 15, &pairs);
}

// x 1, y 2, i 3, p 4, q 5, r 6, s 7, and main's result.
#[test]
fn choices(rt: HostRuntime) {
    let (x, y, p, q, r, s) = (1 << 1, 1 << 2, 1 << 4, 1 << 5, 1 << 6, 1 << 7);
    point_to(&rt, CHOICES, 9, &[(p, x), (q, y), (r, x | y), (s, y)]);
}

// x 1, o 2 with parts 3, their elements 4 and of these to 5, p 6, q 7, and main's result.
#[test]
fn struct_in_an_array_in_a_struct(rt: HostRuntime) {
    let (x, elements, to, p, q) = (1 << 1, 1 << 4, 1 << 5, 1 << 6, 1 << 7);
    point_to(&rt, NESTED, 9, &[(p, elements), (to, x), (q, x)]);
}

// x 1, y 2, a 3 with its elements 4, b 5 with its elements 6, p 7, q 8, and main's result.
#[test]
fn lists(rt: HostRuntime) {
    let (x, y, in_a, in_b, p, q) = (1 << 1, 1 << 2, 1 << 4, 1 << 6, 1 << 7, 1 << 8);
    let pairs = [(in_a, x | y), (in_b, x | y), (p, x | y), (q, in_a)];
    point_to(&rt, LISTS, 10, &pairs);
}

// p 1, q 2, i 3, the sites 4, 6 and 8, each with its member behind it, and main's result.
#[test]
fn sites(rt: HostRuntime) {
    let (p, q) = (1 << 1, 1 << 2);
    let (first, first_next, second, second_next) = (1 << 4, 1 << 5, 1 << 6, 1 << 7);
    let (third, third_next) = (1 << 8, 1 << 9);
    let pairs = [
        (p, first),
        (q, second),
        (second_next, first),
        (first_next, third),
        (third_next, second),
    ];
    point_to(&rt, SITES, 11, &pairs);
}

// a 1, b 2, n 3, r 4, x 5, y 6, p 7, and the results of pick 8 and main.
#[test]
fn parameters_change_places(rt: HostRuntime) {
    let (a, b, r, p, result) = (1 << 1, 1 << 2, 1 << 4, 1 << 7, 1 << 8);
    let both = 1 << 5 | 1 << 6;
    let pairs = [(a, both), (b, both), (r, both), (p, both), (result, both)];
    point_to(&rt, PICK, 10, &pairs);
}

// a 1, n 2, r 3, b 4, n 5, s 6, x 7, p 8, and the results of even 9, odd 10 and main.
#[test]
fn mutual_recursion(rt: HostRuntime) {
    let (a, r, b, s, x, p) = (1 << 1, 1 << 3, 1 << 4, 1 << 6, 1 << 7, 1 << 8);
    let (even, odd) = (1 << 9, 1 << 10);
    let pairs = [(a, x), (r, x), (b, x), (s, x), (p, x), (even, x), (odd, x)];
    point_to(&rt, MUTUAL, 12, &pairs);
}

// g 1, h 2, a 3, p 4, and main's result.
#[test]
fn statements_of_a_function_that_is_never_called(rt: HostRuntime) {
    let (g, h, a, p) = (1 << 1, 1 << 2, 1 << 3, 1 << 4);
    point_to(&rt, UNCALLED, 6, &[(h, g), (a, g), (p, g)]);
}

// a 1, n 2, s 3, b 4 with its elements 5, t 6, and the results of first and main.
#[test]
fn array_as_an_argument(rt: HostRuntime) {
    let (a, elements) = (1 << 1, 1 << 5);
    point_to(&rt, PASSED, 9, &[(a, elements)]);
}
