//! Tests of sets of vertices across word borders, and of what a few rules add to given sets.
ghost use Rattle.std.specs.Prelude.{◌≡◌, ◌<◌, ◌^◌, IfOk, length};

use super::*;
use std::alloc::{AllocError, Global};
use std::test::Fail;

// The set of the vertices at which the row has a `1`.
fn set_of(alloc: Global, row: &[u8]) -> Result<VertexSet, AllocError>
    requires { length row.now < 2 ^ 32 }
    ensures { IfOk result (λ s. length s ≡ length row.now) }
{
    let mut set = VertexSet::new(alloc, row.len() as u32)?;
    for (v, mark) in row.iter().enumerate() {
        if *mark == b'1' {
            set.add(v as u32);
        }
    }
    Ok(set)
}

// Whether the set has exactly the vertices at which the row has a `1`.
fn is_row(set: &VertexSet, row: &[u8]) -> bool {
    if set.len() as usize != row.len() {
        return false;
    }
    for (v, mark) in row.iter().enumerate() {
        if set.has(v as u32) != (*mark == b'1') {
            return false;
        }
    }
    true
}

fn rule(first: u32, second: u32, gives: u32) -> Rule
    ensures { result ≡ record { first = first; second = second; gives = gives } }
{
    Rule {
        first,
        second,
        gives,
    }
}

#[test]
fn sets(rt: HostRuntime) -> Result<(), Fail> {
    let mut set = VertexSet::new(rt.alloc(), 130)?;
    assert_eq!(rt; set.len(), 130);
    set.add(63);
    set.add(64);
    set.add(129);
    set.add(129);
    for (v, has) in [
        (0, false),
        (63, true),
        (64, true),
        (65, false),
        (128, false),
        (129, true),
    ] {
        assert_eq!(rt; set.has(v), has, "vertex {v}");
    }
    set.clear();
    assert!(rt; !set.has(63) && !set.has(64) && !set.has(129));
    Ok(())
}

#[test]
fn closes(rt: HostRuntime) -> Result<(), Fail> {
    let rules = vec![in rt.alloc(); rule(3, 4, 5), rule(1, 2, 3), rule(0, 0, 1)]?;
    let mut closure = Closure::prepare(rt.alloc(), 6, rules)?;
    // What is given, and its least closed set.
    for (given, closed) in [
        (b"000000", b"000000"),
        (b"100000", b"110000"),
        (b"010000", b"010000"),
        (b"001000", b"001000"),
        (b"101000", b"111100"),
        (b"101010", b"111111"),
        (b"000110", b"000111"),
    ] {
        let mut set = set_of(rt.alloc(), given)?;
        closure.close(&mut set);
        assert!(rt; is_row(&set, closed));
    }
    Ok(())
}
