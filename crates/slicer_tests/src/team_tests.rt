//! Slices of several lines by teams of workers.
ghost use Rattle.std.specs.Prelude.{◌≤◌, length};

use crate::many_tests::{AT_4, AT_7, LOOPS_AT_5_9_12};
use crate::programs::{LOOPS, MUTUAL, TWO};
use crate::running::{NONE_FAILING, ends, file, is_end, run_past, split_words};
use slice_batch::slices;
use slice_engine::{Criterion, Engine, read_program};
use slicer_top::{Gate, OpenGate, Status, Text};
use std::process::Abort;
use std::test::Fail;
use std::thread::Threads;
use test_gates::{CountGate, HoldGate};

const SHORT: usize = 4096;

const MUTUAL_AT_21: &str = r#"/* slice 21: 20 */
#include <stdio.h>
int odd(int n, int a);
int even(int n, int a) {
    int r = 1;
    if (n > 0) {
        r = odd(n - 1, a);
    }
    return r;
}
int odd(int n, int a) {
    int r = a;
    if (n > 0) {
        r = even(n - 1, a);
    }
    return r;
}
int main(void) {
    int e = even(5, 7);
    printf("%d\n", e);
}
"#;

#[test]
fn every_team_writes_the_same_bytes(rt: HostRuntime) -> Result<(), Fail> {
    // The text, the words, and what out has gained.
    let rows = [
        (LOOPS, "slice t.c 5 9 12", [LOOPS_AT_5_9_12, ""]),
        (TWO, "slice t.c 4 4", [AT_4, AT_4]),
        (TWO, "slice t.c 7 4", [AT_7, AT_4]),
        (MUTUAL, "slice t.c 21", [MUTUAL_AT_21, ""]),
        (
            TWO,
            "big 1 1",
            [
                "functions 2 statements 6 vertices 23 kept 13 bytes 155\n",
                "",
            ],
        ),
    ];
    for (text, words, texts) in rows {
        for workers in [" --workers 1", " --workers 2", " --workers 16"] {
            let mut line = String::from_str(rt.alloc(), words)?;
            line.push_str(workers)?;
            let mut out = String::new(rt.alloc());
            for part in texts {
                out.push_str(part)?;
            }
            ends(&rt, text, line.as_str(), (Status::Done, out.as_str(), ""))?;
        }
    }
    Ok(())
}

/// How many numbers are drawn for the words of this line over a text.
fn drawn_for<R: Abort + AllocGlobal + Threads + Sync>(
    rt: &R,
    text: &str,
    line: &str,
) -> Result<u64, Fail> {
    let alloc = rt.alloc();
    let gate = CountGate::new();
    let words = split_words(alloc, line)?;
    let ended = run_past(rt, &gate, &words, file(alloc, "t.c", text)?, &NONE_FAILING)?;
    assert_eq!(rt; ended.status, Status::Done, "{line}");
    Ok(gate.passes())
}

#[test]
fn a_team_draws_no_more_than_one_worker(rt: HostRuntime) -> Result<(), Fail> {
    let one = drawn_for(&rt, LOOPS, "slice t.c 5 9 12 --workers 1")?;
    let three = drawn_for(&rt, LOOPS, "slice t.c 5 9 12 --workers 3")?;
    assert_eq!(rt; three, one);
    Ok(())
}

/// The texts of two lines of TWO, by this number of workers, who pass the gate.
fn texts_at<R: Abort + AllocGlobal + Threads + Sync, G: Gate + Sync>(
    rt: &R,
    lines: (u32, u32),
    workers: u32,
    gate: &G,
) -> Result<Vec<Text>, Fail>
    requires { (1 ≤ workers) × (workers ≤ 16) }
{
    let bytes = TWO.as_bytes();
    assert!(rt; bytes.len() < SHORT);
    let program = read_program(rt.alloc(), bytes).expect(rt, "a program");
    let engine = Engine::new(rt, rt.alloc(), program, 1, &OpenGate).expect(rt, "an engine");
    let (first, second) = lines;
    let (Some(first), Some(second)) = (engine.criterion(first), engine.criterion(second)) else {
        panic!(rt; "no statement starts there");
    };
    let texts = slices(rt, rt.alloc(), &engine, &[first, second], workers, gate)?;
    Ok(texts)
}

/// One worker is held before it makes a text, until the other has drawn the other number: so two threads run.
#[test]
fn the_other_draws_while_one_is_held(rt: HostRuntime) -> Result<(), Fail> {
    let gate = HoldGate::new(2);
    let texts = texts_at(&rt, (7, 4), 2, &gate)?;
    assert!(rt; gate.met());
    assert_eq!(rt; texts.len(), 2);
    assert!(rt; texts[0].bytes() == AT_7.as_bytes());
    assert!(rt; texts[1].bytes() == AT_4.as_bytes());
    Ok(())
}

#[test]
fn each_line_is_drawn_once(rt: HostRuntime) -> Result<(), Fail> {
    for workers in [1, 2, 16] {
        let gate = CountGate::new();
        texts_at(&rt, (4, 4), workers, &gate)?;
        assert_eq!(rt; gate.passes(), 2);
    }
    Ok(())
}

/// What is assigned to `g` and answered by `f` comes from `a`, so that the facts have a second round.
const KEEP: &str = "int g;
int f(int a) {
    g = a;
    return a + 1;
}
int main(void) {
    int x = f(3);
    x = g;
    x = x + 1;
}
";

/// One worker takes both functions in the first round of the facts, and in the second main alone.
#[test]
fn facts_of_an_engine_have_two_rounds(rt: HostRuntime) -> Result<(), Fail> {
    let bytes = KEEP.as_bytes();
    assert!(rt; bytes.len() < SHORT);
    let program = read_program(rt.alloc(), bytes).expect(&rt, "a program");
    let gate = CountGate::new();
    let _engine = Engine::new(&rt, rt.alloc(), program, 1, &gate).expect(&rt, "an engine");
    assert_eq!(rt; gate.passes(), 3);
    Ok(())
}

/// One slice is made by one worker; so the other that draws while one is held helps to find the facts.
#[test]
fn a_call_finds_facts_side_by_side(rt: HostRuntime) -> Result<(), Fail> {
    let alloc = rt.alloc();
    let gate = HoldGate::new(2);
    let words = split_words(alloc, "slice t.c 21 --workers 2")?;
    let ended = run_past(
        &rt,
        &gate,
        &words,
        file(alloc, "t.c", MUTUAL)?,
        &NONE_FAILING,
    )?;
    assert!(rt; gate.met());
    is_end(
        &rt,
        &ended,
        (Status::Done, MUTUAL_AT_21, ""),
        "slice t.c 21",
    )?;
    Ok(())
}

/// Three numbers are drawn for the facts, and one for the line.
#[test]
fn a_line_is_drawn_behind_the_facts(rt: HostRuntime) -> Result<(), Fail> {
    let drawn = drawn_for(&rt, KEEP, "slice t.c 9 --workers 1")?;
    assert_eq!(rt; drawn, 4);
    Ok(())
}
