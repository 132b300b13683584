//! Which formal-outs depend on which formal-ins, by paths whose calls and returns match.
ghost use Rattle.std.specs.Prelude.{◌≤◌, IfOk};
ghost use Rattle.dep_model.specs.Facts.{AreFactWords};
ghost use Rattle.dep_model.specs.Shapes.{IsShaped};

use crate::analyses::{graph_of, read};
use crate::programs::{ADD, KEPT, MUTUAL, OVERWRITTEN, PICK, READS};
use crew::{Gate, OpenGate};
use dep_model::{Facts, Graph};
use sqlite_items::Items;
use std::alloc::{AllocError, Global};
use std::process::Abort;
use std::thread::Threads;
use test_gates::{CountGate, HoldGate};

/// The facts of a graph, by so many workers, who pass the gate.
fn facts_by<R: Abort + AllocGlobal + Threads + Sync, G: Gate + Sync>(
    rt: &R,
    graph: &Graph,
    workers: u32,
    gate: &G,
) -> Facts
    requires shaped { IsShaped graph.now }
    requires workers { (1 ≤ workers) × (workers ≤ 16) }
    ensures { AreFactWords graph.now result.words }
{
    summary_edges::find(rt, rt.alloc(), graph, workers, gate).expect(rt, "memory")
}

/// The formal-outs of the text's graph, in their order, depend on these formal-ins of their functions, by one, two and sixteen
/// workers: of each its word, with bit `i` for formal-in `i`.
fn has_facts<R: Abort + AllocGlobal + Threads + Sync>(rt: &R, text: &str, words: &[u64]) {
    let p = read(rt, text);
    let graph = graph_of(rt.alloc(), &p).expect(rt, "a graph");
    let one = facts_by(rt, &graph, 1, &OpenGate);
    assert_eq!(rt; one.words.as_slice(), words);
    let two = facts_by(rt, &graph, 2, &OpenGate);
    assert_eq!(rt; two.words.as_slice(), words);
    let sixteen = facts_by(rt, &graph, 16, &OpenGate);
    assert_eq!(rt; sixteen.words.as_slice(), words);
}

// Both parameters to the result in `even` and in `odd`, and the input to the input in main.
#[test]
fn mutual_recursion(rt: HostRuntime) {
    has_facts(&rt, MUTUAL, &[0b11, 0b11, 0b1]);
}

#[test]
fn worked_programs(rt: HostRuntime) {
    has_facts(&rt, OVERWRITTEN, &[0, 0]);
    has_facts(&rt, ADD, &[0b11, 0b1]);
    // `a` to `g`, `b` to `h`; main sets both anew.
    has_facts(&rt, PICK, &[0b1, 0b10, 0, 0]);
    // `a` to `g` and to the result.
    has_facts(&rt, KEPT, &[0b1, 0b1, 0]);
    has_facts(&rt, READS, &[0b1]);
}

const TURNED: &str = "int turn(int n, int a, int b, int c, int d) {
    int r = a;
    if (n > 0) {
        r = turn(n - 1, b, c, a, d);
    }
    return r;
}
int main(void) {
    int r = turn(1, 2, 3, 4, 5);
}
";

// `n` and `a` are told by the first step, `b` by the second and `c` by the third; `d` comes to nothing.
#[test]
fn three_steps(rt: HostRuntime) {
    has_facts(&rt, TURNED, &[0b1111]);
}

const CHAIN: &str = "int f1(int n, int m);
int f2(int n, int m);
int f3(int n, int m);
int f4(int n, int m);
int f5(int n, int m);
int f6(int n, int m);
int f7(int n, int m);
int f8(int n, int m);
int f9(int n, int m);
int f0(int n, int m) {
    int r = f1(n, 0);
    return r;
}
int f1(int n, int m) {
    int r = f2(n, 0);
    return r;
}
int f2(int n, int m) {
    int r = f3(n, 0);
    return r;
}
int f3(int n, int m) {
    int r = f4(n, 0);
    return r;
}
int f4(int n, int m) {
    int r = f5(n, 0);
    return r;
}
int f5(int n, int m) {
    int r = f6(n, 0);
    return r;
}
int f6(int n, int m) {
    int r = f7(n, 0);
    return r;
}
int f7(int n, int m) {
    int r = f8(n, 0);
    return r;
}
int f8(int n, int m) {
    int r = f9(n, 0);
    return r;
}
int f9(int n, int m) {
    return n;
}
int main(void) {
    int r = f0(1, 2);
}
";

// Callers stand before what they call, so that a round tells one more of them.
#[test]
fn chain_of_ten(rt: HostRuntime) {
    has_facts(&rt, CHAIN, &[1, 1, 1, 1, 1, 1, 1, 1, 1, 1]);
}

const APART: &str = "int g;
void unused(int a, int b) {
    g = b;
}
int low(int a, int b) {
    int r = 3;
    if (b > 0) {
        r = a;
    }
    return r;
}
int main(void) {
    int r = low(1, 2);
}
";

// `unused` is never called, and `low` calls nothing.
#[test]
fn functions_apart(rt: HostRuntime) {
    has_facts(&rt, APART, &[0b10, 0b11]);
}

const TWICE: &str = "int both(int n, int a, int b, int c) {
    int r = a;
    if (n > 0) {
        r = both(n - 1, b, 0, 0);
        r = both(n - 1, r, 0, 0);
    }
    return r;
}
int main(void) {
    int r = both(1, 2, 3, 4);
}
";

// `n` and `a` to the result, and `b` by the first call and then the second; `c` comes to nothing.
#[test]
fn a_function_that_calls_itself_twice(rt: HostRuntime) {
    has_facts(&rt, TWICE, &[0b111]);
}

/// A function that assigns one of its two parameters to each of so many globals, by turns.
fn wide<R: Abort + AllocGlobal>(rt: &R, globals: u32) -> String {
    let alloc = rt.alloc();
    let mut text = String::new(alloc);
    for g in 0..globals {
        let line = format!(in alloc; "int g{g};\n").expect(rt, "memory");
        text.push_str(line.as_str()).expect(rt, "memory");
    }
    text.push_str("void f(int a, int b) {\n")
        .expect(rt, "memory");
    for g in 0..globals {
        let from = if g % 2 == 0 { "a" } else { "b" };
        let line = format!(in alloc; "    g{g} = {from};\n").expect(rt, "memory");
        text.push_str(line.as_str()).expect(rt, "memory");
    }
    text.push_str("}\nint main(void) {\n    f(1, 2);\n}\n")
        .expect(rt, "memory");
    text
}

/// The words of a row of `f` hold the parameter that goes to its global alone, and those of a row of main nothing.
fn has_turns<R: Abort + AllocGlobal + Threads + Sync>(rt: &R, globals: u32, width: usize) {
    let text = wide(rt, globals);
    let p = read(rt, text.as_str());
    let graph = graph_of(rt.alloc(), &p).expect(rt, "a graph");
    let facts = facts_by(rt, &graph, 2, &OpenGate);
    let words = facts.words.as_slice();
    assert_eq!(rt; graph.outs.len(), 2 * globals as usize);
    for (number, row) in graph.outs.as_slice().iter().enumerate() {
        let first = row.word as usize;
        let wanted = if number < globals as usize {
            1 + number as u64 % 2
        } else {
            0
        };
        assert_eq!(rt; words.get(first).copied(), Some(wanted), "row {number}");
        for word in 1..width {
            assert_eq!(rt;
                words.get(first.saturating_add(word)).copied(),
                Some(0),
                "row {number}"
            );
        }
    }
}

// Bits of 65 and of 129 formal-outs stand in two and in three words.
#[test]
fn many_formal_outs(rt: HostRuntime) {
    has_turns(&rt, 65, 2);
    has_turns(&rt, 129, 3);
}

const NOTHING_OUT: &str = "int g;
void look(int a) {
    int x = a + g;
}
int main(void) {
    look(1);
}
";

// No function has a formal-out.
#[test]
fn no_formal_outs(rt: HostRuntime) {
    has_facts(&rt, NOTHING_OUT, &[]);
}

/// Facts of a graph that hold nothing.
fn no_facts(alloc: Global, g: &Graph) -> Result<Facts, AllocError>
    ensures { IfOk result (λ f. AreFactWords g.now f.words) }
{
    let words = vec![in alloc; 0u64; g.fact_words as usize]?;
    Ok(Facts {
        words: Items::from_vec(words),
    })
}

// Main calls the one function that gives facts.
#[test]
fn callers_are_due(rt: HostRuntime) {
    let p = read(&rt, KEPT);
    let graph = graph_of(rt.alloc(), &p).expect(&rt, "a graph");
    let before = no_facts(rt.alloc(), &graph).expect(&rt, "memory");
    let after = facts_by(&rt, &graph, 1, &OpenGate);
    let due = summary_edges::next_agenda(rt.alloc(), &graph, &before, &after).expect(&rt, "memory");
    assert_eq!(rt; due.as_slice(), [1].as_slice());
    let none = summary_edges::next_agenda(rt.alloc(), &graph, &after, &after).expect(&rt, "memory");
    assert!(rt; none.is_empty());
}

/// How many functions one worker takes in all rounds over the text's graph.
fn taken<R: Abort + AllocGlobal + Threads + Sync>(rt: &R, text: &str) -> u64 {
    let p = read(rt, text);
    let graph = graph_of(rt.alloc(), &p).expect(rt, "a graph");
    let gate = CountGate::new();
    let _facts = facts_by(rt, &graph, 1, &gate);
    gate.passes()
}

// The first round takes both functions. Then main alone is due where the other gave facts, and none where it gave none.
#[test]
fn later_rounds_take_what_is_due(rt: HostRuntime) {
    assert_eq!(rt; taken(&rt, KEPT), 3);
    assert_eq!(rt; taken(&rt, OVERWRITTEN), 2);
}

// Both functions call the one that calls itself. The first round takes both, and goes on with that one until it is settled; so the second,
// which takes both again, is the last.
#[test]
fn one_round_settles_a_function_that_calls_itself(rt: HostRuntime) {
    assert_eq!(rt; taken(&rt, TURNED), 4);
}

// The first worker that draws is held until another has drawn too: so two run at the same time.
#[test]
fn workers_run_side_by_side(rt: HostRuntime) {
    let p = read(&rt, MUTUAL);
    let graph = graph_of(rt.alloc(), &p).expect(&rt, "a graph");
    let gate = HoldGate::new(2);
    let facts = facts_by(&rt, &graph, 2, &gate);
    assert!(rt; gate.met());
    assert_eq!(rt; facts.words.as_slice(), [0b11, 0b11, 0b1].as_slice());
}
