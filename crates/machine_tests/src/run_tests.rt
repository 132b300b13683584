//! What programs answer, write and tell.
use crate::programs::{
    ADD, EMPTY, FOREVER, FREE, HELPER, KEEP, LIST, LOOPS, MUT, ONE, OVER, PICK, READ, REC, SW, TWO,
    UB,
};
use c_machine::{Halt, Machine, Turn};
use c_meaning::{Event, Shown};
use c_reader::read_program;
use c_tree::Program;
use std::process::Abort;

const SHORT: usize = 4096;

/// The program of the text.
pub(crate) fn read<R: Abort + AllocGlobal>(rt: &R, text: &str) -> Program {
    assert!(rt; text.len() < SHORT);
    read_program(rt.alloc(), text.as_bytes()).expect(rt, "a program")
}

// A run with so many acts answers this, and has written this.
fn ends<R: Abort + AllocGlobal>(
    rt: &R,
    text: &str,
    input: &[u8],
    budget: u64,
    halt: Halt,
    output: &[u8],
) {
    let program = read(rt, text);
    let mut machine = Machine::new(rt.alloc(), &program, input).expect(rt, "memory");
    let answer = machine.run(budget).expect(rt, "memory");
    assert!(rt; answer == halt, "{text}");
    assert!(rt; machine.output() == output, "{text}");
}

#[test]
fn programs_end_with_their_output(rt: HostRuntime) {
    // The text, the input, and what is written; a thousand acts are more than any of them takes.
    let rows: [(&str, &[u8], &[u8]); 20] = [
        (TWO, b"", b"4\n6\n"),
        (ADD, b"", b"55\n11\n"),
        (PICK, b"", b"5\n3\n"),
        (SW, b"a", b"0\n1\n"),
        (SW, b"b", b"2\n0\n"),
        (SW, b"", b"3\n0\n"),
        (READ, b"xyz", b"xz"),
        (READ, b"", b"\xff\xff"),
        (OVER, b"", b"5\n"),
        (LOOPS, b"", b"ab1\n"),
        (LIST, b"abc", b"294\n3\n"),
        (LIST, b"", b"0\n0\n"),
        (REC, b"", b"9\n"),
        (MUT, b"A", b"7\n65\n"),
        (KEEP, b"", b""),
        (HELPER, b"", b""),
        (FREE, b"", b"5\n"),
        (ONE, b"", b""),
        (UB, b"\x01", b"-2147483648\n"),
        (EMPTY, b"", b""),
    ];
    for (text, input, output) in &rows {
        ends(&rt, text, input, 1000, Halt::Ended, output);
    }
}

#[test]
fn a_budget_is_what_the_run_needs(rt: HostRuntime) {
    ends(&rt, TWO, b"", 6, Halt::Ended, b"4\n6\n");
    ends(&rt, TWO, b"", 5, Halt::Steps, b"4\n");
    ends(&rt, TWO, b"", 0, Halt::Steps, b"");
    ends(&rt, EMPTY, b"", 0, Halt::Ended, b"");
    ends(&rt, FOREVER, b"", 1000, Halt::Steps, b"");
    ends(&rt, UB, b"", 4, Halt::Undefined(3), b"");
    ends(&rt, UB, b"", 3, Halt::Steps, b"");
}

// Events as lines: the statement, and the values; null, or a pointer's index behind an @.
fn lines<R: Abort + AllocGlobal>(rt: &R, events: &[Event]) -> String {
    let mut text = String::new(rt.alloc());
    for event in events {
        let number = event.statement;
        let mut line = format!(in rt.alloc(); "{number}:").expect(rt, "memory");
        for value in event.values.as_slice() {
            let shown = match value {
                Shown::Number(n) => format!(in rt.alloc(); " {n}").expect(rt, "memory"),
                Shown::Null => format!(in rt.alloc(); " null").expect(rt, "memory"),
                Shown::Index(i) => format!(in rt.alloc(); " @{i}").expect(rt, "memory"),
            };
            line.push_str(shown.as_str()).expect(rt, "memory");
        }
        text.push_str(line.as_str()).expect(rt, "memory");
        text.push_str("\n").expect(rt, "memory");
    }
    text
}

// The text, the input, and the events of its run.
const TOLD: [(&str, &[u8], &str); 8] = [
    (TWO, b"", "0: 1\n1: 2\n2: 4\n3: 6\n4: 4\n5: 6\n"),
    (KEEP, b"", "0: 3\n1: 4\n2: 4\n3: 3\n4: 4\n"),
    (HELPER, b"", "2: 0\n"),
    (FREE, b"", "0: @0\n1: 5\n2: 5\n3: @0\n"),
    (READ, b"xyz", "0: 120\n1: 121\n2: 122\n3: 120\n4: 122\n"),
    (
        ONE,
        b"",
        "0: 0\n2: 0\n1: 1\n4: 0\n3: 1\n1: 1\n4: 1\n3: 2\n1: 1\n4: 3\n3: 3\n1: 0\n",
    ),
    (
        PICK,
        b"",
        "2: 1\n3: 2\n4: 3\n5: 4\n6:\n0: 1\n1: 2\n7: 1\n8:\n0: 3\n1: 4\n9: 5\n10: 3\n",
    ),
    (
        REC,
        b"",
        "0: 0\n1: 0\n3: 1\n4: 1\n0: 0\n1: 1\n2: 9\n3: 0\n4: 0\n7: 0\n5: 0\n6: 9\n7: 9\n8: 9\n9: 9\n",
    ),
];

#[test]
fn events_are_told_in_order(rt: HostRuntime) {
    for (text, input, told) in &TOLD {
        let program = read(&rt, text);
        let mut machine = Machine::new(rt.alloc(), &program, input).expect(&rt, "memory");
        let answer = machine.run(1000).expect(&rt, "memory");
        assert!(&rt; answer == Halt::Ended, "{text}");
        let shown = lines(&rt, machine.events());
        assert!(&rt; shown.as_str() == *told, "{text}");
    }
}

#[test]
fn single_acts_tell_the_same(rt: HostRuntime) {
    for (text, input, told) in &TOLD {
        let program = read(&rt, text);
        let mut machine = Machine::new(rt.alloc(), &program, input).expect(&rt, "memory");
        let mut turn = Turn::Going;
        for _ in 0..1000 {
            turn = machine.step().expect(&rt, "memory");
        }
        assert!(&rt; turn == Turn::Ended, "{text}");
        let shown = lines(&rt, machine.events());
        assert!(&rt; shown.as_str() == *told, "{text}");
    }
}

#[test]
fn events_are_kept_of_what_is_watched(rt: HostRuntime) {
    let program = read(&rt, TWO);
    // The second and the third statement; those past the list aren't watched.
    let watched = [false, true, true];
    let mut machine = Machine::watching(rt.alloc(), &program, b"", watched.as_slice()).expect(
        &rt, "memory",
    );
    let answer = machine.run(6).expect(&rt, "memory");
    assert!(&rt; answer == Halt::Ended);
    let shown = lines(&rt, machine.events());
    assert!(&rt; shown.as_str() == "1: 2\n2: 4\n");
    assert!(&rt; machine.output() == b"4\n6\n".as_slice());
}
