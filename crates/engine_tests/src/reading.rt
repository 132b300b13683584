//! From a text to its engine.
use slice_engine::{Criterion, Engine, OpenGate, read_program};
use std::process::Abort;
use std::thread::Threads;

const SHORT: usize = 4096;

/// The engine of a text.
pub(crate) fn engine_of<R: Abort + AllocGlobal + Threads + Sync>(rt: &R, text: &str) -> Engine {
    let bytes = text.as_bytes();
    assert!(rt; bytes.len() < SHORT);
    let program = read_program(rt.alloc(), bytes).expect(rt, "a program");
    Engine::new(rt, rt.alloc(), program, 1, &OpenGate).expect(rt, "an engine")
}

/// The criterion of a line on which a statement starts.
pub(crate) fn criterion_at<R: Abort>(rt: &R, engine: &Engine, line: u32) -> Criterion {
    engine
        .criterion(line)
        .expect(rt, "a statement starts there")
}
