//! The gates.
use crew::Gate;
use std::sync::atomic::AtomicU64;
use std::sync::atomic::Ordering::SeqCst;
use std::thread;

/// How often a held worker looks again. Each time it yields the processor, so that a busy machine is no reason to give up.
const TURNS: u64 = 50_000_000;

/// Counts the numbers that were drawn.
#[derive(Drop)]
pub struct CountGate {
    passes: AtomicU64,
}

impl CountGate {
    pub fn new() -> CountGate {
        CountGate {
            passes: AtomicU64::new(0),
        }
    }

    /// How many numbers were drawn so far.
    pub fn passes(&self) -> u64 {
        self.passes.load(SeqCst)
    }
}

impl Gate for CountGate {
    fn pass(&self, _worker: u32, _draw: u32) {
        self.passes.fetch_add(1, SeqCst);
    }
}

/// Holds the first worker that draws until so many numbers were drawn in all, its own among them, or until its patience ends.
#[derive(Drop)]
pub struct HoldGate {
    until: u64,
    passes: AtomicU64,
    met: AtomicU64,
}

impl HoldGate {
    pub fn new(until: u64) -> HoldGate {
        HoldGate {
            until,
            passes: AtomicU64::new(0),
            met: AtomicU64::new(0),
        }
    }

    /// Whether the hold ended because so many numbers were drawn.
    pub fn met(&self) -> bool {
        self.met.load(SeqCst) == 1
    }

    fn hold(&self) {
        for _ in 0..TURNS {
            if self.passes.load(SeqCst) >= self.until {
                self.met.store(1, SeqCst);
                return;
            }
            thread::yield_now();
        }
    }
}

impl Gate for HoldGate {
    fn pass(&self, _worker: u32, _draw: u32) {
        if self.passes.fetch_add(1, SeqCst) == 0 {
            self.hold();
        }
    }
}
