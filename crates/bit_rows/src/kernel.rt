//! The union of two lists of words: vectors of eight words, and word by word what is left.
ghost use Rattle.std.specs.Prelude.{◌≡◌, ℕ, ◌+◌, ◌*◌, ◌%◌, ◌<◌, ◌≤◌, ◌↔◌, IsFalse, length, slice_index};
ghost use Rattle.std.specs.Int.Bits.{bit_or};
ghost use Rattle.bit_rows.specs.Words.{union_words};

use std::simd::prelude::*;

// How many words a vector has.
const LANES: usize = 8;

/// Makes `to` the union of both, and tells whether it changed.
pub(crate) fn join(to: &mut [u64], from: &[u64]) -> bool
    requires { length to.old ≡ length from.now }
    ensures joined { to.new ≡ union_words to.old from.now }
    ensures changed { IsFalse result ↔ (to.new ≡ to.old) }
{
    let whole = to.len() / LANES * LANES;
    let (to_vectors, to_tail) = to.split_at_mut(whole);
    let (from_vectors, from_tail) = from.split_at(whole);
    let vectors_changed = join_vectors(to_vectors, from_vectors);
    let tail_changed = join_tail(to_tail, from_tail);
    vectors_changed | tail_changed
}

// The union of whole vectors.
fn join_vectors(to: &mut [u64], from: &[u64]) -> bool
    requires same_length { length to.old ≡ length from.now }
    requires whole { length to.old % 8 ≡ 0 }
    ensures joined { to.new ≡ union_words to.old from.now }
    ensures changed { IsFalse result ↔ (to.new ≡ to.old) }
{
    let mut changed = false;
    let mut at = 0;
    while at < to.len() {
        if join_vector(to, at, from) {
            changed = true;
        }
        at += LANES;
    }
    changed
}

// The union of the eight words from `at` on, which leaves the others.
fn join_vector(to: &mut [u64], at: usize, from: &[u64]) -> bool
    requires to_in { at + 8 ≤ length to.old }
    requires from_in { at + 8 ≤ length from.now }
    ensures before { (k : ℕ) → k < at → slice_index to.new k ≡ slice_index to.old k }
    ensures joined { (k : ℕ) → at ≤ k → k < at + 8
        → slice_index to.new k ≡ bit_or (slice_index to.old k) (slice_index from.now k) }
    ensures after { (k : ℕ) → at + 8 ≤ k → slice_index to.new k ≡ slice_index to.old k }
    ensures changed { IsFalse result ↔ (to.new ≡ to.old) }
{
    let before = u64x8::from_slice(&to[at..]);
    let after = before | u64x8::from_slice(&from[at..]);
    let fresh = after.simd_ne(before).to_bitmask();
    after.copy_to_slice(&mut to[at..]);
    fresh != 0
}

// The union, word by word.
fn join_tail(to: &mut [u64], from: &[u64]) -> bool
    requires { length to.old ≡ length from.now }
    ensures joined { to.new ≡ union_words to.old from.now }
    ensures changed { IsFalse result ↔ (to.new ≡ to.old) }
{
    let mut changed = false;
    for at in 0..to.len() {
        let before = to[at];
        let after = before | from[at];
        if after != before {
            to[at] = after;
            changed = true;
        }
    }
    changed
}
