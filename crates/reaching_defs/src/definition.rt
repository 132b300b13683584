//! The locations of a definition, by the words of its row that aren't 0.
ghost use Rattle.std.specs.Prelude.{◌≡◌, ℕ, ◌*◌, ◌<◌, ◌≤◌, ◌^◌, ◌↔◌, ◌&&◌, not, eqb, IsTrue, OnOk, length, get_or};
ghost use Rattle.std.specs.Int.{bit_at};
ghost use Rattle.bit_rows.specs.Words.{word_bit};
ghost use Rattle.reaching_defs.specs.HeldWords.{location_at, AreHeld, Meets};

use dep_model::VertexId;
use std::alloc::{AllocError, Global};

/// A vertex, and the words of a row of locations that aren't 0: their numbers, and the words.
#[derive(Drop)]
pub(crate) struct Definition {
    pub(crate) vertex: VertexId,
    pub(crate) held: Vec<u32>,
    pub(crate) words: Vec<u64>,
}

impl Definition {
    /// A definition of no location.
    pub(crate) fn new(alloc: Global) -> Definition {
        Definition {
            vertex: 0,
            held: Vec::new(alloc),
            words: Vec::new(alloc),
        }
    }

    /// Makes it that of the vertex with this row of locations. Err: no memory was left.
    pub(crate) fn take(&mut self, vertex: VertexId, row: &[u64]) -> Result<(), AllocError>
        requires { length row.now < 2 ^ 32 }
        ensures vertex { OnOk result (self.new.vertex ≡ vertex) }
        ensures held { OnOk result (AreHeld row.now self.new.held.items self.new.words.items) }
    {
        self.vertex = vertex;
        self.held.clear();
        self.words.clear();
        for (at, word) in row.iter().enumerate() {
            if *word != 0 {
                self.held.push(at as u32)?;
                self.words.push(*word)?;
            }
        }
        Ok(())
    }
}

/// Whether words have more than one bit. A search by rows is chosen by this, and what it finds doesn't depend on it.
pub(crate) fn has_many(words: &[u64]) -> bool {
    let mut seen = false;
    for word in words {
        if *word != 0 {
            if seen || word.count_ones() > 1 {
                return true;
            }
            seen = true;
        }
    }
    false
}

// The bits of a word that another one hasn't.
fn without(word: u64, other: u64) -> u64
    ensures { (bit : ℕ) → eqb (bit_at result bit) 1 ≡ (eqb (bit_at word bit) 1 && not (eqb (bit_at other bit) 1)) }
{
    word ^ (word & other)
}

/// Makes `passed` what of held words goes on behind a vertex that kills the locations of a row.
pub(crate) fn pass(held: &[u32], words: &[u64], killed: &[u64], passed: &mut [u64])
    requires long { length passed.old ≡ length held.now }
    requires words { length held.now ≤ length words.now }
    requires inside { (j : ℕ) → j < length held.now → get_or held.now j 0 < length killed.now }
    ensures long { length passed.new ≡ length held.now }
    ensures exact { (t : ℕ) → t < 64 * length held.now
        → word_bit passed.new t ≡ (word_bit words.now t && not (word_bit killed.now (location_at held.now t))) }
{
    for (j, at) in held.iter().enumerate() {
        passed[j] = without(words[j], killed[*at as usize]);
    }
}

/// Whether the held words and a row have a location in common.
pub(crate) fn meet(held: &[u32], words: &[u64], row: &[u64]) -> bool
    requires words { length held.now ≤ length words.now }
    requires inside { (j : ℕ) → j < length held.now → get_or held.now j 0 < length row.now }
    ensures { IsTrue result ↔ Meets held.now words.now row.now }
{
    for (j, at) in held.iter().enumerate() {
        if words[j] & row[*at as usize] != 0 {
            return true;
        }
    }
    false
}
