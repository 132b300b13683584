//! What has come to the vertices of a stretch in a search.
ghost use Rattle.std.specs.Prelude.{◌≡◌, ℕ, ◌*◌, ◌<◌, ◌≤◌, ◌^◌, true, Contains, IfOk, length};
ghost use Rattle.bit_rows.specs.Tables.{Holds};
ghost use Rattle.bit_rows.specs.Words.{word_bit};
ghost use Rattle.reaching_defs.specs.Arrivals.{IsRoomy, IsBare, HasGained};

use crate::listed_set::ListedSet;
use bit_rows::Rows;
use std::alloc::{AllocError, Global};

/// What has come to each vertex of a stretch, which are counted from its first one: a row of the bits of the words that a
/// definition holds.
#[derive(Drop)]
pub(crate) struct Arrivals {
    /// A row for each vertex.
    pub(crate) rows: Rows,
    /// The vertices whose rows aren't empty.
    pub(crate) reached: ListedSet,
    /// Those whose rows have grown since they were visited.
    pub(crate) grown: ListedSet,
}

impl Arrivals {
    /// Nothing has come to any of `size` vertices, for definitions that hold at most `width` words. Err: no memory was left.
    pub(crate) fn new(alloc: Global, size: u32, width: u32) -> Result<Arrivals, AllocError>
        requires { width ≤ 64 }
        ensures roomy { IfOk result (λ a. IsRoomy a) }
        ensures bare { IfOk result (λ a. IsBare a) }
        ensures bound { IfOk result (λ a. a.reached.bound ≡ size) }
        ensures bits { IfOk result (λ a. a.rows.bits ≡ 64 * width) }
    {
        let rows = Rows::new(alloc, size, 64 * width)?;
        let reached = ListedSet::new(alloc, size)?;
        let grown = ListedSet::new(alloc, size)?;
        Ok(Arrivals {
            rows,
            reached,
            grown,
        })
    }

    /// Adds words to what has come to a vertex, which is listed where its row grows.
    pub(crate) fn join(&mut self, w: u32, words: &[u64])
        requires roomy { IsRoomy self.old }
        requires inside { w < self.old.reached.bound }
        requires fits { 64 * length words.now ≤ self.old.rows.bits }
        ensures gained { HasGained (λ u t. (u ≡ w) × (word_bit words.now t ≡ true)) self.old self.new }
        ensures all { (t : ℕ) → word_bit words.now t ≡ true → Holds self.new.rows w t }
    {
        let grows = self.rows.join_words(w, words);
        if grows {
            self.grown.add(w);
            self.reached.add(w);
        }
    }

    /// Makes all rows empty, where those that aren't are listed.
    pub(crate) fn clear(&mut self)
        requires roomy { IsRoomy self.old }
        requires listed { (w t : ℕ) → Holds self.old.rows w t → Contains self.old.reached.members w }
        requires still { (w : ℕ) → Contains self.old.grown.members w → ⊥ }
        ensures roomy { IsRoomy self.new }
        ensures bare { IsBare self.new }
        ensures bound { self.new.reached.bound ≡ self.old.reached.bound }
        ensures bits { self.new.rows.bits ≡ self.old.rows.bits }
    {
        let reached = self.reached.members();
        for w in reached {
            self.rows.clear(*w);
        }
    }
}
