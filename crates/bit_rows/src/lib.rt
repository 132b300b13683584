//! Rows of bits: sets of numbers below one bound, each in a row of 64-bit words.
//!
//! Contracts see a [`Rows`] as a `Table` of `specs/Tables.antt`: the bound, and a list of sets, each
//! of which is a list of tests. `specs/Words.antt` says which numbers words hold. [`Rows::new`] alone
//! takes memory.
//!
//! For the crates above, `proofs/SetLemmas.antt` and `proofs/TableLemmas.antt` have what a loop to a
//! fixed point needs: inclusion as an order, and a count of members that rises with each change and
//! is bounded. `proofs/WordLemmas.antt` has what words hold.
#![tactic(auto)]

ghost use Rattle.std.specs.Prelude.{◌≡◌, ◌+◌, ◌/◌, ◌<◌, ◌≤◌, ◌↔◌, IsFalse, IfOk, true, false, length, replicate, slice_set};
ghost use Rattle.bit_rows.specs.Sets.{has, union};
ghost use Rattle.bit_rows.specs.Tables.{the_set, with_set, empty_table, IsSized, IsGrown};
ghost use Rattle.bit_rows.specs.Words.{set_of, IsClean};

mod kernel;
mod parts;

use std::alloc::{AllocError, Global};
use std::marker::Model;

/// Rows of bits, numbered from 0: each row is a set of numbers below [`Rows::new`]'s `bits`.
///
/// Number `i` is bit `i % 64` of word `i / 64` of its row. The bits of a row's last word at or past
/// the bound are always 0.
#[derive(Debug, Drop)]
pub struct Rows {
    bits: usize,
    width: usize,
    count: usize,
    words: Vec<u64>,
}

impl Model for Rows {
    ghost use Rattle.bit_rows.specs.Tables.{Table};

    ghost Value = { Table };

    ghost use Rattle.bit_rows.specs.Words.{sets_of, AreLaidOut};

    ghost view = { λ a. record { bits = a.bits; sets = sets_of a.bits a.width a.count a.words.items } };

    ghost invariant = { λ a. AreLaidOut a.bits a.width a.count a.words.items };
}

impl Rows {
    /// As many empty rows as `rows`, of numbers below `bits`.
    ///
    /// Fails with [`AllocError`] where there is no memory for `rows` times `bits / 64` words,
    /// rounded up.
    pub fn new(alloc: Global, rows: u32, bits: u32) -> Result<Rows, AllocError>
        ensures empty { IfOk result (λ r. r ≡ empty_table rows bits) }
        ensures size { IfOk result (λ r. IsSized rows bits r) }
    {
        let bits = bits as usize;
        let width = bits.div_ceil(64);
        let count = rows as usize;
        let words = vec![in alloc; 0u64; count * width]?;
        Ok(Rows {
            bits,
            width,
            count,
            words,
        })
    }

    /// Puts the number `bit` into the row.
    pub fn set(&mut self, row: u32, bit: u32)
        requires row_in { row < length self.old.sets }
        requires bit_in { bit < self.old.bits }
        ensures added { self.new ≡ with_set self.old row (slice_set (the_set self.old row) bit true) }
        ensures size { IsSized (length self.old.sets) self.old.bits self.new }
    {
        let at = row as usize * self.width + bit as usize / 64;
        self.words[at] |= 1u64 << (bit % 64);
    }

    /// Whether the number `bit` is in the row.
    pub fn has(&self, row: u32, bit: u32) -> bool
        requires row_in { row < length self.now.sets }
        requires bit_in { bit < self.now.bits }
        ensures { result ≡ has (the_set self.now row) bit }
    {
        let word = self.words[row as usize * self.width + bit as usize / 64];
        (word >> (bit % 64)) & 1 == 1
    }

    /// The words of the row, 64 numbers a word and the lowest first, with no bit at or past the
    /// bound.
    pub fn words(&self, row: u32) -> &[u64]
        requires { row < length self.now.sets }
        ensures len { length result.now ≡ (self.now.bits + 63) / 64 }
        ensures holds { set_of self.now.bits result.now ≡ the_set self.now row }
        ensures clean { IsClean self.now.bits result.now }
    {
        let width = self.width;
        parts::part(self.words.as_slice(), row as usize * width, width)
    }

    /// Makes the row empty, and leaves all others.
    pub fn clear(&mut self, row: u32)
        requires { row < length self.old.sets }
        ensures cleared { self.new ≡ with_set self.old row (replicate self.old.bits false) }
        ensures size { IsSized (length self.old.sets) self.old.bits self.new }
    {
        let width = self.width;
        parts::clear(self.words.as_mut_slice(), row as usize * width, width);
    }

    /// Makes row `to` the union of both rows, and tells whether it changed.
    pub fn join_into(&mut self, to: u32, from: u32) -> bool
        requires to_in { to < length self.old.sets }
        requires from_in { from < length self.old.sets }
        ensures joined { self.new ≡ with_set self.old to (union (the_set self.old to) (the_set self.old from)) }
        ensures changed { IsFalse result ↔ (self.new ≡ self.old) }
        ensures grown { IsGrown self.old self.new result }
        ensures size { IsSized (length self.old.sets) self.old.bits self.new }
    {
        let width = self.width;
        if to == from {
            return false;
        }
        parts::join_within(
            self.words.as_mut_slice(),
            to as usize * width,
            from as usize * width,
            width,
        )
    }

    /// Makes row `to` its union with the set that the words hold, and tells whether it changed.
    ///
    /// The words are as those of [`Rows::words`]; words that are missing at the end hold nothing.
    pub fn join_words(&mut self, to: u32, words: &[u64]) -> bool
        requires row_in { to < length self.old.sets }
        requires at_most { length words.now ≤ (self.old.bits + 63) / 64 }
        requires clean { IsClean self.old.bits words.now }
        ensures joined { self.new
            ≡ with_set self.old to (union (the_set self.old to) (set_of self.old.bits words.now)) }
        ensures changed { IsFalse result ↔ (self.new ≡ self.old) }
        ensures grown { IsGrown self.old self.new result }
        ensures size { IsSized (length self.old.sets) self.old.bits self.new }
    {
        let width = self.width;
        parts::join_at(self.words.as_mut_slice(), to as usize * width, words)
    }
}

#[cfg(test)]
mod tests {
    use super::*;
    use std::process::Abort;
    use std::test::Fail;

    // A number of bits, and whether a row of the multiples of 3 changes where the multiples of 5
    // are joined into it.
    const SIZES: [(u32, bool); 14] = [
        (0, false),
        (1, false),
        (5, false),
        (6, true),
        (63, true),
        (64, true),
        (65, true),
        (255, true),
        (256, true),
        (257, true),
        (511, true),
        (512, true),
        (513, true),
        (1000, true),
    ];

    // Two rows: the multiples of 3 below `bits`, and those of 5.
    fn multiples(alloc: Global, bits: u32) -> Result<Rows, AllocError>
        ensures { IfOk result (λ r. IsSized 2 bits r) }
    {
        let mut rows = Rows::new(alloc, 2, bits)?;
        for bit in 0..bits {
            if bit % 3 == 0 {
                rows.set(0, bit);
            }
            if bit % 5 == 0 {
                rows.set(1, bit);
            }
        }
        Ok(rows)
    }

    // Compares the rows, after the second was joined into the first, with a plain loop.
    fn assert_joined(rt: &impl Abort, rows: &Rows, bits: u32)
        requires { IsSized 2 bits rows.now }
    {
        for bit in 0..bits {
            assert_eq!(rt;
                rows.has(0, bit),
                bit % 3 == 0 || bit % 5 == 0,
                "{bit} of {bits}"
            );
            assert_eq!(rt; rows.has(1, bit), bit % 5 == 0, "{bit} of {bits}");
        }
    }

    #[test]
    fn a_join_is_told_once(rt: HostRuntime) -> Result<(), Fail> {
        let mut rows = Rows::new(rt.alloc(), 2, 70)?;
        rows.set(0, 69);
        assert!(rt; rows.join_into(1, 0));
        assert!(rt; !rows.join_into(1, 0));
        assert!(rt; rows.has(1, 69));
        assert!(rt; !rows.has(1, 68));
        Ok(())
    }

    #[test]
    fn joins_of_all_sizes_are_those_of_a_plain_loop(rt: HostRuntime) -> Result<(), Fail> {
        for (bits, changes) in SIZES {
            let mut rows = multiples(rt.alloc(), bits)?;
            assert_eq!(rt; rows.join_into(0, 1), changes, "{bits} bits");
            assert!(rt; !rows.join_into(0, 1), "{bits} bits");
            assert!(rt; !rows.join_into(1, 1), "{bits} bits");
            assert_joined(&rt, &rows, bits);
            let mut others = multiples(rt.alloc(), bits)?;
            assert_eq!(rt; others.join_words(0, rows.words(1)), changes, "{bits} bits");
            assert!(rt; !others.join_words(0, rows.words(1)), "{bits} bits");
            assert_joined(&rt, &others, bits);
        }
        Ok(())
    }

    #[test]
    fn a_cleared_row_is_empty(rt: HostRuntime) -> Result<(), Fail> {
        let mut rows = multiples(rt.alloc(), 130)?;
        rows.clear(0);
        for bit in 0..130 {
            assert!(rt; !rows.has(0, bit), "{bit}");
            assert_eq!(rt; rows.has(1, bit), bit % 5 == 0, "{bit}");
        }
        Ok(())
    }

    #[test]
    fn the_lowest_number_is_the_lowest_bit(rt: HostRuntime) -> Result<(), Fail> {
        let mut rows = Rows::new(rt.alloc(), 3, 70)?;
        rows.set(1, 0);
        rows.set(1, 63);
        rows.set(1, 64);
        rows.set(1, 69);
        assert_eq!(rt; rows.words(1), [0x8000_0000_0000_0001, 0x21].as_slice());
        assert_eq!(rt; rows.words(2), [0, 0].as_slice());
        Ok(())
    }

    #[test]
    fn rows_without_words_take_no_room(rt: HostRuntime) -> Result<(), Fail> {
        let mut rows = Rows::new(rt.alloc(), 2, 0)?;
        assert_eq!(rt; rows.words(1).len(), 0);
        assert!(rt; !rows.join_words(1, &[]));
        Rows::new(rt.alloc(), 0, 70)?;
        assert!(rt; Rows::new(rt.alloc(), u32::MAX, u32::MAX).is_err());
        Ok(())
    }
}
