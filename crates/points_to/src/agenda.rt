//! Which statements have been used, and which of them have read the rows of which locations.
ghost use Rattle.std.specs.Prelude.{◌≡◌, ◌⊎◌, ℕ, ◌+◌, ◌/◌, ◌<◌, ◌≤◌, true, false, IfOk, ◌&&◌, not, eqb, length};
ghost use Rattle.std.specs.Int.{bit_at};
ghost use Rattle.bit_rows.specs.Sets.{has};
ghost use Rattle.bit_rows.specs.Tables.{Holds, IsSized};
ghost use Rattle.bit_rows.specs.Words.{word_bit};
ghost use Rattle.points_to.specs.Agendas.{IsAgenda, is_settled};

use crate::blocks::next_place;
use bit_rows::Rows;
use dep_model::LocationId;
use std::alloc::{AllocError, Global};

/// The statements of a list that have been used, by their places in it, and which of them have read the row of each location.
#[derive(Drop)]
pub(crate) struct Agenda {
    /// For each location, the statements that have read its row.
    pub(crate) readers: Rows,
    /// Whether a statement has been used, and no row that it read has grown since: bit k % 64 of word k / 64 for statement k.
    pub(crate) settled: Vec<u64>,
}

// Whether the bit of a word is set.
fn is_set(word: u64, bit: u32) -> bool
    requires { bit < 64 }
    ensures { result ≡ eqb (bit_at word bit) 1 }
{
    (word >> bit) & 1 == 1
}

// The bits of a word that another one hasn't.
fn without(word: u64, other: u64) -> u64
    ensures { (bit : ℕ) → eqb (bit_at result bit) 1 ≡ (eqb (bit_at word bit) 1 && not (eqb (bit_at other bit) 1)) }
{
    word ^ (word & other)
}

// Takes the bits of words from those of others.
fn remove(from: &mut [u64], words: &[u64])
    requires inside { length words.now ≤ length from.old }
    ensures long { length from.new ≡ length from.old }
    ensures exact { (k : ℕ) → word_bit from.new k ≡ (word_bit from.old k && not (word_bit words.now k)) }
{
    for (at, word) in words.iter().enumerate() {
        from[at] = without(from[at], *word);
    }
}

// Sets the bit of a number.
fn put(words: &mut [u64], k: u32)
    requires inside { k / 64 < length words.old }
    ensures long { length words.new ≡ length words.old }
    ensures put { (j : ℕ) → word_bit words.new j ≡ true → (j ≡ k) ⊎ (word_bit words.old j ≡ true) }
{
    let at = k as usize / 64;
    words[at] |= 1u64 << (k % 64);
}

impl Agenda {
    /// None of so many statements has been used, and none has read a row of so many locations. Err: no memory was left.
    pub(crate) fn new(alloc: Global, locations: u32, statements: u32) -> Result<Agenda, AllocError>
        ensures sized { IfOk result (λ a. IsAgenda locations a) }
        ensures statements { IfOk result (λ a. a.readers.bits ≡ statements) }
        ensures none { IfOk result (λ a. (k : ℕ) → is_settled a k ≡ false) }
    {
        let readers = Rows::new(alloc, locations, statements)?;
        let words = (statements as usize).div_ceil(64);
        let settled = vec![in alloc; 0u64; words]?;
        Ok(Agenda { readers, settled })
    }

    /// Whether a statement has been used, and no row that it read has grown since.
    pub(crate) fn is_settled(&self, k: u32) -> bool
        requires inside { k / 64 < length self.now.settled.items }
        ensures { result ≡ is_settled self.now k }
    {
        is_set(self.settled[k as usize / 64], k % 64)
    }

    /// A statement is used now.
    pub(crate) fn settle(&mut self, k: u32)
        requires inside { k / 64 < length self.old.settled.items }
        ensures settled { (j : ℕ) → is_settled self.new j ≡ true → (j ≡ k) ⊎ (is_settled self.old j ≡ true) }
        ensures long { length self.new.settled.items ≡ length self.old.settled.items }
        ensures readers { self.new.readers ≡ self.old.readers }
    {
        put(self.settled.as_mut_slice(), k);
    }

    // A statement has read the row of a location, where that is in a row.
    fn note_at(&mut self, k: u32, read: &Rows, row: u32, place: LocationId)
        requires inside { k < self.old.readers.bits }
        requires sized { IsSized read.now.bits self.old.readers.bits self.old.readers }
        requires row_in { row < length read.now.sets }
        requires place_in { place < read.now.bits }
        ensures kept { (l j : ℕ) → Holds self.old.readers l j → Holds self.new.readers l j }
        ensures noted { Holds read.now row place → Holds self.new.readers place k }
        ensures sized { IsSized read.now.bits self.old.readers.bits self.new.readers }
        ensures settled { self.new.settled ≡ self.old.settled }
    {
        if read.has(row, place) {
            self.readers.set(place, k);
        }
    }

    /// A statement has read the rows of the locations of a row.
    pub(crate) fn note(&mut self, k: u32, read: &Rows, row: u32, count: u32)
        requires count { count ≡ read.now.bits }
        requires inside { k < self.old.readers.bits }
        requires sized { IsSized read.now.bits self.old.readers.bits self.old.readers }
        requires row_in { row < length read.now.sets }
        ensures kept { (l j : ℕ) → Holds self.old.readers l j → Holds self.new.readers l j }
        ensures noted { (l : ℕ) → l < read.now.bits → Holds read.now row l → Holds self.new.readers l k }
        ensures sized { IsSized read.now.bits self.old.readers.bits self.new.readers }
        ensures settled { self.new.settled ≡ self.old.settled }
    {
        let mut place = next_place(read, row, 0, count);
        while place < count {
            self.note_at(k, read, row, place);
            place = next_place(read, row, place + 1, count);
        }
    }

    /// The row of a location has grown: what has read it isn't settled any longer.
    pub(crate) fn tell(&mut self, l: LocationId)
        requires row_in { l < length self.old.readers.sets }
        requires long { length self.old.settled.items ≡ (self.old.readers.bits + 63) / 64 }
        ensures told { (k : ℕ) → is_settled self.new k ≡ true → (is_settled self.old k ≡ true) × (Holds self.old.readers l k → ⊥) }
        ensures long { length self.new.settled.items ≡ length self.old.settled.items }
        ensures readers { self.new.readers ≡ self.old.readers }
    {
        remove(self.settled.as_mut_slice(), self.readers.words(l));
    }
}
