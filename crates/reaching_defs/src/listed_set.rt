//! Sets of numbers that list what they have.
ghost use Rattle.std.specs.Prelude.{◌≡◌, ℕ, ◌<◌, ◌≤◌, ◌↔◌, ◌⊎◌, IsTrue, [], AllPairs, Contains, IfOk, false, length, replicate};
ghost use Rattle.bit_rows.specs.Sets.{has};
ghost use Rattle.reaching_defs.specs.Listings.{GoesOn};

use std::alloc::{AllocError, Global};
use std::marker::Model;

/// A set of numbers below a bound that lists its members: reading it, and making it empty, takes as many
/// steps as it has members, whatever the bound.
#[derive(Drop)]
pub(crate) struct ListedSet {
    marks: Vec<bool>,
    members: Vec<u32>,
}

impl Model for ListedSet {
    ghost use Rattle.std.specs.Prelude.{length, vec_capacity};
    ghost use Rattle.reaching_defs.specs.Listings.{Listing, AreMarked};

    ghost Value = { Listing };

    ghost view = { λ s. record { bound = length s.marks.items; members = s.members.items } };

    ghost invariant = { λ s. AreMarked s.marks.items s.members.items (vec_capacity s.members) };
}

impl ListedSet {
    /// The empty set, with the memory for all numbers below the bound. Err: no memory was left.
    pub(crate) fn new(alloc: Global, bound: u32) -> Result<ListedSet, AllocError>
        ensures { IfOk result (λ s. s ≡ record { bound = bound; members = [] }) }
    {
        let marks = vec![in alloc; false; bound as usize]?;
        let members = Vec::with_capacity(alloc, bound as usize)?;
        Ok(ListedSet { marks, members })
    }

    /// The members, each once, as they came or as they were sorted since.
    pub(crate) fn members(&self) -> &[u32]
        ensures all { result.now ≡ self.now.members }
        ensures below { (w : ℕ) → Contains self.now.members w → w < self.now.bound }
        ensures few { length self.now.members ≤ self.now.bound }
    {
        self.members.as_slice()
    }

    /// Adds the number behind the members, unless it is one of them.
    pub(crate) fn add(&mut self, w: u32)
        requires { w < self.old.bound }
        ensures bound { self.new.bound ≡ self.old.bound }
        ensures exact { (u : ℕ) → Contains self.new.members u ↔ (Contains self.old.members u ⊎ (u ≡ w)) }
        ensures front { GoesOn self.old.members self.new.members }
    {
        if !self.marks[w as usize] {
            self.marks[w as usize] = true;
            self.members.push_reserved(w);
        }
    }

    /// Makes the set empty.
    pub(crate) fn clear(&mut self)
        ensures { self.new ≡ record { bound = self.old.bound; members = [] } }
    {
        unmark(self.members.as_slice(), self.marks.as_mut_slice());
        self.members.clear();
    }

    /// Puts the members into ascending order.
    pub(crate) fn sort(&mut self)
        ensures bound { self.new.bound ≡ self.old.bound }
        ensures exact { (u : ℕ) → Contains self.new.members u ↔ Contains self.old.members u }
        ensures ascending { AllPairs (λ a b. a < b) self.new.members }
    {
        self.members.sort_unstable();
    }
}

// Takes the marks from the numbers, which are all that are marked.
fn unmark(members: &[u32], marks: &mut [bool])
    requires { (w : ℕ) → IsTrue (has marks.old w) ↔ Contains members.now w }
    ensures { marks.new ≡ replicate (length marks.old) false }
{
    for w in members {
        marks[*w as usize] = false;
    }
}
