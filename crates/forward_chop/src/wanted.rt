//! Which pairs of a way into a function and a result of it a chop wants.
ghost use Rattle.std.specs.Prelude.{◌≡◌, ℕ, ◌+◌, ◌-◌, ◌<◌, ◌≤◌, ◌^◌, IfOk, IsTrue, length, true, false};
ghost use Rattle.bit_rows.specs.Sets.{has};
ghost use Rattle.forward_chop.specs.Outs.{AreOrdered};
ghost use Rattle.forward_chop.specs.Pairs.{AreSpaces, IsLaid, HasAsked, IsTaken, IsPairSet, IsCleared, asks, covers, place_of};

use dep_model::{VertexId, VertexSet};
use matched_paths::VertexRange;
use std::alloc::{AllocError, Global};

/// The pairs that are asked for, and the ways in that gained one since they were taken.
#[derive(Drop)]
pub(crate) struct Wanted {
    /// For each way in, by its vertex, the results with which it may be paired; for other vertices none.
    pub(crate) outs: Vec<VertexRange>,
    /// For each way in the number of its first bit.
    pub(crate) places: Vec<u32>,
    /// The bits.
    pub(crate) pairs: VertexSet,
    /// Whether a way in gained a pair since it was taken.
    pub(crate) due: Vec<bool>,
}

// The number of the first bit for each way in, and how many there are.
#[derive(Drop)]
struct Spaces {
    places: Vec<u32>,
    end: u32,
}

// The number behind the bits of a way in. Err: that has more than 32 bits, which is more than there is memory for.
fn behind(next: u32, range: VertexRange) -> Result<u32, AllocError>
    requires { range.first ≤ range.last }
    ensures is { IfOk result (λ n. n ≡ next + (range.last - range.first)) }
    ensures few { IfOk result (λ n. n < 2 ^ 32) }
{
    match next.checked_add(range.last - range.first) {
        Some(sum) => Ok(sum),
        None => Err(AllocError),
    }
}

// Lays the bits of all ways in one behind the other. Err: no memory was left.
fn spaces_of(alloc: Global, outs: &[VertexRange]) -> Result<Spaces, AllocError>
    requires { AreOrdered outs.now }
    ensures { IfOk result (λ s. AreSpaces outs.now s.places.items s.end) }
{
    let mut places = Vec::new(alloc);
    let mut end = 0u32;
    for range in outs {
        places.push(end)?;
        end = behind(end, *range)?;
    }
    Ok(Spaces { places, end })
}

impl Wanted {
    /// Nothing is asked for yet, of these pairs. Err: no memory was left.
    pub(crate) fn new(alloc: Global, outs: Vec<VertexRange>) -> Result<Wanted, AllocError>
        requires { AreOrdered outs.items }
        ensures laid { IfOk result IsLaid }
        ensures same { IfOk result (λ w. w.outs.items ≡ outs.items) }
    {
        let spaces = spaces_of(alloc, outs.as_slice())?;
        let pairs = VertexSet::new(alloc, spaces.end)?;
        let due = vec![in alloc; false; outs.len()]?;
        Ok(Wanted {
            outs,
            places: spaces.places,
            pairs,
            due,
        })
    }

    // Whether there is a bit for the pair.
    fn covers(&self, way_in: VertexId, out: VertexId) -> bool
        ensures { result ≡ covers self.now way_in out }
    {
        if (way_in as usize) < self.outs.len() {
            self.outs[way_in as usize].has(out)
        } else {
            false
        }
    }

    // The number of the pair's bit.
    fn place(&self, way_in: VertexId, out: VertexId) -> u32
        requires laid { IsLaid self.now }
        requires covered { IsTrue (covers self.now way_in out) }
        ensures is { result ≡ place_of self.now way_in out }
        ensures inside { result < length self.now.pairs }
    {
        self.places[way_in as usize] + (out - self.outs[way_in as usize].first)
    }

    /// Whether the pair is asked for.
    pub(crate) fn has(&self, way_in: VertexId, out: VertexId) -> bool
        requires { IsLaid self.now }
        ensures { result ≡ asks self.now way_in out }
    {
        if self.covers(way_in, out) {
            self.pairs.has(self.place(way_in, out))
        } else {
            false
        }
    }

    // Asks for a pair by its bit, and makes its way in due.
    fn set(&mut self, way_in: VertexId, place: u32)
        requires inside { place < length self.old.pairs }
        requires due_in { way_in < length self.old.due.items }
        ensures { IsPairSet way_in place self.old self.new }
    {
        self.pairs.add(place);
        self.due[way_in as usize] = true;
    }

    /// Asks for a pair, where there is a bit for it, and tells whether it is new; its way in is due then.
    pub(crate) fn ask(&mut self, way_in: VertexId, out: VertexId) -> bool
        requires { IsLaid self.old }
        ensures { HasAsked (λ x o. (x ≡ way_in) × (o ≡ out)) self.old self.new result }
    {
        if !self.covers(way_in, out) {
            return false;
        }
        let place = self.place(way_in, out);
        if self.pairs.has(place) {
            return false;
        }
        self.set(way_in, place);
        true
    }

    /// Tells whether a way in is due, which it isn't any more then.
    pub(crate) fn take(&mut self, way_in: VertexId) -> bool
        requires laid { IsLaid self.old }
        requires inside { way_in < length self.old.due.items }
        ensures was { result ≡ has self.old.due.items way_in }
        ensures taken { IsTaken way_in self.old self.new }
    {
        let was = self.due[way_in as usize];
        self.due[way_in as usize] = false;
        was
    }

    /// Asks for nothing.
    pub(crate) fn clear(&mut self)
        requires { IsLaid self.old }
        ensures { IsCleared self.old self.new }
    {
        self.pairs.clear();
        self.due.as_mut_slice().fill(false);
    }
}
