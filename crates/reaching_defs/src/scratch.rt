//! What the searches of a function work on.
ghost use Rattle.std.specs.Prelude.{◌+◌, ◌<◌, ◌≤◌, ◌^◌, IfOk, length};
ghost use Rattle.reaching_defs.specs.Arrivals.{IsAtRest};

use crate::arrivals::Arrivals;
use crate::definition::{Definition, has_many};
use crate::listed_set::ListedSet;
use bit_rows::Rows;
use dep_model::{Skeleton, Stretch};
use std::alloc::{AllocError, Global};

/// The most words that a search by rows holds.
pub(crate) const MOST_WORDS: usize = 64;

/// What the searches of a function work on, so that each of them takes no memory.
#[derive(Drop)]
pub(crate) struct Scratch {
    /// Where a single location has come.
    pub(crate) reached: ListedSet,
    /// Where one is used.
    pub(crate) targets: ListedSet,
    /// The locations of the vertex from which is searched.
    pub(crate) definition: Definition,
    /// Where they have come, all at once.
    pub(crate) arrivals: Arrivals,
    /// The vertices that are visited in a turn.
    pub(crate) turn: ListedSet,
    /// How many words the rows of arrivals have.
    pub(crate) width: usize,
}

impl Scratch {
    /// For the vertices of a stretch. Err: no memory was left.
    pub(crate) fn new(alloc: Global, s: &Skeleton, stretch: Stretch) -> Result<Scratch, AllocError>
        requires rows { stretch.first + stretch.size ≤ length s.now.defined.sets }
        requires few { stretch.first + stretch.size < 2 ^ 32 }
        ensures { IfOk result (IsAtRest stretch.size) }
    {
        let width = width_of(&s.defined, stretch);
        let reached = ListedSet::new(alloc, stretch.size)?;
        let targets = ListedSet::new(alloc, stretch.size)?;
        let arrivals = Arrivals::new(alloc, stretch.size, width as u32)?;
        let turn = ListedSet::new(alloc, stretch.size)?;
        let definition = Definition::new(alloc);
        Ok(Scratch {
            reached,
            targets,
            definition,
            arrivals,
            turn,
            width,
        })
    }
}

// How many words rows need: as many as a row of locations has, where one of the stretch has more than one location, but at most
// the most.
fn width_of(defined: &Rows, stretch: Stretch) -> usize
    requires rows { stretch.first + stretch.size ≤ length defined.now.sets }
    requires few { stretch.first + stretch.size < 2 ^ 32 }
    ensures { result ≤ 64 }
{
    for v in stretch.first..stretch.first + stretch.size {
        let words = defined.words(v);
        if has_many(words) {
            return words.len().min(MOST_WORDS);
        }
    }
    0
}
