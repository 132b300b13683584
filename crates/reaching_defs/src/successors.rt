//! Which pairs lead from each vertex.
ghost use Rattle.std.specs.Prelude.{◌≡◌, ◌+◌, ◌<◌, All, IfOk, length, replicate};
ghost use Rattle.reaching_defs.specs.Stretches.{IsPairAmong, IsIndexed, AreSuccessors};

use dep_model::{Pair, Stretch, VertexId};
use std::alloc::{AllocError, Global};

/// The pairs of a stretch, where those that lead from one vertex are joined from the last to the first:
/// the last of each vertex, and the one before each pair, as one more than its place, and 0 for none.
#[derive(Drop)]
pub(crate) struct Successors {
    pub(crate) stretch: Stretch,
    pub(crate) pairs: Vec<Pair>,
    pub(crate) heads: Vec<usize>,
    pub(crate) nexts: Vec<usize>,
}

impl Successors {
    pub(crate) fn find(
        alloc: Global,
        stretch: Stretch,
        pairs: &[Pair],
    ) -> Result<Successors, AllocError>
        requires inside { All (IsPairAmong stretch.first stretch.size) pairs.now }
        ensures right { IfOk result (λ s. AreSuccessors s) }
        ensures stretch { IfOk result (λ s. s.stretch ≡ stretch) }
        ensures pairs { IfOk result (λ s. s.pairs.items ≡ pairs.now) }
    {
        let mut heads = vec![in alloc; 0usize; stretch.size as usize]?;
        let mut nexts = vec![in alloc; 0usize; pairs.len()]?;
        index(
            stretch.first,
            pairs,
            heads.as_mut_slice(),
            nexts.as_mut_slice(),
        );
        let pairs = Vec::from_slice(alloc, pairs)?;
        Ok(Successors {
            stretch,
            pairs,
            heads,
            nexts,
        })
    }
}

// Joins the pairs from each vertex, which are counted from `base` on.
fn index(base: VertexId, pairs: &[Pair], heads: &mut [usize], nexts: &mut [usize])
    requires inside { All (IsPairAmong base (length heads.old)) pairs.now }
    requires empty { heads.old ≡ replicate (length heads.old) 0 }
    requires long { length nexts.old ≡ length pairs.now }
    ensures { IsIndexed base (length heads.old) pairs.now heads.new nexts.new }
{
    for (e, pair) in pairs.iter().enumerate() {
        let from = (pair.from - base) as usize;
        nexts[e] = heads[from];
        heads[from] = e + 1;
    }
}
