//! Where chains of pairs lead without a kill.
ghost use Rattle.std.specs.Prelude.{◌≡◌, ℕ, ◌+◌, ◌<◌, ◌≤◌, ◌^◌, ◌↔◌, ◌⊎◌, Contains, length};
ghost use Rattle.dep_model.specs.Follows.{Chain};
ghost use Rattle.reaching_defs.specs.Listings.{GoesOn};
ghost use Rattle.reaching_defs.specs.RowFlow.{row_has, Leads};
ghost use Rattle.reaching_defs.specs.Stretches.{AreSuccessors};

use crate::listed_set::ListedSet;
use crate::successors::Successors;
use bit_rows::Rows;
use dep_model::{LocationId, VertexId};

// Adds what follows `u` to the vertices that are reached; both are counted from the first vertex of the
// stretch.
fn visit(next: &Successors, u: u32, reached: &mut ListedSet)
    requires next { AreSuccessors next.now }
    requires in_stretch { u < next.now.stretch.size }
    requires size { reached.old.bound ≡ next.now.stretch.size }
    ensures size { reached.new.bound ≡ next.now.stretch.size }
    ensures front { GoesOn reached.old.members reached.new.members }
    ensures only { (w : ℕ) → Contains reached.new.members w
        → Contains reached.old.members w ⊎ Leads next.now.pairs.items (next.now.stretch.first + u) (next.now.stretch.first + w) }
    ensures all { (w : ℕ) → Leads next.now.pairs.items (next.now.stretch.first + u) (next.now.stretch.first + w)
        → Contains reached.new.members w }
{
    let mut cursor = next.heads[u as usize];
    while cursor > 0 {
        let at = cursor - 1;
        reached.add(next.pairs[at].to - next.stretch.first);
        cursor = next.nexts[at];
    }
}

/// Makes `reached` the vertices to which a chain leads from `v` without a kill of the location, counted
/// from the first vertex of the stretch. It takes as many steps as these have pairs, and as there were
/// members.
pub(crate) fn spread(
    next: &Successors,
    v: VertexId,
    location: LocationId,
    killed: &Rows,
    reached: &mut ListedSet,
)
    requires next { AreSuccessors next.now }
    requires few { next.now.stretch.first + next.now.stretch.size < 2 ^ 32 }
    requires rows { next.now.stretch.first + next.now.stretch.size ≤ length killed.now.sets }
    requires bits { location < killed.now.bits }
    requires from { next.now.stretch.first ≤ v }
    requires to { v < next.now.stretch.first + next.now.stretch.size }
    requires size { reached.old.bound ≡ next.now.stretch.size }
    ensures size { reached.new.bound ≡ next.now.stretch.size }
    ensures exact { (w : ℕ) → Contains reached.new.members w
        ↔ Chain (Leads next.now.pairs.items) (row_has killed.now) location v (next.now.stretch.first + w) }
{
    reached.clear();
    visit(next, v - next.stretch.first, reached);
    let mut done = 0;
    while done < reached.members().len() {
        let u = reached.members()[done];
        if !killed.has(next.stretch.first + u, location) {
            visit(next, u, reached);
        }
        done += 1;
    }
}
