//! Where the locations of a definition come to, all at once: along the pairs go rows of those that no vertex has killed.
ghost use Rattle.std.specs.Prelude.{◌≡◌, ℕ, ◌+◌, ◌*◌, ◌<◌, ◌≤◌, ◌^◌, ◌/◌, [], true, false, IsTrue, IsFalse, Contains, length, get_or};
ghost use Rattle.bit_rows.specs.Tables.{Holds, count_all};
ghost use Rattle.bit_rows.specs.Words.{word_bit};
ghost use Rattle.reaching_defs.specs.Arrivals.{IsRoomy, IsBare, HasGained, IsSearching, Passes};
ghost use Rattle.reaching_defs.specs.RowFlow.{Leads};
ghost use Rattle.reaching_defs.specs.Stretches.{AreSuccessors};

use crate::arrivals::Arrivals;
use crate::definition::{self, Definition};
use crate::listed_set::ListedSet;
use crate::successors::Successors;
use bit_rows::Rows;
use std::mem;

// Adds words to what has come to each vertex that follows `u`; all are counted from the first vertex of the stretch.
fn visit(next: &Successors, u: u32, words: &[u64], arrivals: &mut Arrivals)
    requires next { AreSuccessors next.now }
    requires in_stretch { u < next.now.stretch.size }
    requires roomy { IsRoomy arrivals.old }
    requires wide { arrivals.old.reached.bound ≡ next.now.stretch.size }
    requires fits { 64 * length words.now ≤ arrivals.old.rows.bits }
    ensures gained { HasGained (λ w t. Leads next.now.pairs.items (next.now.stretch.first + u) (next.now.stretch.first + w)
        × (word_bit words.now t ≡ true)) arrivals.old arrivals.new }
    ensures all { (w t : ℕ) → Leads next.now.pairs.items (next.now.stretch.first + u) (next.now.stretch.first + w)
        → word_bit words.now t ≡ true → Holds arrivals.new.rows w t }
{
    let mut cursor = next.heads[u as usize];
    while cursor > 0 {
        let at = cursor - 1;
        arrivals.join(next.pairs[at].to - next.stretch.first, words);
        cursor = next.nexts[at];
    }
}

// Adds to each vertex that follows `u` what has come to `u` and isn't killed there.
fn go_on_from(
    next: &Successors,
    u: u32,
    d: &Definition,
    killed: &Rows,
    passed: &mut [u64],
    arrivals: &mut Arrivals,
)
    requires next { AreSuccessors next.now }
    requires few { next.now.stretch.first + next.now.stretch.size < 2 ^ 32 }
    requires rows { next.now.stretch.first + next.now.stretch.size ≤ length killed.now.sets }
    requires held { (j : ℕ) → j < length d.now.held.items → get_or d.now.held.items j 0 < (killed.now.bits + 63) / 64 }
    requires in_stretch { u < next.now.stretch.size }
    requires roomy { IsRoomy arrivals.old }
    requires wide { arrivals.old.reached.bound ≡ next.now.stretch.size }
    requires fits { 64 * length d.now.held.items ≤ arrivals.old.rows.bits }
    requires passed { length passed.old ≡ length d.now.held.items }
    ensures passed { length passed.new ≡ length d.now.held.items }
    ensures gained { HasGained (λ w t. Leads next.now.pairs.items (next.now.stretch.first + u) (next.now.stretch.first + w)
        × Passes next.now.stretch.first killed.now arrivals.old.rows d.now.held.items u t) arrivals.old arrivals.new }
    ensures all { (w t : ℕ) → t < 64 * length d.now.held.items
        → Leads next.now.pairs.items (next.now.stretch.first + u) (next.now.stretch.first + w)
        → Passes next.now.stretch.first killed.now arrivals.old.rows d.now.held.items u t → Holds arrivals.new.rows w t }
{
    let come = arrivals.rows.words(u);
    let kills = killed.words(next.stretch.first + u);
    definition::pass(d.held.as_slice(), come, kills, passed);
    visit(next, u, passed, arrivals);
}

// Goes on from each vertex whose row has grown since it was visited, and tells whether a row has grown by that.
fn go_on(
    next: &Successors,
    d: &Definition,
    killed: &Rows,
    passed: &mut [u64],
    turn: &mut ListedSet,
    arrivals: &mut Arrivals,
) -> bool
    requires next { AreSuccessors next.now }
    requires few { next.now.stretch.first + next.now.stretch.size < 2 ^ 32 }
    requires rows { next.now.stretch.first + next.now.stretch.size ≤ length killed.now.sets }
    requires held { (j : ℕ) → j < length d.now.held.items → get_or d.now.held.items j 0 < (killed.now.bits + 63) / 64 }
    requires long { length d.now.words.items ≡ length d.now.held.items }
    requires passed { length passed.old ≡ length d.now.held.items }
    requires turn { turn.old ≡ record { bound = next.now.stretch.size; members = [] } }
    requires searching { IsSearching next.now killed.now d.now arrivals.old }
    ensures passed { length passed.new ≡ length d.now.held.items }
    ensures turn { turn.new ≡ record { bound = next.now.stretch.size; members = [] } }
    ensures searching { IsSearching next.now killed.now d.now arrivals.new }
    ensures bits { arrivals.new.rows.bits ≡ arrivals.old.rows.bits }
    ensures more { IsTrue result → count_all arrivals.old.rows < count_all arrivals.new.rows }
    ensures done { IsFalse result → (w : ℕ) → Contains arrivals.new.grown.members w → ⊥ }
{
    mem::swap(turn, &mut arrivals.grown);
    let visited = turn.members();
    for u in visited {
        go_on_from(next, *u, d, killed, passed, arrivals);
    }
    turn.clear();
    !arrivals.grown.members().is_empty()
}

/// Finds what comes from a definition to each vertex of the stretch. A vertex is visited again where its row has grown.
pub(crate) fn spread(
    next: &Successors,
    d: &Definition,
    killed: &Rows,
    passed: &mut [u64],
    turn: &mut ListedSet,
    arrivals: &mut Arrivals,
)
    requires next { AreSuccessors next.now }
    requires few { next.now.stretch.first + next.now.stretch.size < 2 ^ 32 }
    requires rows { next.now.stretch.first + next.now.stretch.size ≤ length killed.now.sets }
    requires from { next.now.stretch.first ≤ d.now.vertex }
    requires to { d.now.vertex < next.now.stretch.first + next.now.stretch.size }
    requires held { (j : ℕ) → j < length d.now.held.items → get_or d.now.held.items j 0 < (killed.now.bits + 63) / 64 }
    requires long { length d.now.words.items ≡ length d.now.held.items }
    requires passed { length passed.old ≡ length d.now.held.items }
    requires turn { turn.old ≡ record { bound = next.now.stretch.size; members = [] } }
    requires roomy { IsRoomy arrivals.old }
    requires wide { arrivals.old.reached.bound ≡ next.now.stretch.size }
    requires fits { 64 * length d.now.held.items ≤ arrivals.old.rows.bits }
    requires bare { IsBare arrivals.old }
    ensures turn { turn.new ≡ record { bound = next.now.stretch.size; members = [] } }
    ensures searching { IsSearching next.now killed.now d.now arrivals.new }
    ensures bits { arrivals.new.rows.bits ≡ arrivals.old.rows.bits }
    ensures done { (w : ℕ) → Contains arrivals.new.grown.members w → ⊥ }
{
    arrivals.reached.clear();
    visit(
        next,
        d.vertex - next.stretch.first,
        d.words.as_slice(),
        arrivals,
    );
    while go_on(next, d, killed, passed, turn, arrivals) {}
}
