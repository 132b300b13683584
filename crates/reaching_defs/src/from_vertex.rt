//! The flow edges from one vertex.
ghost use Rattle.std.specs.Prelude.{◌≡◌, ℕ, ◌+◌, ◌*◌, ◌/◌, ◌<◌, ◌≤◌, ◌^◌, ◌↔◌, ◌⊎◌, [], IsTrue, AllPairs, eqb, length, get_or, OnOk, Contains};
ghost use Rattle.std.specs.Int.{bit_at};
ghost use Rattle.dep_model.specs.EdgeOrder.{AreAscendingEdges};
ghost use Rattle.dep_model.specs.declared.edge.Edge.{Edge};
ghost use Rattle.reaching_defs.specs.Arrivals.{IsAtRest, IsBare, IsMet, IsOfRow, IsRoomy};
ghost use Rattle.reaching_defs.specs.FlowEdges.{IsTargeted};
ghost use Rattle.reaching_defs.specs.RowFlow.{AreEvenRows, IsRowFlow, row_has};
ghost use Rattle.reaching_defs.specs.Stretches.{AreSuccessors, FlowsAmong};

use crate::arrivals::Arrivals;
use crate::definition::{Definition, has_many, meet};
use crate::listed_set::ListedSet;
use crate::scratch::{MOST_WORDS, Scratch};
use crate::successors::Successors;
use crate::{row_search, search};
use bit_rows::Rows;
use dep_model::{Edge, Label, LocationId, Skeleton, VertexId};
use std::alloc::AllocError;

// Adds to the targets those of the reached vertices that may use the location; all are counted from
// `base` on.
fn collect(
    base: VertexId,
    location: LocationId,
    used: &Rows,
    reached: &[u32],
    targets: &mut ListedSet,
)
    requires few { base + targets.old.bound < 2 ^ 32 }
    requires rows { base + targets.old.bound ≤ length used.now.sets }
    requires bits { location < used.now.bits }
    requires below { (w : ℕ) → Contains reached.now w → w < targets.old.bound }
    ensures size { targets.new.bound ≡ targets.old.bound }
    ensures exact { (w : ℕ) → Contains targets.new.members w
        ↔ (Contains targets.old.members w ⊎ (Contains reached.now w × IsTrue (row_has used.now (base + w) location))) }
{
    for w in reached {
        if used.has(base + *w, location) {
            targets.add(*w);
        }
    }
}

// Whether the bit of a word is set.
fn is_set(word: u64, bit: u32) -> bool
    requires { bit < 64 }
    ensures { result ≡ eqb (bit_at word bit) 1 }
{
    (word >> bit) & 1 == 1
}

// Adds the targets of `v` by the 64 locations from `first` on, whose bits in the row of `v` the word has.
fn add_targets(
    next: &Successors,
    v: VertexId,
    first: LocationId,
    word: u64,
    s: &Skeleton,
    reached: &mut ListedSet,
    targets: &mut ListedSet,
)
    requires next { AreSuccessors next.now }
    requires few { length s.now.vertices < 2 ^ 32 }
    requires rows { AreEvenRows s.now }
    requires stretch_in { next.now.stretch.first + next.now.stretch.size ≤ length s.now.vertices }
    requires from { next.now.stretch.first ≤ v }
    requires to { v < next.now.stretch.first + next.now.stretch.size }
    requires wide { reached.old.bound ≡ next.now.stretch.size }
    requires size { targets.old.bound ≡ next.now.stretch.size }
    requires word { (bit : ℕ) → bit < 64 → row_has s.now.defined v (first + bit) ≡ eqb (bit_at word bit) 1 }
    requires in_row { (k : ℕ) → IsTrue (row_has s.now.defined v k) → k < s.now.defined.bits }
    requires few_locations { s.now.defined.bits < 2 ^ 32 }
    ensures wide { reached.new.bound ≡ next.now.stretch.size }
    ensures size { targets.new.bound ≡ next.now.stretch.size }
    ensures exact { (w : ℕ) → Contains targets.new.members w
        ↔ (Contains targets.old.members w ⊎ FlowsAmong first (first + 64) s.now next.now.pairs.items v (next.now.stretch.first + w)) }
{
    for bit in 0..64 {
        if is_set(word, bit) {
            let location = first + bit;
            search::spread(next, v, location, &s.killed, reached);
            collect(
                next.stretch.first,
                location,
                &s.used,
                reached.members(),
                targets,
            );
        }
    }
}

// Makes the targets those to which a location flows from `v`.
fn find_targets(
    next: &Successors,
    v: VertexId,
    s: &Skeleton,
    reached: &mut ListedSet,
    targets: &mut ListedSet,
)
    requires next { AreSuccessors next.now }
    requires few { length s.now.vertices < 2 ^ 32 }
    requires rows { AreEvenRows s.now }
    requires stretch_in { next.now.stretch.first + next.now.stretch.size ≤ length s.now.vertices }
    requires from { next.now.stretch.first ≤ v }
    requires to { v < next.now.stretch.first + next.now.stretch.size }
    requires wide { reached.old.bound ≡ next.now.stretch.size }
    requires size { targets.old.bound ≡ next.now.stretch.size }
    requires few_locations { s.now.defined.bits < 2 ^ 32 }
    ensures wide { reached.new.bound ≡ next.now.stretch.size }
    ensures size { targets.new.bound ≡ next.now.stretch.size }
    ensures exact { (w : ℕ) → Contains targets.new.members w
        ↔ FlowsAmong 0 s.now.defined.bits s.now next.now.pairs.items v (next.now.stretch.first + w) }
{
    targets.clear();
    for (at, word) in s.defined.words(v).iter().enumerate() {
        if *word != 0 {
            let first = 64 * at as u32;
            add_targets(next, v, first, *word, s, reached, targets);
        }
    }
}

// Adds to the targets those of the reached vertices that may use a location that has come to them; all are counted from `base` on.
fn collect_met(
    base: VertexId,
    d: &Definition,
    arrivals: &Arrivals,
    used: &Rows,
    targets: &mut ListedSet,
)
    requires few { base + targets.old.bound < 2 ^ 32 }
    requires rows { base + targets.old.bound ≤ length used.now.sets }
    requires held { (j : ℕ) → j < length d.now.held.items → get_or d.now.held.items j 0 < (used.now.bits + 63) / 64 }
    requires roomy { IsRoomy arrivals.now }
    requires size { arrivals.now.reached.bound ≡ targets.old.bound }
    requires fits { 64 * length d.now.held.items ≤ arrivals.now.rows.bits }
    ensures size { targets.new.bound ≡ targets.old.bound }
    ensures exact { (w : ℕ) → Contains targets.new.members w
        ↔ (Contains targets.old.members w ⊎ (Contains arrivals.now.reached.members w × IsMet base d.now arrivals.now.rows used.now w)) }
{
    let reached = arrivals.reached.members();
    for w in reached {
        let come = arrivals.rows.words(*w);
        let uses = used.words(base + *w);
        if meet(d.held.as_slice(), come, uses) {
            targets.add(*w);
        }
    }
}

// Makes the targets those to which a location of a definition flows, by one search for all its locations.
fn find_by_rows(
    next: &Successors,
    d: &Definition,
    s: &Skeleton,
    turn: &mut ListedSet,
    arrivals: &mut Arrivals,
    targets: &mut ListedSet,
)
    requires next { AreSuccessors next.now }
    requires few { length s.now.vertices < 2 ^ 32 }
    requires rows { AreEvenRows s.now }
    requires stretch_in { next.now.stretch.first + next.now.stretch.size ≤ length s.now.vertices }
    requires from { next.now.stretch.first ≤ d.now.vertex }
    requires to { d.now.vertex < next.now.stretch.first + next.now.stretch.size }
    requires row { IsOfRow s.now.defined d.now }
    requires few_words { length d.now.held.items ≤ 64 }
    requires turn { turn.old ≡ record { bound = next.now.stretch.size; members = [] } }
    requires roomy { IsRoomy arrivals.old }
    requires wide { arrivals.old.reached.bound ≡ next.now.stretch.size }
    requires fits { 64 * length d.now.held.items ≤ arrivals.old.rows.bits }
    requires bare { IsBare arrivals.old }
    requires size { targets.old.bound ≡ next.now.stretch.size }
    ensures turn { turn.new ≡ record { bound = next.now.stretch.size; members = [] } }
    ensures roomy { IsRoomy arrivals.new }
    ensures wide { arrivals.new.reached.bound ≡ next.now.stretch.size }
    ensures bits { arrivals.new.rows.bits ≡ arrivals.old.rows.bits }
    ensures bare { IsBare arrivals.new }
    ensures size { targets.new.bound ≡ next.now.stretch.size }
    ensures exact { (w : ℕ) → Contains targets.new.members w
        ↔ FlowsAmong 0 s.now.defined.bits s.now next.now.pairs.items d.now.vertex (next.now.stretch.first + w) }
{
    targets.clear();
    let mut passed = [0u64; MOST_WORDS];
    let count = d.held.len();
    row_search::spread(next, d, &s.killed, &mut passed[..count], turn, arrivals);
    collect_met(next.stretch.first, d, arrivals, &s.used, targets);
    arrivals.clear();
}

// Makes the targets those to which a location flows from `v`: by rows, as far as these are wide enough, and else by a search for each. Err:
// no memory was left.
fn find_many(
    next: &Successors,
    v: VertexId,
    s: &Skeleton,
    x: &mut Scratch,
) -> Result<(), AllocError>
    requires next { AreSuccessors next.now }
    requires few { length s.now.vertices < 2 ^ 32 }
    requires rows { AreEvenRows s.now }
    requires stretch_in { next.now.stretch.first + next.now.stretch.size ≤ length s.now.vertices }
    requires from { next.now.stretch.first ≤ v }
    requires to { v < next.now.stretch.first + next.now.stretch.size }
    requires few_locations { s.now.defined.bits < 2 ^ 32 }
    requires rest { IsAtRest next.now.stretch.size x.old }
    ensures rest { OnOk result (IsAtRest next.now.stretch.size x.new) }
    ensures exact { OnOk result ((w : ℕ) → Contains x.new.targets.members w
        ↔ FlowsAmong 0 s.now.defined.bits s.now next.now.pairs.items v (next.now.stretch.first + w)) }
{
    x.definition.take(v, s.defined.words(v))?;
    let count = x.definition.held.len();
    if count <= x.width {
        find_by_rows(
            next,
            &x.definition,
            s,
            &mut x.turn,
            &mut x.arrivals,
            &mut x.targets,
        );
    } else {
        find_targets(next, v, s, &mut x.reached, &mut x.targets);
    }
    Ok(())
}

// Makes the targets those to which a location flows from `v`: by rows where it has many, and else by a search for the one that it has. Where
// no vertex of the stretch has many, rows have no width. Err: no memory was left.
fn find_all(next: &Successors, v: VertexId, s: &Skeleton, x: &mut Scratch) -> Result<(), AllocError>
    requires next { AreSuccessors next.now }
    requires few { length s.now.vertices < 2 ^ 32 }
    requires rows { AreEvenRows s.now }
    requires stretch_in { next.now.stretch.first + next.now.stretch.size ≤ length s.now.vertices }
    requires from { next.now.stretch.first ≤ v }
    requires to { v < next.now.stretch.first + next.now.stretch.size }
    requires few_locations { s.now.defined.bits < 2 ^ 32 }
    requires rest { IsAtRest next.now.stretch.size x.old }
    ensures rest { OnOk result (IsAtRest next.now.stretch.size x.new) }
    ensures exact { OnOk result ((w : ℕ) → Contains x.new.targets.members w
        ↔ FlowsAmong 0 s.now.defined.bits s.now next.now.pairs.items v (next.now.stretch.first + w)) }
{
    if x.width > 0 && has_many(s.defined.words(v)) {
        find_many(next, v, s, x)?;
    } else {
        find_targets(next, v, s, &mut x.reached, &mut x.targets);
    }
    Ok(())
}

// Appends the flow edges from `v` to the targets, which ascend and are counted from `base` on.
fn push_edges(
    base: VertexId,
    v: VertexId,
    targets: &[u32],
    found: &mut Vec<Edge>,
) -> Result<(), AllocError>
    requires few { (w : ℕ) → Contains targets.now w → base + w < 2 ^ 32 }
    requires order { AllPairs (λ a b. a < b) targets.now }
    requires before { (e : Edge) → Contains found.old.items e → e.from < v }
    requires ascending { AreAscendingEdges found.old.items }
    ensures exact { OnOk result ((e : Edge) → Contains found.new.items e
        ↔ (Contains found.old.items e ⊎ IsTargeted v base (length targets.now) targets.now e)) }
    ensures ascending { OnOk result (AreAscendingEdges found.new.items) }
{
    for w in targets {
        found.push(Edge {
            from: v,
            to: base + *w,
            label: Label::Flow,
        })?;
    }
    Ok(())
}

/// Appends the flow edges from `v`, where those that were found begin at vertices before it. Err: no memory was left.
pub(crate) fn edges_from(
    next: &Successors,
    v: VertexId,
    s: &Skeleton,
    x: &mut Scratch,
    found: &mut Vec<Edge>,
) -> Result<(), AllocError>
    requires next { AreSuccessors next.now }
    requires few { length s.now.vertices < 2 ^ 32 }
    requires rows { AreEvenRows s.now }
    requires stretch_in { next.now.stretch.first + next.now.stretch.size ≤ length s.now.vertices }
    requires from { next.now.stretch.first ≤ v }
    requires to { v < next.now.stretch.first + next.now.stretch.size }
    requires few_locations { s.now.defined.bits < 2 ^ 32 }
    requires rest { IsAtRest next.now.stretch.size x.old }
    requires before { (e : Edge) → Contains found.old.items e → e.from < v }
    requires ascending { AreAscendingEdges found.old.items }
    ensures rest { OnOk result (IsAtRest next.now.stretch.size x.new) }
    ensures exact { OnOk result ((e : Edge) → Contains found.new.items e
        ↔ (Contains found.old.items e ⊎ ((e.from ≡ v) × IsRowFlow s.now (record { pairs = next.now.pairs.items }) e))) }
    ensures ascending { OnOk result (AreAscendingEdges found.new.items) }
{
    find_all(next, v, s, x)?;
    x.targets.sort();
    push_edges(next.stretch.first, v, x.targets.members(), found)
}
