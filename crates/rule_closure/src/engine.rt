//! The marking that closes a set by rules.
ghost use Rattle.std.specs.Prelude.{◌≡◌, ℕ, ◌+◌, ◌-◌, ◌<◌, ◌≤◌, ◌↔◌, Bool, IsTrue, length, slice_index, slice_index_or, replicate, IfOk, map, List};
ghost use Rattle.bit_rows.specs.Sets.{has};
ghost use Rattle.rule_closure.specs.Links.{Linked, LinkDerived, IsIndexed, IsLinkWithin, IsListed, from_first, links_of};
ghost use Rattle.rule_closure.specs.declared.engine.Link.{Link};

use crate::closure::Rule;
use crate::vertex_set::VertexSet;
use std::alloc::{AllocError, Global};

/// A rule, as it is found at one of its premises.
#[derive(Clone, Copy, Debug)]
pub(crate) struct Link {
    pub(crate) to: u32,
    pub(crate) beside: u32,
    pub(crate) gives: u32,
}

/// Each rule, from each of its premises. Err: no memory was left.
pub(crate) fn links_of(alloc: Global, rules: &[Rule]) -> Result<Vec<Link>, AllocError>
    ensures { IfOk result (λ links. links.items ≡ links_of rules.now) }
{
    let mut links = first_links(alloc, rules)?;
    for rule in rules {
        links.push(Link {
            to: rule.second,
            beside: rule.first,
            gives: rule.gives,
        })?;
    }
    Ok(links)
}

fn first_links(alloc: Global, rules: &[Rule]) -> Result<Vec<Link>, AllocError>
    ensures { IfOk result (λ links. links.items ≡ map from_first rules.now) }
{
    rules
        .iter()
        .map(|r| Link {
            to: r.first,
            beside: r.second,
            gives: r.gives,
        })
        .collect(alloc)
}

/// Joins the links at each number into a chain, from the last to the first.
pub(crate) fn index(links: &[Link], heads: &mut [usize], nexts: &mut [usize])
    requires in_range { (e : ℕ) (l : Link) → e < length links.now → slice_index_or links.now e l ≡ l
        → IsLinkWithin (length heads.old) l }
    requires empty { heads.old ≡ replicate (length heads.old) 0 }
    requires long { length nexts.old ≡ length links.now }
    ensures { IsIndexed links.now heads.new nexts.new }
{
    for (e, link) in links.iter().enumerate() {
        let to = link.to as usize;
        nexts[e] = heads[to];
        heads[to] = e + 1;
    }
}

// Lists the members of a set.
fn list(order: &mut [u32], set: &VertexSet) -> usize
    requires room { length set.now ≤ length order.old }
    ensures { IsListed order.new result set.now }
{
    let mut filled = 0;
    for v in 0..set.len() {
        if set.has(v) {
            order[filled] = v;
            filled += 1;
        }
    }
    filled
}

// Adds what the links at `v` give whose other premise is there, at the end of the order.
fn visit(
    links: &[Link],
    heads: &[usize],
    nexts: &[usize],
    v: u32,
    order: &mut [u32],
    filled: usize,
    set: &mut VertexSet,
) -> usize
    requires indexed { IsIndexed links.now heads.now nexts.now }
    requires in_range { v < length heads.now }
    requires size { length set.old ≡ length heads.now }
    requires room { length set.old ≤ length order.old }
    requires listed { IsListed order.old filled set.old }
    ensures listed { IsListed order.new result set.new }
    ensures size { length set.new ≡ length set.old }
    ensures more { filled ≤ result }
    ensures front { (i : ℕ) → i < filled → slice_index order.new i ≡ slice_index order.old i }
    ensures kept { (u : ℕ) → IsTrue (has set.old u) → IsTrue (has set.new u) }
    ensures only { (s : List Bool) → ((u : ℕ) → IsTrue (has set.old u) → LinkDerived links.now s u)
        → LinkDerived links.now s v → (u : ℕ) → IsTrue (has set.new u) → LinkDerived links.now s u }
    ensures all { (w u : ℕ) → IsTrue (has set.old w) → Linked links.now v w u → IsTrue (has set.new u) }
{
    let mut filled = filled;
    let mut cursor = heads[v as usize];
    while cursor > 0 {
        let at = cursor - 1;
        let link = links[at];
        if set.has(link.beside) && !set.has(link.gives) {
            set.add(link.gives);
            order[filled] = link.gives;
            filled += 1;
        }
        cursor = nexts[at];
    }
    filled
}

/// Closes the set by the links.
pub(crate) fn close(
    links: &[Link],
    heads: &[usize],
    nexts: &[usize],
    order: &mut [u32],
    set: &mut VertexSet,
)
    requires indexed { IsIndexed links.now heads.now nexts.now }
    requires twins { (v w u : ℕ) → Linked links.now v w u → Linked links.now w v u }
    requires size { length set.old ≡ length heads.now }
    requires room { length set.old ≤ length order.old }
    ensures size { length set.new ≡ length set.old }
    ensures exact { (v : ℕ) → IsTrue (has set.new v) ↔ LinkDerived links.now set.old v }
{
    let mut filled = list(order, set);
    let mut done = 0;
    while done < filled {
        let v = order[done];
        filled = visit(links, heads, nexts, v, order, filled, set);
        done += 1;
    }
}
