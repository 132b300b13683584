//! Rules with two premises, and the least set that holds a given one and is closed under them.
ghost use Rattle.std.specs.Prelude.{◌≡◌, ℕ, ◌<◌, ◌↔◌, IsTrue, length, All, IfOk};
ghost use Rattle.bit_rows.specs.Sets.{has};
ghost use Rattle.rule_closure.specs.Rules.{Derived, IsLeast, IsRuleWithin};

use crate::engine::{self, Link};
use crate::vertex_set::VertexSet;
use std::alloc::{AllocError, Global};
use std::marker::Model;

/// Where both premises are in a set, what the rule gives belongs there too. A rule with one premise
/// has it twice.
#[derive(Clone, Copy, Debug, PartialEq, Eq)]
pub struct Rule {
    /// The first premise: a number that is in the set.
    pub first: u32,
    /// The second premise.
    pub second: u32,
    /// The number that then belongs to the set.
    pub gives: u32,
}

/// Rules, and the memory to close sets by them.
#[derive(Drop)]
pub struct Closure {
    rules: Vec<Rule>,
    links: Vec<Link>,
    heads: Vec<usize>,
    nexts: Vec<usize>,
    order: Vec<u32>,
}

impl Model for Closure {
    ghost use Rattle.std.specs.Prelude.{length};
    ghost use Rattle.rule_closure.specs.Rules.{RuleSystem};
    ghost use Rattle.rule_closure.specs.Links.{IsReady};

    ghost Value = { RuleSystem };

    ghost view = { λ c. record { size = length c.heads.items; rules = c.rules.items } };

    ghost invariant = { λ c. IsReady c.rules.items c.links.items c.heads.items c.nexts.items c.order.items };
}

impl Closure {
    /// Takes all the memory that closing needs, for sets of the vertices below `size`.
    pub fn prepare(alloc: Global, size: u32, rules: Vec<Rule>) -> Result<Closure, AllocError>
        requires { All (IsRuleWithin size) rules.items }
        ensures { IfOk result (λ c. c ≡ record { size = size; rules = rules.items }) }
    {
        let links = engine::links_of(alloc, rules.as_slice())?;
        let mut heads = vec![in alloc; 0usize; size as usize]?;
        let mut nexts = vec![in alloc; 0usize; links.len()]?;
        let order = vec![in alloc; 0u32; size as usize]?;
        engine::index(links.as_slice(), heads.as_mut_slice(), nexts.as_mut_slice());
        Ok(Closure {
            rules,
            links,
            heads,
            nexts,
            order,
        })
    }

    /// Adds to the set all that the rules derive from it, which makes it the least set that holds it and is closed under
    /// the rules, and takes no memory.
    pub fn close(&mut self, set: &mut VertexSet)
        requires { length set.old ≡ self.old.size }
        ensures exact { (v : ℕ) → IsTrue (has set.new v) ↔ Derived self.old.rules set.old v }
        ensures least { IsLeast self.old.rules set.old set.new }
        ensures size { length set.new ≡ length set.old }
        ensures kept { self.new ≡ self.old }
    {
        engine::close(
            self.links.as_slice(),
            self.heads.as_slice(),
            self.nexts.as_slice(),
            self.order.as_mut_slice(),
            set,
        );
    }
}
