//! The order of vertex pairs: lists of pairs are sorted, and each pair is kept once.
ghost use Rattle.std.specs.Prelude.{◌↔◌, Contains};
ghost use Rattle.dep_model.specs.PairOrder.{AreAscending};
ghost use Rattle.dep_model.specs.declared.skeleton.Pair.{Pair};

use crate::skeleton::Pair;

/// Puts pairs into ascending order, each once.
pub fn ascend(pairs: &mut Vec<Pair>)
    ensures ascending { AreAscending pairs.new.items }
    ensures same { (x : Pair) → Contains pairs.new.items x ↔ Contains pairs.old.items x }
{
    pairs.sort_unstable();
    pairs.dedup();
}
