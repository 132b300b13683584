//! Which arms of a switch are taken.
ghost use Rattle.std.specs.Prelude.{◌≡◌, List, ◌∷◌, IfOk, OnOk, length};
ghost use Rattle.c_tree.specs.declared.statement.Label.{Label};
ghost use Rattle.dep_model.specs.SwitchArms.{is_first, has_first, with_labels, taken, AreSeen};

use c_tree::{Arm, Label};
use std::alloc::{AllocError, Global};
use std::collections::BTreeSet;

/// The labels that a switch has so far.
#[derive(Drop)]
struct Labels {
    cases: BTreeSet<i128>,
    has_default: bool,
}

/// For each arm of a switch, whether some value of the test takes it: it has a case that no arm
/// before it has, or the first default.
pub fn taken_arms(alloc: Global, arms: &[Arm]) -> Result<Vec<bool>, AllocError>
    ensures taken { IfOk result (λ t. t.items ≡ taken arms.now) }
    ensures for_each { IfOk result (λ t. length t.items ≡ length arms.now) }
{
    let mut seen = Labels {
        cases: BTreeSet::new(alloc),
        has_default: false,
    };
    let mut taken = Vec::new(alloc);
    for arm in arms {
        taken.push(add_all(&mut seen, arm.labels.as_slice())?)?;
    }
    Ok(taken)
}

// Adds labels, and answers whether one of them is the first of its kind.
fn add_all(seen: &mut Labels, labels: &[Label]) -> Result<bool, AllocError>
    ensures first { (before : List Label) → AreSeen before seen.old → IfOk result (λ t. t ≡ has_first before labels.now) }
    ensures seen { (before : List Label) → AreSeen before seen.old → OnOk result (AreSeen (with_labels before labels.now) seen.new) }
{
    let mut first = false;
    for label in labels {
        let is_first = add(seen, label)?;
        first |= is_first;
    }
    Ok(first)
}

// Adds a label, and answers whether it is the first of its kind.
fn add(seen: &mut Labels, label: &Label) -> Result<bool, AllocError>
    ensures first { (before : List Label) → AreSeen before seen.old → IfOk result (λ t. t ≡ is_first before label.now) }
    ensures seen { (before : List Label) → AreSeen before seen.old → OnOk result (AreSeen (label.now ∷ before) seen.new) }
{
    match label {
        Label::Case(_, value) => {
            let first = seen.cases.insert(*value)?;
            Ok(first)
        }
        Label::Default => {
            let first = !seen.has_default;
            seen.has_default = true;
            Ok(first)
        }
    }
}
