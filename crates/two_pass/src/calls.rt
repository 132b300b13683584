//! The rules of calls: what goes back over a call as a whole, by the facts of the function called.
ghost use Rattle.std.specs.Prelude.{◌≡◌, ℕ, ◌+◌, ◌^◌, ◌<◌, ◌++◌, All, OnOk, length, flat_map};
ghost use Rattle.matched_paths.specs.Places.{Places};
ghost use Rattle.two_pass.specs.CallRules.{crossing_rules, call_rules};

use dep_model::{Edge, Label, Rule};
use matched_paths::{EdgeGroups, FactPlaces, back};
use std::alloc::{AllocError, Global};

// Adds the rules that go back over one call, from where `leaves` lead to where `enter` begins.
fn over_call(
    rules: &mut Vec<Rule>,
    size: u32,
    enter: Edge,
    leaves: &[Edge],
    places: &FactPlaces,
    words: &[u64],
) -> Result<(), AllocError>
    requires few { size + size < 2 ^ 32 }
    requires numbers { length places.now.numbers ≡ size }
    requires rows { length places.now.rows ≡ size }
    requires enters { (enter.from < size) × (enter.to < size) }
    requires leaves { All (λ e. (e.from < size) × (e.to < size)) leaves.now }
    ensures { OnOk result (rules.new.items ≡ rules.old.items ++ flat_map (crossing_rules size words.now places.now enter) leaves.now) }
{
    for leave in leaves {
        if places.holds(words, enter.to, leave.from) {
            rules.push(back(leave.to, enter.from))?;
            rules.push(back(size + leave.to, size + enter.from))?;
        }
    }
    Ok(())
}

/// Adds the rules that go back over calls by the facts that the words hold. Err: no memory was left.
pub(crate) fn over_calls(
    alloc: Global,
    rules: &mut Vec<Rule>,
    size: u32,
    edges: &[Edge],
    places: &FactPlaces,
    words: &[u64],
) -> Result<(), AllocError>
    requires few { size + size < 2 ^ 32 }
    requires numbers { length places.now.numbers ≡ size }
    requires rows { length places.now.rows ≡ size }
    requires ends { All (λ e. (e.from < size) × (e.to < size)) edges.now }
    ensures { OnOk result (rules.new.items ≡ rules.old.items ++ flat_map (call_rules size edges.now words.now places.now) edges.now) }
{
    let exits = EdgeGroups::by_call(alloc, edges)?;
    for enter in edges {
        if let Label::In(call) = enter.label {
            over_call(rules, size, *enter, exits.of(call), places, words)?;
        }
    }
    Ok(())
}
