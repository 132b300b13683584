//! The rules of the two passes: of `size` vertices, `v` has the number `v` in the first pass, and `size + v` in the second.
ghost use Rattle.std.specs.Prelude.{◌≡◌, ℕ, ◌+◌, ◌^◌, ◌<◌, ◌++◌, All, OnOk, IfOk, map, flat_map};
ghost use Rattle.std.specs.List.{range_with_len};
ghost use Rattle.two_pass.specs.PassRules.{goes_first, goes_second, edge_rules, turn_rule};

use dep_model::{Edge, Label, Rule};
use matched_paths::back;
use std::alloc::{AllocError, Global};

fn goes_first(label: Label) -> bool
    ensures { result ≡ goes_first label }
{
    !matches!(label, Label::Out(_))
}

fn goes_second(label: Label) -> bool
    ensures { result ≡ goes_second label }
{
    !matches!(label, Label::Call(_) | Label::In(_))
}

/// From each vertex that the first pass marks, to the same one in the second pass. Err: no memory was left.
pub(crate) fn turns(alloc: Global, size: u32) -> Result<Vec<Rule>, AllocError>
    requires few { size + size < 2 ^ 32 }
    ensures { IfOk result (λ rules. rules.items ≡ map (turn_rule size) (range_with_len 0 size)) }
{
    (0..size).map(|v| back(v, size + v)).collect(alloc)
}

/// Adds the rules that go back along edges. Err: no memory was left.
pub(crate) fn along_edges(
    rules: &mut Vec<Rule>,
    size: u32,
    edges: &[Edge],
) -> Result<(), AllocError>
    requires few { size + size < 2 ^ 32 }
    requires ends { All (λ e. (e.from < size) × (e.to < size)) edges.now }
    ensures { OnOk result (rules.new.items ≡ rules.old.items ++ flat_map (edge_rules size) edges.now) }
{
    for edge in edges {
        if goes_first(edge.label) {
            rules.push(back(edge.to, edge.from))?;
        }
        if goes_second(edge.label) {
            rules.push(back(size + edge.to, size + edge.from))?;
        }
    }
    Ok(())
}
