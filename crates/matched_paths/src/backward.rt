//! Rules that go back along edges.
ghost use Rattle.std.specs.Prelude.{◌≡◌};
ghost use Rattle.matched_paths.specs.Backward.{one_premise};

use dep_model::Rule;

/// The rule with one premise.
pub fn back(to: u32, from: u32) -> Rule
    ensures { result ≡ one_premise to from }
{
    Rule {
        first: to,
        second: to,
        gives: from,
    }
}
