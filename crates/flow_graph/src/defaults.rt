//! Whether a switch has a default.
ghost use Rattle.std.specs.Prelude.{◌≡◌};
ghost use Rattle.c_language.specs.Code.{is_default, has_default};
ghost use Rattle.flow_graph.specs.Walk.{some_default};

use c_tree::{Arm, Label};

/// Whether one of the arms has a default.
pub(crate) fn has_default(arms: &[Arm]) -> bool
    ensures { result ≡ some_default arms.now }
{
    let mut found = false;
    for arm in arms {
        let has = is_among(arm.labels.as_slice());
        found |= has;
    }
    found
}

// Whether one of the labels is a default.
fn is_among(labels: &[Label]) -> bool
    ensures { result ≡ has_default labels.now }
{
    let mut found = false;
    for label in labels {
        let is = is_default(label);
        found |= is;
    }
    found
}

fn is_default(label: &Label) -> bool
    ensures { result ≡ is_default label.now }
{
    match label {
        Label::Case(..) => false,
        Label::Default => true,
    }
}
