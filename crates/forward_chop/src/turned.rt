//! Rules turned round.
ghost use Rattle.std.specs.Prelude.{◌≡◌, IfOk, map};
ghost use Rattle.forward_chop.specs.Turned.{turn};

use dep_model::Rule;
use matched_paths::back;
use std::alloc::{AllocError, Global};

/// The rules, each turned round. Err: no memory was left.
pub(crate) fn turned(alloc: Global, rules: &[Rule]) -> Result<Vec<Rule>, AllocError>
    ensures { IfOk result (λ turned. turned.items ≡ map turn rules.now) }
{
    let mut turned = Vec::new(alloc);
    for rule in rules {
        turned.push(back(rule.gives, rule.first))?;
    }
    Ok(turned)
}
