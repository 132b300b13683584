//! The variables whose declarations stay.
ghost use Rattle.std.specs.Prelude.{◌≡◌, ℕ, ◌==◌, ◌&&◌, ◌||◌, ◌<◌, not, length, slice_index_or, IfOk, OnOk};
ghost use Rattle.bit_rows.specs.Sets.{has};
ghost use Rattle.named_variables.specs.Marks.{Adds};
ghost use Rattle.projection.specs.Kept.{chosen};
ghost use Rattle.projection.specs.KeptVertices.{is_among, is_taken, is_taken_still};
ghost use Rattle.kept_numbers.specs.Pairs.{marked};
ghost use Rattle.projection.specs.Parts.{words_of};
ghost use Rattle.projection.specs.Referring.{functions_refer};

use crate::parts::KeptParts;
use crate::referring::referred_variables;
use c_tree::{Function, VarId};
use kept_numbers::is_at;
use named_variables::mark;
use std::alloc::{AllocError, Global};

/// For each variable, whether it stays: a parameter where its function keeps it, and any other where
/// kept text refers to it. None past the end stays. Err: no memory was left.
pub(crate) fn kept_variables(
    alloc: Global,
    list: &[Function],
    parts: &KeptParts,
) -> Result<Vec<bool>, AllocError>
    ensures { IfOk result (λ kept. (x : ℕ) → has kept.items x ≡ (is_taken_still (has parts.now.functions.items) (marked parts.now.parameters) 0 list.now x || (not (is_taken list.now x) && functions_refer (words_of parts.now) list.now x))) }
{
    let mut kept = referred_variables(alloc, list, parts)?;
    drop_parameters(&mut kept, list);
    mark_parameters(&mut kept, parts, list)?;
    Ok(kept)
}

fn drop_parameters(kept: &mut Vec<bool>, list: &[Function])
    ensures { (x : ℕ) → has kept.new.items x ≡ (not (is_taken list.now x) && has kept.old.items x) }
{
    for function in list {
        drop_all(kept, function.params.as_slice());
    }
}

fn drop_all(kept: &mut Vec<bool>, list: &[VarId])
    ensures { (x : ℕ) → has kept.new.items x ≡ (not (is_among list.now x) && has kept.old.items x) }
{
    for var in list {
        drop_one(kept, *var);
    }
}

fn drop_one(kept: &mut Vec<bool>, var: VarId)
    ensures { (x : ℕ) → has kept.new.items x ≡ (not (var == x) && has kept.old.items x) }
{
    let at = var as usize;
    if at < kept.len() {
        kept[at] = false;
    }
}

// Marks the parameters that stay of the functions that do.
fn mark_parameters(
    kept: &mut Vec<bool>,
    parts: &KeptParts,
    list: &[Function],
) -> Result<(), AllocError>
    ensures { OnOk result (Adds kept.old.items kept.new.items (is_taken_still (has parts.now.functions.items) (marked parts.now.parameters) 0 list.now)) }
{
    for (number, function) in list.iter().enumerate() {
        if is_at(parts.functions.as_slice(), number) {
            mark_chosen(
                kept,
                parts.parameters.row(number),
                function.params.as_slice(),
            )?;
        }
    }
    Ok(())
}

// Marks the variables at the kept places of a list.
fn mark_chosen(kept: &mut Vec<bool>, places: &[bool], list: &[VarId]) -> Result<(), AllocError>
    ensures { OnOk result (Adds kept.old.items kept.new.items (is_among (chosen (has places.now) 0 list.now))) }
{
    for place in 0..list.len() {
        mark_place(kept, places, list, place)?;
    }
    Ok(())
}

// Marks the variable at a place of a list, where the place is kept.
fn mark_place(
    kept: &mut Vec<bool>,
    places: &[bool],
    list: &[VarId],
    place: usize,
) -> Result<(), AllocError>
    requires { place < length list.now }
    ensures { OnOk result (Adds kept.old.items kept.new.items (λ x. has places.now place && (slice_index_or list.now place 0 == x))) }
{
    if is_at(places, place) {
        mark(kept, list[place])?;
    }
    Ok(())
}
