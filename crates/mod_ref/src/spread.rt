//! What functions do, spread to all from which they are called.
ghost use Rattle.std.specs.Prelude.{◌≡◌, ◌<◌, ◌^◌, IfOk, length, slice_get, Some, true, false};
ghost use Rattle.bit_rows.specs.Tables.{IsSized, empty_table};
ghost use Rattle.dep_model.specs.declared.location.Location.{Location};
ghost use Rattle.dep_model.specs.DoingEffects as spec;
ghost use Rattle.dep_model.specs.LocationLists.{location_list};
ghost use Rattle.dep_model.specs.LocationRows.{points_of};
ghost use Rattle.dep_model.specs.ModRef as seen;
ghost use Rattle.mod_ref.specs.Effects.{AreEffectsByPlace};
ghost use Rattle.mod_ref.specs.Own.{IsOwn};
ghost use Rattle.mod_ref.specs.Columns.{IsSpread, AreSpread};

use crate::columns::spread;
use crate::own::Own;
use bit_rows::Rows;
use c_tree::{Program, VarId};
use dep_model::{Closure, Effects, Location, LocationId, Locations, Root, VertexSet};
use effect_rows::LocationEffects;
use std::alloc::{AllocError, Global};

// Whether a variable is declared outside of functions.
fn is_global(p: &Program, x: VarId) -> bool
    ensures { result ≡ spec.is_global p.now x }
{
    match p.vars.as_slice().get(x as usize) {
        None => false,
        Some(var) => var.owner.is_none(),
    }
}

// Whether a location is seen outside of functions.
fn is_outside(p: &Program, effects: &LocationEffects, l: &Location) -> bool
    requires { effects.now ≡ p.now }
    ensures { result ≡ seen.is_outside p.now l.now }
{
    match l.root {
        Root::Input => true,
        Root::Variable(x) => is_global(p, x) || effects.is_taken(x),
        Root::Site(_) => true,
        Root::Result(_) => false,
    }
}

// Spreads a location of the list, where it is seen outside of functions.
fn spread_one(
    p: &Program,
    l: &Locations,
    effects: &LocationEffects,
    closure: &mut Closure,
    marks: &mut VertexSet,
    own: &Rows,
    location: LocationId,
    found: &mut Rows,
)
    requires program { effects.now ≡ p.now }
    requires size_is { closure.old.size ≡ length own.now.sets }
    requires marks_are { length marks.old ≡ length own.now.sets }
    requires listed { location < length l.now }
    requires location_in { location < own.now.bits }
    requires sized { IsSized (length own.now.sets) own.now.bits found.old }
    ensures outside { (o : Location) → slice_get l.now location ≡ Some o → seen.is_outside p.now o ≡ true → IsSpread closure.old.rules own.now location found.old found.new }
    ensures inside { (o : Location) → slice_get l.now location ≡ Some o → seen.is_outside p.now o ≡ false → found.new ≡ found.old }
    ensures size { IsSized (length own.now.sets) own.now.bits found.new }
    ensures marks_are { length marks.new ≡ length marks.old }
    ensures kept { closure.new ≡ closure.old }
{
    if is_outside(p, effects, l.at(location)) {
        spread(closure, marks, own, location, found);
    }
}

// For each function the locations seen outside that its own row has, or that of a function called from it, into empty rows.
fn spread_all(
    p: &Program,
    l: &Locations,
    effects: &LocationEffects,
    closure: &mut Closure,
    marks: &mut VertexSet,
    own: &Rows,
    found: &mut Rows,
)
    requires program { effects.now ≡ p.now }
    requires list_is { l.now ≡ location_list p.now }
    requires size_is { closure.old.size ≡ length own.now.sets }
    requires marks_are { length marks.old ≡ length own.now.sets }
    requires bits_are { own.now.bits ≡ length (location_list p.now) }
    requires empty { found.old ≡ empty_table (length own.now.sets) own.now.bits }
    ensures spread { AreSpread p.now closure.old.rules own.now (length (location_list p.now)) found.new }
    ensures size { IsSized (length own.now.sets) own.now.bits found.new }
    ensures marks_are { length marks.new ≡ length marks.old }
    ensures kept { closure.new ≡ closure.old }
{
    for location in 0..l.len() {
        spread_one(p, l, effects, closure, marks, own, location, found);
    }
}

/// What each function modifies and uses, by what each does itself and by the calls. Err: no memory was left.
pub(crate) fn outward(
    alloc: Global,
    p: &Program,
    l: &Locations,
    own: Own,
) -> Result<Effects, AllocError>
    requires few { length p.now.functions < 2 ^ 32 }
    requires list_is { l.now ≡ location_list p.now }
    requires own_is { IsOwn p.now own.points.now (length p.now.functions) own }
    ensures { IfOk result (λ e. AreEffectsByPlace p.now (points_of p.now own.entry.points.now) e) }
{
    let Own {
        effects,
        functions,
        modified: own_modified,
        used: own_used,
        calls,
        ..
    } = own;
    let mut closure = Closure::prepare(alloc, functions, calls)?;
    let mut marks = VertexSet::new(alloc, functions)?;
    let mut modified = Rows::new(alloc, functions, l.len())?;
    spread_all(
        p,
        l,
        &effects,
        &mut closure,
        &mut marks,
        &own_modified,
        &mut modified,
    );
    let mut used = Rows::new(alloc, functions, l.len())?;
    spread_all(
        p,
        l,
        &effects,
        &mut closure,
        &mut marks,
        &own_used,
        &mut used,
    );
    Ok(Effects { modified, used })
}
