//! A law of rows. The function holds no code: its contract is the law.
ghost use Rattle.mod_ref.specs.Laws as law;

/// A law: where all that a program's functions modify and use is among its locations, rows that say of each location by
/// its place whether a function modifies it, and whether it uses it, say so of every location.
pub fn effects_by_place_are_rows()
    ensures { law.EffectsByPlaceAreRows }
{}
