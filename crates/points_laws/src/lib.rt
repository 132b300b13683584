//! What may point, as relations of pairs of locations (Andersen 1994). Each function is a law, and holds no code: its
//! contract is the law.
#![tactic(auto)]

ghost use Rattle.points_laws.specs.Laws as law;

/// A law: where each pair of one relation is one of another, an expression has by the first no place, and points
/// nowhere, but where it does by the second.
pub fn expressions_are_monotone()
    ensures { law.ExpressionsAreMonotone }
{}

/// A law: what an expression denotes depends on where the locations that it reads may point, and on no others.
pub fn reads_decide()
    ensures { law.ReadsDecide }
{}

/// A law: one use of a pointing of the program, evaluated at derived pairs, gives derived pairs.
pub fn uses_are_derived()
    ensures { law.UsesAreDerived }
{}

/// A law: where all derived pairs are of known locations, pairs that every pointing of the program leaves as they are, as
/// far as locations are known, hold all derived ones.
pub fn closed_hold_derived()
    ensures { law.ClosedHoldDerived }
{}

/// A law: both sides of each pointing of a well-formed program are known: the variables that its statements name, and its
/// parameters, are its own, a function that returns a value has a result, and what globals begin with points nowhere.
pub fn sides_are_known()
    ensures { law.SidesAreKnown }
{}

/// A law: each derived pair is of two locations of the program, where both sides of each pointing are known.
pub fn pairs_are_listed()
    ensures { law.PairsAreListed }
{}

/// A law: what a location may point to lies in a site, or in a variable whose address is taken.
pub fn targets_are_taken()
    ensures { law.TargetsAreTaken }
{}
