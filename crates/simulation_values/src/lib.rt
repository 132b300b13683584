//! A projection of a program gives the values of the program at a criterion, through calls (Horwitz, Reps and Binkley 1990;
//! Binkley 1993).
//!
//! The functions are laws, and hold no code: their contracts are the laws, over the definitions of `specs/`.
#![tactic(auto)]

ghost use Rattle.simulation_values.specs.Laws as law;

/// A law: where a variable that stays begins, or variables are gone of which one stays, a slice does the same of those
/// that stay, its blocks go on standing for the program's, and all that was alike stays so, for the activation that
/// runs and for each caller that waits; and so it does at each other move, which the program does alone.
pub fn moves_go_together()
    ensures { law.MovesGoTogether }
{}

/// A law: where the globals have begun in a program and those that stay in its slice, with constants, lists of constants or
/// zeros, each block of the slice stands for that of the same global, and all that they hold is alike.
pub fn runs_begin_together()
    ensures { law.RunsBeginTogether }
{}

/// A law, for every form: in a well-formed program each global begins once, where a run begins, and no parameter and no
/// variable that a function declares is a global.
pub fn globals_are_own()
    ensures { law.GlobalsAreOwn }
{}

/// A law: where a set of vertices has all that reaches a criterion, the acts of the criterion are kept, in activations
/// that kept calls alone have reached, and a slice tells them under the numbers that they have there.
pub fn criteria_are_told()
    ensures { law.CriteriaAreTold }
{}

/// A law: where a set of vertices of a well-formed program can be projected and has all that reaches a criterion, the
/// projection to it ends on each input on which the program ends, in no more acts, and gives the same values at the
/// criterion: with functions, recursion, pointers, memory from malloc, globals and input.
pub fn projections_have_same_values()
    ensures { law.ProjectionsHaveSameValues }
{}
