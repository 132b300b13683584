//! What a program and its slice do step by step: expressions and acts come to alike values, calls and their callees begin
//! and end together, and what the program does alone leaves what is wanted.
//!
//! The functions are laws, and hold no code: their contracts are the laws, over the definitions of `specs/`.
#![tactic(auto)]

ghost use Rattle.simulation_steps.specs.Laws as law;

/// A law: where a program has the projections of the bodies of the functions that a set of vertices keeps of another, and
/// the types of what stays, a kept act comes to the same in both where what it may use agrees: blocks go on standing for
/// blocks, and what it kills, or what agreed before, agrees after, for the activation that acts and for callers that
/// wait. Where both call malloc, the block that it makes in the slice stands for the other one; where both free a block,
/// it is gone in both. An act that isn't kept leaves what is wanted after it and it doesn't define.
pub fn acts_are_alike()
    ensures { law.ActsAreAlike }
{}

/// A law: whatever the original does alone, blocks of a slice go on standing for its blocks, and each caller that waits
/// sees what it saw at each location that its callee doesn't modify. Where that is seen outside, so it is in blocks of
/// any age.
pub fn callers_are_left()
    ensures { law.CallersAreLeft }
{}

/// A law: where a program has the projections of the bodies of the functions that a set of vertices keeps of another,
/// with the parameters, variables and globals that stay, and what the actual-ins of a kept call's kept arguments may use
/// agrees, the call's callee begins in both: each parameter that stays has a block in both, which holds alike values,
/// blocks go on standing for blocks, and what each activation saw goes on agreeing. A call that isn't kept leaves what
/// its caller sees.
pub fn calls_begin_together()
    ensures { law.CallsBeginTogether }
{}

/// A law: where the callee of a kept call ends in both, its blocks go in both, and the caller sees again what it saw,
/// and what is seen outside as the callee left it. The result is stored in both where the slice keeps it, and where it
/// doesn't, the original's store leaves what it doesn't define. So does the return from a call that the slice hasn't.
pub fn calls_end_together()
    ensures { law.CallsEndTogether }
{}
