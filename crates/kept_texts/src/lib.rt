//! What hangs together of a well-formed program of any form is a text, so that its projection is well formed.
//!
//! Each function is a law, and holds no code: its contract is the law, over the definitions of `specs/Laws`.
#![tactic(auto)]

ghost use Rattle.kept_texts.specs.Laws as law;

/// A law: in a well-formed program each statement names only parameters of its own function, no variable is a
/// parameter twice, and a function other than main that gives a result ends with its one return.
pub fn functions_have_own_parts()
    ensures { law.FunctionsHaveOwnParts }
{}

/// A law: where what is kept of a well-formed program hangs together, nothing stays in an if, loop or switch that
/// isn't kept, also no declaration whose variable kept text refers to, but for what a `for` begins with.
pub fn hanging_is_clear()
    ensures { law.HangingIsClear }
{}

/// A law: what hangs together of the program of a text within the limits is what the laws on thinner texts ask for.
pub fn hanging_is_text()
    ensures { law.HangingIsText }
{}

/// A law: the projection of a well-formed program to what hangs together of it is well formed.
pub fn hanging_is_well_formed()
    ensures { law.HangingIsWellFormed }
{}

/// A law: where what is kept of a well-formed program hangs together, each kept statement has its own words in the
/// projection, but for the arguments and the left side that a call loses.
pub fn hanging_keeps_words()
    ensures { law.HangingKeepsWords }
{}

/// A law: a set of vertices of a well-formed program's system graph that can be projected has each if, loop and switch
/// in which it has something, and the entry of each function of which it has a vertex.
pub fn projectable_nests()
    ensures { law.ProjectableNests }
{}

/// A law: what such a set keeps hangs together.
pub fn projectable_hangs()
    ensures { law.ProjectableHangs }
{}

/// A law: the projection of a well-formed program of any form to such a set is well formed, so that what is printed
/// of it is read again as it.
pub fn projection_is_well_formed()
    ensures { law.ProjectionIsWellFormed }
{}

/// A law: nothing stays in an if, loop or switch that such a set doesn't keep, also no declaration whose variable kept
/// text refers to, but for what a `for` begins with.
pub fn projection_is_clear()
    ensures { law.ProjectionIsClear }
{}

/// A law: each statement that such a set keeps has its own words in the projection, but for what a call loses.
pub fn projection_keeps_words()
    ensures { law.ProjectionKeepsWords }
{}
