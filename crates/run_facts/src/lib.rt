//! Facts about every run of a program: what its acts touch, and on what they depend.
//!
//! Each function is a law, and holds no code: its contract is the law, over the definitions of `specs/`.
#![tactic(auto)]

ghost use Rattle.run_facts.specs.Laws as law;

/// A law: in two states that differ at most in what cells hold, an act comes to the same where the cells that it
/// reads hold the same, and the input too where it reads that; so do a call's arguments, and the store after a call.
pub fn outcomes_depend_on_reads()
    ensures { law.OutcomesDependOnReads }
{}

/// A law: each act of a run of a well-formed program reads only cells whose locations the vertices of its statement
/// may use, and stores only into cells whose locations they may define. At a call each argument reads only where its
/// own actual-in may use, and goes where the formal-in of its parameter may define; the store after a call, with what
/// its left side reads, is that of the result's actual-out. Where a statement's vertex, or that actual-out, kills a
/// location of a variable, the cells stored into are all live cells of it that the activation can name, and no other
/// activation sees such a cell, but for a global's. Each cell that is touched counts, but for those of parameters, which
/// begin there: its location is seen outside of the activation, or its block is the one that this names by the
/// location's variable.
pub fn steps_touch_what_vertices_say()
    ensures { law.StepsTouchWhatVerticesSay }
{}

/// A law: what a program does from a point is what its list does next: it ends, moves on without an act, does an act
/// of a statement, or calls a function.
pub fn steps_are_next()
    ensures { law.StepsAreNext }
{}

/// A law: a step that leads to a point is a move without an act, an act of a statement, a call that begins, a return
/// to a caller that stores no result, or one to a caller whose store is done; the point is by that.
pub fn steps_have_kinds()
    ensures { law.StepsHaveKinds }
{}

/// A law: two paths that lead to cells of one type with the same number are one path, in every program of which no
/// struct type has itself or a later one in it (C99 6.7.2.1, paragraph 2). So two live cells are one exactly where
/// they are at one place, and each cell has one location.
pub fn cells_have_one_path()
    ensures { law.CellsHaveOnePath }
{}

/// A law: from one point of a run to the next, a cell into which nothing is stored holds what it held, where its block
/// was there before and is live after; and the input stays, where it isn't taken from.
pub fn steps_keep_the_rest()
    ensures { law.StepsKeepTheRest }
{}

/// A law: each step of a run does its effect. After it a cell holds what was stored in it last; where the input is
/// taken from, it lacks its first byte; and what a return gives is what the function has returned, which no other
/// step changes. A function that is called begins with nothing returned, and a caller goes on with what it had.
pub fn steps_do_their_effects()
    ensures { law.StepsDoTheirEffects }
{}

/// A law: between a call and its return, cells of blocks that were there before the call are read only at locations
/// that the function called may use, and stored into only at locations that it modifies; the input likewise. So what
/// the function doesn't modify is up to the return as it was before the call. What a function modifies and may use is
/// that of the statements of all functions that it calls, directly or not (Horwitz, Reps and Binkley 1990, on GMOD and
/// GREF). At locations that are seen outside of an activation, what is said of stores holds of blocks of any age.
pub fn calls_touch_what_functions_say()
    ensures { law.CallsTouchWhatFunctionsSay }
{}

/// A law: each caller that waits at a point of a run has made its call at a point of the run, and that call hasn't
/// returned; the function called is the one that runs, or that of the caller next above. So the law on calls says of
/// each point of a run what is left as it was for each caller that waits there.
pub fn callers_have_called()
    ensures { law.CallersHaveCalled }
{}

/// A law: wherever a run of a well-formed program stands, each pointer that a cell holds, and each that an expression
/// of what is done next gives, has a location among those to which the cell's location, or the expression, may point
/// (Andersen 1994); and each object that is stored to lies where the left side may. So it is for programs of every form.
pub fn points_to_covers_runs()
    ensures { law.PointsToCoversRuns }
{}

/// A law: wherever a run of a well-formed program stands, each expression of what is done next, and each left side to
/// which a waiting caller stores, has the same object, value and address as without the tests of types, which are asked
/// where an object is designated. So effective types (ISO C99 6.5, paragraph 7) are never broken in a run.
pub fn types_always_fit()
    ensures { law.TypesAlwaysFit }
{}

/// A law: each pair of points-to, in a well-formed program, leads from a location of a pointer to one of the type to
/// which that points.
pub fn targets_have_the_type()
    ensures { law.TargetsHaveTheType }
{}
