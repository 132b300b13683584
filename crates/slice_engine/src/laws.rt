//! Laws of every run of a program, of its graph, and of sets of its vertices that can be projected. Each function is a
//! law, and holds no code: its contract is the law.
ghost use Rattle.slice_engine.specs.Conversions as conversions;
ghost use Rattle.slice_engine.specs.Laws as law;

pub use listed_graphs::{
    programs_have_a_graph, programs_have_an_analysis, programs_have_points_to,
};
pub use run_facts::{
    callers_have_called, outcomes_depend_on_reads, points_to_covers_runs, steps_do_their_effects,
    steps_keep_the_rest, targets_have_the_type, types_always_fit,
};

/// A law: acts touch only what the vertices of their statements say.
pub use run_facts::steps_touch_what_vertices_say as vertices_cover_acts;

/// A law: calls touch only what their functions modify and use.
pub use run_facts::calls_touch_what_functions_say as functions_cover_calls;

/// A law: a pointer is converted to pointer types alone. Wherever a run of a well-formed program stands, each value that is
/// converted by what is done next has a value in the type: what is assigned, listed, passed or returned, what malloc gives, what a
/// waiting caller gets, and what a cast or a `?:` converts in any part of these expressions.
pub fn conversions_always_fit()
    ensures { conversions.ConversionsAlwaysFit }
{}

/// A law: the rows of where the locations of a well-formed program may point, with those of what its functions modify and use
/// then, say the one analysis of the program.
pub fn rows_are_the_analysis()
    ensures { law.RowsAreTheAnalysis }
{}

/// A law: the system graph of the program is the one by these rows.
pub fn graph_is_by_the_rows()
    ensures { law.GraphIsByTheRows }
{}

/// A law: the projection of a well-formed program to a set of vertices of its system graph that is closed
/// under all closures is a well-formed program, for programs of every form.
pub fn projection_is_well_formed()
    ensures { law.ProjectionIsWellFormed }
{}

/// A law: on each input on which a well-formed program ends, its projection to such a set that has all that reaches a
/// criterion ends, in no more acts, with the same values there: for programs of every form.
pub fn projection_has_same_values()
    ensures { law.ProjectionHasSameValues }
{}

/// A law: on each input the projection of a well-formed program to such a set follows the program, up to each point to
/// which that comes without an undefined act, and to its end. It does the acts of kept statements in activations that
/// kept calls alone have reached, and no other, in their order. At the beginning of each, and at the end, its blocks stand
/// one to one for blocks of the program, of the same type and made by the same variable or malloc, and what is gone there
/// is gone in the program; cells at locations that are wanted, in live blocks that their activation can name or that are
/// seen outside, hold equal values up to that, or nothing in both; and so does the unread input where it is wanted.
pub fn slices_follow_originals()
    ensures { law.SlicesFollowOriginals }
{}

/// A law: each line of a well-formed program has exactly one slice, and so has each on which a statement starts. That one is
/// found, where memory suffices and the program is within the limits, is what an engine promises; that there is one needs
/// neither.
pub fn lines_have_one_slice()
    ensures { law.LinesHaveOneSlice }
{}
