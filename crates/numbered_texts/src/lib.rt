//! The numbers of a text. Each function is a law, and holds no code: its contract is the law.
#![tactic(auto)]

ghost use Rattle.numbered_texts.specs.Laws as law;

/// A law: the statements of a well-formed program, function by function and in each a test before what it
/// decides, have the numbers 0, 1, and so on up to their count.
pub fn statements_are_numbered()
    ensures { law.StatementsAreNumbered }
{}

/// A law: each variable that a statement of a well-formed program names is one of the program.
pub fn named_variables_exist()
    ensures { law.NamedVariablesExist }
{}

/// A law: each location that a vertex of a well-formed program may define and another, or the same, may use is one of
/// the program's locations, whatever pointers may point to and functions may modify and use.
pub fn locations_are_listed()
    ensures { law.LocationsAreListed }
{}

/// A law: each location that a function of a well-formed program modifies or uses is one of the program's locations,
/// whatever pointers may point to.
pub fn effects_are_listed()
    ensures { law.EffectsAreListed }
{}

/// A law: each call in a well-formed program is of a function of the program, and has as many arguments as the
/// function has parameters.
pub fn calls_fit()
    ensures { law.CallsFit }
{}

/// A law: each call in a well-formed program whose result is stored is of a function that gives one: it isn't void, and
/// it isn't main.
pub fn results_are_given()
    ensures { law.ResultsAreGiven }
{}

/// A law: a well-formed program has a function named main.
pub fn programs_have_main()
    ensures { law.ProgramsHaveMain }
{}
