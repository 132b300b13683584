//! Laws of dependence, for every program. Each function is a law, and holds no code: its contract is the law.
ghost use Rattle.dep_model.specs.Laws as law;

/// A law: where it is known what each location of a program may point to, what its functions modify
/// and use is one analysis, and the program has no other.
pub fn programs_have_one_analysis()
    ensures { law.ProgramsHaveOneAnalysis }
{}

/// A law: no location stands twice in the list of a program's locations, so that the place of one tells
/// it, where the statements of the program, function by function, have the numbers 0, 1, and so on.
pub fn locations_are_listed_once()
    ensures { law.LocationsAreListedOnce }
{}
