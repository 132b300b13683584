//! What is closed under control edges is nested, and has the entries of its functions, in every well-formed program:
//! each arm of each switch is taken there. What a slice keeps is closed, and can be projected.
//!
//! Each function is a law, and holds no code: its contract is the law, over the definitions of `specs/Laws`.
#![tactic(auto)]

ghost use Rattle.control_nesting.specs.Laws as law;

/// A law: a statement of a well-formed program has a control edge from the statement in which it stands, with none
/// between.
pub fn standing_is_controlled()
    ensures { law.StandingIsControlled }
{}

/// A law: in a well-formed program control edges lead from the entry of a function to each vertex of the function.
pub fn entries_reach_all()
    ensures { law.EntriesReachAll }
{}

/// A law: a set of vertices of a well-formed program that has the controllers of its members is nested: each if, loop
/// and switch is kept in which something kept stands.
pub fn closed_is_nested()
    ensures { law.ClosedIsNested }
{}

/// A law: such a set has the entry of each function of which it has a vertex, so that the function is kept.
pub fn closed_holds_entries()
    ensures { law.ClosedHoldsEntries }
{}

/// A law: a set that is closed under all closures of a program's system graph has the controllers of its members.
pub fn closed_has_controllers()
    ensures { law.ClosedHasControllers }
{}

/// A law: such a set has the entry of main, so that main is kept.
pub fn closed_keeps_main()
    ensures { law.ClosedKeepsMain }
{}

/// A law: in a well-formed program the completion of exactly what reaches the vertices of some statements can be
/// projected: it is closed, and has the formal-in of each argument whose actual-in it has.
pub fn completed_is_projectable()
    ensures { law.CompletedIsProjectable }
{}

/// A law: in the program of a text that keeps the rules each arm of a switch is taken, since labels
/// differ.
pub fn texts_take_all()
    ensures { law.TextsTakeAll }
{}

/// A law: in a well-formed program each arm of a switch is taken.
pub fn well_formed_takes_all()
    ensures { law.WellFormedTakesAll }
{}
