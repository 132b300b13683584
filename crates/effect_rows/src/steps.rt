//! Steps from locations to others.
use dep_model::Part;

/// A step from some locations to others.
#[derive(Clone, Copy, Debug)]
pub enum Step {
    /// To this part of each.
    Part(Part),
    /// To those that each may point to.
    Targets,
}

/// Steps that are taken one after another. They stand in the calls that are under way, so that no memory is taken.
#[derive(Clone, Copy)]
pub enum Steps<'a> {
    /// No step.
    Done,
    /// A step that leads nowhere.
    Nowhere,
    /// A step and then others.
    Then(Step, &'a Steps<'a>),
}
