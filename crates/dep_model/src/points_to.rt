//! Where each location of a program may point, and what each of its functions may modify and use.
use bit_rows::Rows;

/// Where each location may point: a row of locations for each location of the program.
#[derive(Drop)]
pub struct PointsTo {
    /// For each location those to which it may point, by their places in the list of the program's
    /// locations.
    pub rows: Rows,
}

/// What each function may modify and use, of what is seen outside of it, by itself or by what it
/// calls: a row of locations for each function of the program.
#[derive(Drop)]
pub struct Effects {
    /// For each function the locations that it may modify.
    pub modified: Rows,
    /// For each function the locations that it may use.
    pub used: Rows,
}
