//! A law of rows. The function holds no code: its contract is the law.
ghost use Rattle.effect_rows.specs.Laws as law;

/// A law: a row that gains some locations has, at the place of each location in the list, what it had and
/// whether that is one of these, and all other rows stay.
pub fn rows_gain_by_place()
    ensures { law.RowsGainByPlace }
{}
