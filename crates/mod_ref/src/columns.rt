//! One location in the rows of all functions.
ghost use Rattle.std.specs.Prelude.{◌≡◌, ◌≢◌, ◌<◌, ◌||◌, ◌⊎◌, ℕ, false, length};
ghost use Rattle.bit_rows.specs.Sets.{has};
ghost use Rattle.bit_rows.specs.Tables.{IsSized, the_set};
ghost use Rattle.mod_ref.specs.Columns.{column, IsColumnJoined, IsSpread};

use bit_rows::Rows;
use c_tree::FunctionId;
use dep_model::{Closure, LocationId, VertexSet};

// Puts the function into the set, where its row has the location.
fn read_one(own: &Rows, location: LocationId, f: FunctionId, marks: &mut VertexSet)
    requires f_in { f < length own.now.sets }
    requires mark_in { f < length marks.old }
    requires location_in { location < own.now.bits }
    ensures size { length marks.new ≡ length marks.old }
    ensures others { (g : ℕ) → g ≢ f → has marks.new g ≡ has marks.old g }
    ensures here { has marks.new f ≡ (has marks.old f || has (the_set own.now f) location) }
{
    if own.has(f, location) {
        marks.add(f);
    }
}

// Makes the set that of the functions whose rows have the location.
fn read(own: &Rows, location: LocationId, marks: &mut VertexSet)
    requires rows_are { length marks.old ≡ length own.now.sets }
    requires location_in { location < own.now.bits }
    ensures { marks.new ≡ column own.now location }
{
    marks.clear();
    for f in 0..marks.len() {
        read_one(own, location, f, marks);
    }
}

// Adds the location to the row of the function, where that is in the set.
fn write_one(found: &mut Rows, location: LocationId, f: FunctionId, marks: &VertexSet)
    requires f_in { f < length found.old.sets }
    requires mark_in { f < length marks.now }
    requires location_in { location < found.old.bits }
    requires sized { IsSized (length found.old.sets) found.old.bits found.old }
    ensures size { IsSized (length found.old.sets) found.old.bits found.new }
    ensures others { (g j : ℕ) → (g ≢ f) ⊎ (j ≢ location) → has (the_set found.new g) j ≡ has (the_set found.old g) j }
    ensures here { has (the_set found.new f) location ≡ (has (the_set found.old f) location || has marks.now f) }
{
    if marks.has(f) {
        found.set(f, location);
    }
}

// Adds the location to the rows of the functions in the set.
fn write(found: &mut Rows, location: LocationId, marks: &VertexSet)
    requires rows_are { length marks.now ≡ length found.old.sets }
    requires location_in { location < found.old.bits }
    requires sized { IsSized (length found.old.sets) found.old.bits found.old }
    ensures size { IsSized (length found.old.sets) found.old.bits found.new }
    ensures joined { IsColumnJoined marks.now location found.old found.new }
{
    for f in 0..marks.len() {
        write_one(found, location, f, marks);
    }
}

/// Adds the location to the rows of all functions that the rules derive from those whose own rows have it.
pub(crate) fn spread(
    closure: &mut Closure,
    marks: &mut VertexSet,
    own: &Rows,
    location: LocationId,
    found: &mut Rows,
)
    requires size_is { closure.old.size ≡ length own.now.sets }
    requires marks_are { length marks.old ≡ length own.now.sets }
    requires location_in { location < own.now.bits }
    requires sized { IsSized (length own.now.sets) own.now.bits found.old }
    ensures spread { IsSpread closure.old.rules own.now location found.old found.new }
    ensures size { IsSized (length own.now.sets) own.now.bits found.new }
    ensures marks_are { length marks.new ≡ length marks.old }
    ensures kept { closure.new ≡ closure.old }
{
    read(own, location, marks);
    closure.close(marks);
    write(found, location, marks);
}
