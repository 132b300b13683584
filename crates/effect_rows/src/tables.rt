//! Where locations stand in the list of a program's locations, found in constant time.
ghost use Rattle.std.specs.Prelude.{◌≡◌, List, ◌<◌, ◌==◌, ◌+◌, ℕ, IfOk, OnOk, Some, None, length, slice_get, slice_index_or, if◌then◌else◌};
ghost use Rattle.dep_model.specs.declared.location.Location.{Location};
ghost use Rattle.dep_model.specs.LocationLists.{location_list, AreListedOnce};
ghost use Rattle.effect_rows.specs.Pointed.{AreTables};
ghost use Rattle.effect_rows.specs.Tables.{places_at};
ghost use Rattle.effect_rows.specs.Noted.{AreNoted, AreEmptyRows, IsWholeNoted, IsPartNoted, IsListOnce};

use crate::taken::taken_variables;
use c_tree::Program;
use dep_model::{Location, LocationId, Locations, Part, Root};
use sqlite_items::Items;
use std::alloc::{AllocError, Global};

/// The places of locations in the list of a program's locations.
#[derive(Drop)]
pub(crate) struct Tables {
    /// How many locations there are.
    pub(crate) count: u32,
    /// The place of each variable.
    pub(crate) variables: Vec<Option<LocationId>>,
    /// The place of the result of each function.
    pub(crate) results: Vec<Option<LocationId>>,
    /// The place of the elements of each location.
    pub(crate) elements: Vec<Option<LocationId>>,
    /// The places of the members of each location.
    pub(crate) members: Vec<Vec<Option<LocationId>>>,
    /// For each variable, whether its address is taken.
    pub(crate) taken: Vec<bool>,
}

impl Tables {
    /// The tables of a program, by the list of its locations. Err: no memory was left.
    pub(crate) fn of(alloc: Global, p: &Program, list: &Locations) -> Result<Tables, AllocError>
        requires list_is { list.now ≡ location_list p.now }
        requires once { AreListedOnce p.now }
        ensures { IfOk result (λ t. AreTables p.now t) }
    {
        let mut tables = Tables::of_none(alloc, list.len())?;
        for place in 0..list.len() {
            tables.note(alloc, list, place)?;
        }
        tables.taken = taken_variables(alloc, p)?;
        Ok(tables)
    }

    // The tables in which no location is noted yet.
    fn of_none(alloc: Global, count: u32) -> Result<Tables, AllocError>
        ensures { IfOk result (λ t. (list : List Location) → length list ≡ count → AreNoted list 0 t) }
    {
        Ok(Tables {
            count,
            variables: Vec::new(alloc),
            results: Vec::new(alloc),
            elements: Vec::new(alloc),
            members: empty_rows(alloc, count)?,
            taken: Vec::new(alloc),
        })
    }

    // Notes the location at a place.
    fn note(&mut self, alloc: Global, list: &Locations, place: LocationId) -> Result<(), AllocError>
        requires place_in { place < length list.now }
        requires once { IsListOnce list.now }
        requires noted { AreNoted list.now place self.old }
        ensures { OnOk result (AreNoted list.now (place + 1) self.new) }
    {
        let location = list.at(place);
        match location.path.as_slice().split_last() {
            None => {
                self.note_whole(location.root, place)?;
                Ok(())
            }
            Some((last, outer)) => {
                let holder = Location {
                    root: location.root,
                    path: Items::from_slice(alloc, outer)?,
                };
                match list.id(&holder) {
                    None => Ok(()),
                    Some(k) => {
                        self.note_part(k, *last, place)?;
                        Ok(())
                    }
                }
            }
        }
    }

    // Notes where a whole object stands.
    fn note_whole(&mut self, root: Root, place: LocationId) -> Result<(), AllocError>
        ensures { OnOk result (IsWholeNoted root place self.old self.new) }
    {
        match root {
            Root::Variable(x) => {
                put(&mut self.variables, x, place)?;
                Ok(())
            }
            Root::Result(f) => {
                put(&mut self.results, f, place)?;
                Ok(())
            }
            Root::Input => Ok(()),
            Root::Site(_) => Ok(()),
        }
    }

    // Notes where a part of the location at place `k` stands.
    fn note_part(&mut self, k: LocationId, part: Part, place: LocationId) -> Result<(), AllocError>
        requires { k < length self.old.members.items }
        ensures { OnOk result (IsPartNoted k part place self.old self.new) }
    {
        match part {
            Part::Element => {
                put(&mut self.elements, k, place)?;
                Ok(())
            }
            Part::Member(m) => {
                put(&mut self.members[k as usize], m, place)?;
                Ok(())
            }
        }
    }
}

/// So many lists without a place. Err: no memory was left.
fn empty_rows(alloc: Global, count: u32) -> Result<Vec<Vec<Option<LocationId>>>, AllocError>
    ensures { IfOk result (λ rows. AreEmptyRows count rows.items) }
{
    let mut rows = Vec::new(alloc);
    let mut at = 0;
    while at < count {
        rows.push(Vec::new(alloc))?;
        at += 1;
    }
    Ok(rows)
}

/// Writes a place into a list of places, which gains none up to there.
fn put(
    places: &mut Vec<Option<LocationId>>,
    number: u32,
    place: LocationId,
) -> Result<(), AllocError>
    ensures { OnOk result ((x : ℕ) → slice_index_or places.new.items x None ≡ (if number == x then Some place else slice_index_or places.old.items x None)) }
{
    let at = number as usize;
    if places.len() <= at {
        places.resize(at + 1, None)?;
    }
    places[at] = Some(place);
    Ok(())
}

/// A place in a list of places, none past its end.
pub(crate) fn place_at(places: &[Option<LocationId>], number: u32) -> Option<LocationId>
    ensures { result ≡ slice_index_or places.now number None }
{
    places.get(number as usize).copied().unwrap_or(None)
}

/// A list of places among such lists, the empty one past their end.
pub(crate) fn row_at(rows: &[Vec<Option<LocationId>>], number: u32) -> &[Option<LocationId>]
    ensures { result.now ≡ places_at rows.now number }
{
    match rows.get(number as usize) {
        Some(places) => places.as_slice(),
        None => &[],
    }
}
