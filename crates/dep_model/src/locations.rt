//! The list of a program's locations.
ghost use Rattle.std.specs.Prelude.{◌≡◌, ◌≤◌, ◌<◌, ◌^◌, Contains, IfOk, IfSome, None, slice_get, Some, length};
ghost use Rattle.std.specs.Result.{IfErr};
ghost use Rattle.c_tree.specs.declared.limits.LimitName.{LimitName};
ghost use Rattle.c_tree.specs.declared.limits.LimitName.TheVariants as limit;
ghost use Rattle.dep_model.specs.LocationLists.{AreStructsInOrder, location_list};
ghost use Rattle.dep_model.specs.declared.graph_fault.GraphFault.TheVariants.{Limit};

mod counts;
mod objects;
mod parts;
mod places;
mod sites;

use crate::graph_fault::GraphFault;
use crate::location::{Location, LocationId};
use c_tree::{LimitName, Program};
use counts::{MAX_LOCATIONS, location_count, struct_sizes};
use places::place_in;
use std::alloc::Global;
use std::marker::Model;

/// The locations of a program, in their order. Contracts see their list.
#[derive(Debug, Drop)]
pub struct Locations {
    list: Vec<Location>,
}

impl Model for Locations {
    ghost use Rattle.std.specs.Prelude.{List, length, ◌≤◌};
    ghost use Rattle.dep_model.specs.declared.location.Location.{Location};

    ghost Value = { List Location };

    ghost view = { λ l. l.list.items };

    ghost invariant = { λ l. length l.list.items ≤ 4096 };
}

impl Locations {
    /// The locations of a program. Err: there are more than 4,096 of them, which is found without
    /// making them, or no memory was left.
    pub fn of(alloc: Global, p: &Program) -> Result<Locations, GraphFault>
        requires ordered { AreStructsInOrder p.now }
        requires few { length p.now.functions ≤ 2 ^ 32 }
        ensures list { IfOk result (λ l. l ≡ location_list p.now) }
        ensures within { IfOk result (λ l. length (location_list p.now) ≤ 4096) }
        ensures above { IfErr result (λ f. (n : LimitName) → f ≡ Limit n → (n ≡ limit.Locations) × (4096 < length (location_list p.now))) }
    {
        if p.vars.len() >= MAX_LOCATIONS as usize {
            return Err(GraphFault::Limit(LimitName::Locations));
        }
        let objects = objects::objects_of(alloc, p)?;
        let sizes = struct_sizes(alloc, p)?;
        if location_count(sizes.as_slice(), objects.as_slice()) > MAX_LOCATIONS {
            return Err(GraphFault::Limit(LimitName::Locations));
        }
        let list = parts::list_all(alloc, p, objects.as_slice())?;
        Ok(Locations { list })
    }

    /// How many locations there are.
    pub fn len(&self) -> u32
        ensures { result ≡ length self.now }
    {
        self.list.len() as u32
    }

    /// The place of a location in the list, counted from 0; none where it isn't in the list.
    pub fn id(&self, l: &Location) -> Option<LocationId>
        ensures place { IfSome result (λ i. slice_get self.now i ≡ Some l.now) }
        ensures missing { result ≡ None → Contains self.now l.now → ⊥ }
    {
        place_in(self.list.as_slice(), l)
    }

    /// The location at a place.
    pub fn at(&self, id: LocationId) -> &Location
        requires { id < length self.now }
        ensures { slice_get self.now id ≡ Some result.now }
    {
        &self.list[id as usize]
    }
}
