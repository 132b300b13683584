//! What each function of a program may modify and may use of what is seen outside of it, by itself or by what it calls
//! (Banning 1979; Horwitz, Reps and Binkley 1990).
//!
//! One walk over the program finds what each function does itself, and its calls. Then each location that is seen outside
//! goes from the functions that do it to all from which these are called.
#![tactic(auto)]

ghost use Rattle.std.specs.Prelude.{◌≡◌, ◌<◌, ◌^◌, IfOk, length};
ghost use Rattle.dep_model.specs.LocationLists.{location_list, AreListedOnce};
ghost use Rattle.dep_model.specs.LocationRows.{points_of, HasPointsRows};
ghost use Rattle.mod_ref.specs.Effects.{AreEffectsByPlace};

mod columns;
mod laws;
mod own;
mod spread;

use c_tree::Program;
use dep_model::{Effects, Locations, PointsTo};
pub use laws::effects_by_place_are_rows;
use std::alloc::{AllocError, Global};

/// What each function of a program may modify and may use, by the list of the program's locations and by rows that say to
/// what these may point: for each location of the list that is seen outside of functions, whether the function, or one that
/// is called from it, has a statement that may define it, and whether one has a statement that may use it. A function that
/// the program lacks does nothing. Err: no memory was left.
pub fn find(alloc: Global, p: &Program, l: &Locations, t: &PointsTo) -> Result<Effects, AllocError>
    requires few { length p.now.functions < 2 ^ 32 }
    requires list_is { l.now ≡ location_list p.now }
    requires once { AreListedOnce p.now }
    requires points_are { HasPointsRows p.now t.now }
    ensures exact { IfOk result (λ e. AreEffectsByPlace p.now (points_of p.now t.now) e) }
{
    let own = own::find(alloc, p, l, t)?;
    spread::outward(alloc, p, l, own)
}
