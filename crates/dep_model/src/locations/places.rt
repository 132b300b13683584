//! Where a location stands in a list.
ghost use Rattle.std.specs.Prelude.{◌≡◌, ◌≤◌, ◌^◌, ◌↔◌, Contains, IsTrue, IfSome, None, Some, length, slice_get};

use crate::location::{Location, LocationId};

fn is_same(l: &Location, m: &Location) -> bool
    ensures { IsTrue result ↔ (l.now ≡ m.now) }
{
    l.root == m.root && l.path.as_slice() == m.path.as_slice()
}

/// The first place at which the location stands, counted from 0.
pub(crate) fn place_in(list: &[Location], l: &Location) -> Option<LocationId>
    requires { length list.now ≤ 2 ^ 32 }
    ensures place { IfSome result (λ i. slice_get list.now i ≡ Some l.now) }
    ensures missing { result ≡ None → Contains list.now l.now → ⊥ }
{
    for (i, m) in list.iter().enumerate() {
        if is_same(m, l) {
            return Some(i as u32);
        }
    }
    None
}
