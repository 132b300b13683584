//! Memory while a program runs, by its calls: blocks with their cells (ISO C99 6.2.4, 6.5.6, 7.20.3).
//!
//! Contracts see a [`Memory`] as the meaning does (`c_meaning`, `specs/Memory`): the struct types of the program, and
//! the list of all blocks there ever were. The cells of a block stand one after another, and a place is found by the
//! number of its cell.
#![tactic(auto)]

mod block;
mod comparisons;
mod expressions;
mod globals;
mod laws;
mod layouts;
mod lists;
mod memory;
mod moves;
mod objects;
mod operators;
mod scene;
mod truths;
mod values;

pub use comparisons::{are_equal, are_together, at_indices};
pub use expressions::{address, place, value};
pub use globals::{Globals, bind, elements};
pub use laws::frame_and_memory_decide;
pub use lists::listed_values;
pub use memory::Memory;
pub use moves::{designated, moved, moved_back};
pub use operators::binary_value;
pub use scene::{Scene, binary_of, converted, object_of};
pub use values::{as_type, tested, unary_value};
