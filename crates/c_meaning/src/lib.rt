//! What a program means: values, events, the meaning as a definition (`specs/Meaning.antt`), and its laws.
#![tactic(auto)]

mod event;
mod laws;
mod value;

pub use event::{Event, Shown, ShownList};
pub use laws::{blocks_have_origins, ends_stay, meaning_is_steps, traces_grow};
pub use value::{Hop, Path, Place, Pointer, Value};

#[cfg(test)]
mod tests;
