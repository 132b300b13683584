//! Texts at the places of their criteria.
ghost use Rattle.std.specs.Prelude.{◌≡◌, ℕ, [], All, IfOk, length, slice_index_or};
ghost use Rattle.slice_batch.specs.Team.{ArePlaced, IsMade, IsTextAt, numbers};

use crate::worker::Made;
use slice_engine::{Criterion, Engine, Text};
use std::alloc::{AllocError, Global};

/// As many empty texts.
pub(crate) fn places(alloc: Global, count: usize) -> Result<Vec<Text>, AllocError>
    ensures { IfOk result (λ texts. length texts.items ≡ count) }
{
    let mut texts = Vec::new(alloc);
    for _place in 0..count {
        texts.push(Text::new(alloc))?;
    }
    Ok(texts)
}

/// Puts each text that was made at the place of its criterion.
pub(crate) fn place(e: &Engine, list: &[Criterion], made: Vec<Made>, texts: &mut Vec<Text>)
    requires each { All (IsMade e.now list.now) made.items }
    requires places { length texts.old.items ≡ length list.now }
    ensures places { length texts.new.items ≡ length list.now }
    ensures placed { ArePlaced e.now list.now (numbers made.items) texts.new.items }
    ensures kept { (k : ℕ) → IsTextAt e.now list.now k (slice_index_or texts.old.items k [])
        → IsTextAt e.now list.now k (slice_index_or texts.new.items k []) }
{
    for one in made {
        let Made { number, text } = one;
        texts[number as usize] = text;
    }
}
