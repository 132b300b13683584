//! Copies of tree parts whose memory may run out: the trait that they share, and the copy of a list of them.
ghost use Rattle.std.specs.Prelude.{◌≡◌, IfOk};

use edge_io::Text;
use sqlite_items::Items;
use std::alloc::{AllocError, Global};

/// What can be copied as long as there is memory.
pub(crate) trait Copies: Drop {
    /// An equal value. Err: no memory was left.
    fn duplicate(&self, alloc: Global) -> Result<Self, AllocError>
        ensures { IfOk result (λ t. t ≡ self.now) };
}

impl Copies for Option<Text> {
    fn duplicate(&self, alloc: Global) -> Result<Option<Text>, AllocError> {
        match self {
            None => Ok(None),
            Some(text) => Ok(Some(text.copy(alloc)?)),
        }
    }
}

/// The copies of the items, in their order. Err: no memory was left.
pub(crate) fn copied<T: Copies>(alloc: Global, items: &Items<T>) -> Result<Items<T>, AllocError>
    ensures { IfOk result (λ t. t ≡ items.now) }
{
    let mut all = Items::new(alloc);
    for item in items.as_slice() {
        all.push(item.duplicate(alloc)?)?;
    }
    Ok(all)
}
