//! Rows of items by number, which grow as they are needed.
ghost use Rattle.std.specs.Prelude.{◌≡◌, ℕ, ◌<◌, ◌++◌, OnOk, length};
ghost use Rattle.completion.specs.Rows as spec;

use std::alloc::{AllocError, Global};

/// Adds an item at the end of the row of a number, which is made where there is none. Err: no memory was left.
pub(crate) fn add<T: Copy>(
    alloc: Global,
    rows: &mut Vec<Vec<T>>,
    at: usize,
    item: T,
) -> Result<(), AllocError>
    ensures { OnOk result ((i : ℕ) → spec.row rows.new.items i ≡ spec.row rows.old.items i ++ spec.if_same i at item) }
{
    while rows.len() <= at {
        rows.push(Vec::new(alloc))?;
    }
    push_at(rows, at, item)?;
    Ok(())
}

// Adds an item to a row that is there.
fn push_at<T: Copy>(rows: &mut Vec<Vec<T>>, at: usize, item: T) -> Result<(), AllocError>
    requires { at < length rows.old.items }
    ensures { OnOk result ((i : ℕ) → spec.row rows.new.items i ≡ spec.row rows.old.items i ++ spec.if_same i at item) }
{
    rows[at].push(item)?;
    Ok(())
}

/// The row of a number, which is empty where there is none.
pub(crate) fn row<T: Copy>(rows: &[Vec<T>], at: usize) -> &[T]
    ensures { result.now ≡ spec.row rows.now at }
{
    if at < rows.len() {
        rows[at].as_slice()
    } else {
        &[]
    }
}
