//! Pairs of numbers of which some are marked.
ghost use Rattle.std.specs.Prelude.{◌≡◌, ℕ, ◌==◌, ◌&&◌, ◌<◌, [], OnOk, length, slice_index_or};
ghost use Rattle.kept_numbers.specs.Pairs.{AddsPairs, rows_of};

use named_variables::mark;
use std::alloc::{AllocError, Global};
use std::marker::Model;

/// Pairs of numbers of which some are marked, as a row of tests for each first number. Contracts see
/// the list of the rows.
#[derive(Drop)]
pub struct Pairs {
    rows: Vec<Vec<bool>>,
}

impl Model for Pairs {
    ghost use Rattle.std.specs.Prelude.{List, Bool};
    ghost use Rattle.kept_numbers.specs.Pairs.{rows_of};

    ghost Value = { List (List Bool) };

    ghost view = { λ t. rows_of t.rows };
}

impl Pairs {
    /// No pair is marked.
    pub fn new(alloc: Global) -> Pairs
        ensures { result ≡ [] }
    {
        Pairs {
            rows: Vec::new(alloc),
        }
    }

    /// Marks a pair. Err: no memory was left, and nothing is marked.
    pub fn mark(&mut self, alloc: Global, first: u32, second: u32) -> Result<(), AllocError>
        ensures { OnOk result (AddsPairs self.old self.new (λ i n. (first == i) && (second == n))) }
    {
        let at = first as usize;
        while self.rows.len() <= at {
            self.rows.push(Vec::new(alloc))?;
        }
        mark_at(&mut self.rows, at, second)?;
        Ok(())
    }

    /// The tests of the pairs that begin with a number; past its end none is marked.
    pub fn row(&self, first: usize) -> &[bool]
        ensures { result.now ≡ slice_index_or self.now first [] }
    {
        if first < self.rows.len() {
            self.rows[first].as_slice()
        } else {
            &[]
        }
    }
}

// Marks a number in a row that is there.
fn mark_at(rows: &mut Vec<Vec<bool>>, at: usize, number: u32) -> Result<(), AllocError>
    requires { at < length rows.old.items }
    ensures { OnOk result (AddsPairs (rows_of rows.old) (rows_of rows.new) (λ i n. (at == i) && (number == n))) }
{
    mark(&mut rows[at], number)?;
    Ok(())
}
