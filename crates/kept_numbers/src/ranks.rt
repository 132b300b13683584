//! Numbers of which some are kept, and the new numbers of these.
ghost use Rattle.std.specs.Prelude.{◌≡◌, IfOk};
ghost use Rattle.bit_rows.specs.Sets.{has};
ghost use Rattle.kept_numbers.specs.Ranks.{number_of, rank as rank_of};

use std::alloc::{AllocError, Global};
use std::marker::Model;

/// Numbers of which some are kept. The rank of a number, how many kept ones are below it, is the
/// new number of a kept one. Contracts see the list of the tests.
#[derive(Drop)]
pub struct Renumbering<'a> {
    kept: &'a [bool],
    ranks: Vec<usize>,
    // The rank of each number past the end.
    total: usize,
}

impl<'a> Model for Renumbering<'a> {
    ghost use Rattle.std.specs.Prelude.{◌≡◌, ℕ, List, Bool, slice_index_or};
    ghost use Rattle.bit_rows.specs.Sets.{has};
    ghost use Rattle.kept_numbers.specs.Ranks.{rank};

    ghost Value = { List Bool };

    ghost view = { λ r. r.kept.now };

    ghost invariant = { λ r. (x : ℕ) → slice_index_or r.ranks.items x r.total ≡ rank (has r.kept.now) x };
}

impl<'a> Renumbering<'a> {
    /// Keeps the numbers whose place holds `true`. Err: no memory was left.
    pub fn new(alloc: Global, kept: &'a [bool]) -> Result<Renumbering<'a>, AllocError>
        ensures { IfOk result (λ r. r ≡ kept.now) }
    {
        let mut ranks = Vec::new(alloc);
        let mut total = 0;
        for is_kept in kept {
            ranks.push(total)?;
            if *is_kept {
                total += 1;
            }
        }
        Ok(Renumbering { kept, ranks, total })
    }

    /// Whether a number is kept.
    pub fn keeps(&self, number: usize) -> bool
        ensures { result ≡ has self.now number }
    {
        self.kept.get(number).copied().unwrap_or(false)
    }

    /// How many kept numbers are below this one.
    pub fn rank(&self, number: u32) -> u32
        ensures { result ≡ rank_of (has self.now) number }
    {
        self.ranks
            .get(number as usize)
            .copied()
            .unwrap_or(self.total) as u32
    }

    /// The new number of a kept number. None: it isn't kept.
    pub fn number(&self, number: u32) -> Option<u32>
        ensures { result ≡ number_of (has self.now) number }
    {
        if is_kept(self.kept, number) {
            Some(self.rank(number))
        } else {
            None
        }
    }
}

/// Whether a number is kept, where a number past the end isn't.
pub fn is_kept(kept: &[bool], number: u32) -> bool
    ensures { result ≡ has kept.now number }
{
    kept.get(number as usize).copied().unwrap_or(false)
}

/// Whether the member of a list at a place is kept, where one past the end isn't.
pub fn is_at(kept: &[bool], place: usize) -> bool
    ensures { result ≡ has kept.now place }
{
    kept.get(place).copied().unwrap_or(false)
}
