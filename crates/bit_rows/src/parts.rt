//! Parts of a list of words: the words of one row among those of all rows.
ghost use Rattle.std.specs.Prelude.{◌≡◌, ◌+◌, ◌≤◌, ◌↔◌, ◌⊎◌, IsFalse, length, slice_range};
ghost use Rattle.bit_rows.specs.Words.{IsJoinedAt, IsClearedAt, AreWords};

use crate::kernel;

/// Joins `from` into the words from `at` on, and tells whether one of them changed.
pub(crate) fn join_at(words: &mut [u64], at: usize, from: &[u64]) -> bool
    requires { at + length from.now ≤ length words.old }
    ensures joined { IsJoinedAt at from.now words.old words.new }
    ensures changed { IsFalse result ↔ (words.new ≡ words.old) }
    ensures words { AreWords words.old }
{
    let end = at + from.len();
    kernel::join(&mut words[at..end], from)
}

/// Joins the `len` words from `from` on into those from `to` on, and tells whether one changed.
pub(crate) fn join_within(words: &mut [u64], to: usize, from: usize, len: usize) -> bool
    requires apart { (to + len ≤ from) ⊎ (from + len ≤ to) }
    requires to_in { to + len ≤ length words.old }
    requires from_in { from + len ≤ length words.old }
    ensures joined { IsJoinedAt to (slice_range words.old from (from + len)) words.old words.new }
    ensures changed { IsFalse result ↔ (words.new ≡ words.old) }
    ensures words { AreWords words.old }
{
    if to < from {
        let (head, tail) = words.split_at_mut(from);
        join_at(head, to, &tail[..len])
    } else {
        let (head, tail) = words.split_at_mut(to);
        join_at(tail, 0, &head[from..from + len])
    }
}

/// The `len` words from `start` on.
pub(crate) fn part(words: &[u64], start: usize, len: usize) -> &[u64]
    requires { start + len ≤ length words.now }
    ensures { result.now ≡ slice_range words.now start (start + len) }
{
    &words[start..start + len]
}

/// Makes the `len` words from `start` on 0.
pub(crate) fn clear(words: &mut [u64], start: usize, len: usize)
    requires { start + len ≤ length words.old }
    ensures { IsClearedAt start len words.old words.new }
{
    words[start..start + len].fill(0);
}
