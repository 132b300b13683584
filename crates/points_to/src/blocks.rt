//! The members of a row of bits, where those of a word that is 0 are passed over at once.
ghost use Rattle.std.specs.Prelude.{◌≡◌, ℕ, ◌/◌, ◌<◌, ◌≤◌, false, IsTrue, length};
ghost use Rattle.bit_rows.specs.Sets.{has};
ghost use Rattle.bit_rows.specs.Tables.{the_set};

use bit_rows::Rows;

// Whether the row has none of the 64 numbers among which `place` is.
fn is_blank(rows: &Rows, row: u32, place: u32) -> bool
    requires row_in { row < length rows.now.sets }
    requires place_in { place < rows.now.bits }
    ensures { IsTrue result → (k : ℕ) → k / 64 ≡ place / 64 → has (the_set rows.now row) k ≡ false }
{
    let words = rows.words(row);
    let word = words[place as usize / 64];
    if word == 0 { true } else { false }
}

// The same, where the place is in front of the end.
fn is_passed(rows: &Rows, row: u32, place: u32, end: u32) -> bool
    requires row_in { row < length rows.now.sets }
    requires end { end ≤ rows.now.bits }
    ensures inside { IsTrue result → place < end }
    ensures blank { IsTrue result → (k : ℕ) → k / 64 ≡ place / 64 → has (the_set rows.now row) k ≡ false }
{
    if place < end {
        is_blank(rows, row, place)
    } else {
        false
    }
}

// The first of the next 64 numbers, or the end.
fn next_block(place: u32, end: u32) -> u32
    requires { place < end }
    ensures later { place < result }
    ensures inside { result ≤ end }
    ensures block { (k : ℕ) → place ≤ k → k < result → k / 64 ≡ place / 64 }
{
    let rest = 64 - place % 64;
    if end - place < rest {
        end
    } else {
        place + rest
    }
}

/// A place from `place` on in front of which the row has no number, or the end.
pub(crate) fn next_place(rows: &Rows, row: u32, place: u32, end: u32) -> u32
    requires row_in { row < length rows.now.sets }
    requires place_in { place ≤ end }
    requires end { end ≤ rows.now.bits }
    ensures later { place ≤ result }
    ensures inside { result ≤ end }
    ensures passed { (k : ℕ) → place ≤ k → k < result → has (the_set rows.now row) k ≡ false }
{
    let mut at = place;
    while is_passed(rows, row, at, end) {
        at = next_block(at, end);
    }
    at
}
