//! The board and its seats.
ghost use Rattle.std.specs.Prelude.{◌≡◌, true, [], ◌+◌, ◌<◌, ◌^◌, length};

use crate::rule::{BoardRule, Draw, Halves, Look, Publish};
use crate::truth::Truth;
use crate::view::{Charge, View};
use atomic_table::{Seat, Table};
use std::alloc::{AllocError, Global};
use std::snapshot::Snapshot;

/// Words that only gain bits, and one word to draw numbers from. Any number of threads share it by `&`.
///
/// Between any two steps it keeps `IsBoard` of `specs/Rule`.
#[derive(Drop)]
pub struct Board<T: Truth> {
    table: Table<(), View<T>, Charge<T>, BoardRule<T>, Global>,
    ghost words_are: { table.shared.table_id.words ≡ length table.shared.key.start.value.items + 1 },
    ghost no_slots: { table.shared.table_id.slots ≡ 0 },
}

/// What one worker steps with. It takes no memory that grows with the board: what it knows stands in contracts alone.
#[derive(Drop)]
pub struct BoardSeat<T> {
    seat: Seat<(), View<T>>,
    end: u32,
    done: bool,
    ghost live: { seat.me.0.live ≡ true },
    ghost end_is: { end ≡ seat.me.0.end },
    ghost short: { end + 16 < 2 ^ 32 },
    ghost done_is: { done ≡ seat.me.0.done },
    ghost empty: { seat.me.1 ≡ [] },
    ghost opening_long: { length seat.me.0.opening + 1 ≡ seat.table_id.words },
    ghost seen_long: { length seat.me.0.seen + 1 ≡ seat.table_id.words },
    ghost set_long: { length seat.me.0.set + 1 ≡ seat.table_id.words },
}

impl<T: Truth> Board<T> {
    ghost use Rattle.std.specs.Prelude.{ℕ, ◌*◌, ◌≤◌, ◌↔◌, false, slice_index, Some, IfOk, IfNone, IfSome};
    ghost use Rattle.std.specs.Int.{bit_at};
    ghost use Rattle.crew.specs.Counts.{Has, AreAllBelow};
    ghost use Rattle.crew.specs.SharedWords.{Holds, AreWithin, IsWithin, union, new_bits};
    ghost use Rattle.crew.specs.Seats.{view, board_of, id_of};
    ghost use Rattle.crew.specs.Shows.{worker_of, IsHistory};
    ghost use Rattle.crew.specs.Views.{first_view, looked_view, put_view, drawn_view, done_view, giver_view, split_view, joined_view};

    /// A board of these words, with the numbers below `end` to draw, and its first seat, off which fifteen more may be split.
    ///
    /// Fails with [`AllocError`] where there is no memory for two copies of the words beside `start`.
    pub fn open(
        alloc: Global,
        truth: T,
        start: Vec<u64>,
        end: u32,
    ) -> Result<(Board<T>, BoardSeat<T>), AllocError>
    where
        T: Drop,
        requires words { length start.items ≤ 2 ^ 18 }
        requires only_true { (n : ℕ) → Holds start.items n → T.is_true truth n }
        requires end { end + 16 < 2 ^ 32 }
        ensures board { IfOk result (λ r. board_of r.1 ≡ id_of r.0) }
        ensures view { IfOk result (λ r. view r.1 ≡ first_view truth start.items end) }
    {
        let charge = Charge {
            truth: Snapshot::of(&truth),
            start: Snapshot::of(&start),
            end,
        };
        let mut words = Vec::with_capacity(alloc, start.len() + 1)?;
        words.push(0)?;
        words.extend_from_slice(&start)?;
        let (table, seat) = Table::of_words(alloc, words.as_slice(), &charge)?;
        Ok((
            Board { table },
            BoardSeat {
                seat,
                end,
                done: false,
            },
        ))
    }

    /// A further seat, which has seen as much and is done where the giver is, and which has drawn and set nothing. It has no spare
    /// seat; the giver has one fewer. It is one load, and takes no memory.
    pub fn split(&self, seat: &mut BoardSeat<T>) -> BoardSeat<T>
        requires board { board_of seat.old ≡ id_of self.now }
        requires spare { 1 ≤ (view seat.old).spare }
        ensures board { (board_of seat.new ≡ board_of seat.old) × (board_of result ≡ board_of seat.old) }
        ensures giver { view seat.new ≡ giver_view (view seat.old) }
        ensures view { view result ≡ split_view (view seat.old) }
    {
        let end = seat.end;
        let done = seat.done;
        let theirs = self.table.shared.split_seat::<Halves>(&mut seat.seat);
        BoardSeat {
            seat: theirs,
            end,
            done,
        }
    }

    /// The seat has then all that the other one saw, set and drew, and its spare seats and itself to spare; it is done where either
    /// was. It is one load, and takes no memory.
    #[tactic(auto, using(crate::proofs::BitLemmas::length_union, crate::proofs::BitLemmas::within_union))]
    pub fn join(&self, seat: &mut BoardSeat<T>, other: BoardSeat<T>)
        requires board { (board_of seat.old ≡ id_of self.now) × (board_of other ≡ id_of self.now) }
        ensures board { board_of seat.new ≡ board_of seat.old }
        ensures view { view seat.new ≡ joined_view (view seat.old) (view other) }
        ensures keeps { AreWithin (view seat.old).seen (view seat.new).seen × AreWithin (view other).seen (view seat.new).seen }
    {
        let BoardSeat {
            seat: theirs,
            end: _,
            done,
        } = other;
        let either = seat.done || done;
        self.table
            .shared
            .join_seat::<Halves>(&mut seat.seat, theirs);
        seat.done = either;
    }

    /// The next number, which no seat drew before. It is above all that this seat drew.
    ///
    /// None comes exactly where the seat was done, or where the number of this step is at or past the end, which makes it done. It is
    /// one addition, or no step where the seat was done, and takes no memory.
    pub fn draw(&self, seat: &mut BoardSeat<T>) -> Option<u32>
        requires board { board_of seat.old ≡ id_of self.now }
        ensures board { board_of seat.new ≡ board_of seat.old }
        ensures none { IfNone result (view seat.new ≡ done_view (view seat.old)) }
        ensures some { IfSome result (λ n. ((view seat.old).done ≡ false) × (n < (view seat.old).end) × (view seat.new ≡ drawn_view (view seat.old) n)) }
        ensures above { IfSome result (λ n. (x : ℕ) → Has (view seat.old).drawn x → x < n) }
    {
        if seat.done {
            return None;
        }
        let number = self.table.shared.fetch_add::<Draw>(&mut seat.seat, 0, 1);
        if number < u64::from(seat.end) {
            Some(number as u32)
        } else {
            seat.done = true;
            None
        }
    }

    /// A word as it is at this step: true facts alone, and at least the opening word and what the seat saw and set in it. The seat has
    /// then seen it. It is one load, and takes no memory.
    pub fn look(&self, seat: &mut BoardSeat<T>, word: u32) -> u64
        requires board { board_of seat.old ≡ id_of self.now }
        requires word { word < length (view seat.old).opening }
        ensures board { board_of seat.new ≡ board_of seat.old }
        ensures view { view seat.new ≡ looked_view (view seat.old) word result }
        ensures only_true { (t : T) (i : ℕ) → (view seat.old).truth ≡ Some t → bit_at result i ≡ 1 → T.is_true t (64 * word + i) }
        ensures has_seen { IsWithin (slice_index (view seat.old).seen word) result }
        ensures has_set { IsWithin (slice_index (view seat.old).set word) result }
        ensures has_opening { IsWithin (slice_index (view seat.old).opening word) result }
        ensures keeps { AreWithin (view seat.old).seen (view seat.new).seen }
    {
        self.table
            .shared
            .load::<Look<T>>(&mut seat.seat, word as usize + 1)
    }

    /// Sets the bits in the word, and answers those that it lacked at this step. The seat has then seen all of them, and newly set
    /// those that it answers. It is one or of the word, and takes no memory.
    pub fn publish(&self, seat: &mut BoardSeat<T>, word: u32, bits: u64) -> u64
        requires board { board_of seat.old ≡ id_of self.now }
        requires word { word < length (view seat.old).opening }
        requires may_put { (t : T) (i : ℕ) → (view seat.old).truth ≡ Some t → bit_at bits i ≡ 1 → T.may_put t (view seat.old).drawn (view seat.old).seen (64 * word + i) }
        ensures board { board_of seat.new ≡ board_of seat.old }
        ensures answer { (found : ℕ) × (result ≡ new_bits bits found) × (found < 2 ^ 64) × (view seat.new ≡ put_view (view seat.old) word bits found)
            × IsWithin (slice_index (view seat.old).seen word) found
            × IsWithin (slice_index (view seat.old).set word) found
            × IsWithin (slice_index (view seat.old).opening word) found }
        ensures knows { (i : ℕ) → bit_at bits i ≡ 1 → Holds (view seat.new).seen (64 * word + i) }
        ensures keeps { AreWithin (view seat.old).seen (view seat.new).seen }
    {
        let found = self
            .table
            .shared
            .fetch_or::<Publish<T>>(&mut seat.seat, word as usize + 1, bits);
        bits & !found
    }

    /// The words at the end: the opening words with all newly set bits. They hold true facts alone, and all that the seat has seen.
    /// Where the seat is done, it and those joined to it drew each number below the end once. Some lawful list of events of the
    /// machine of `specs/Machine` leads from the opening to these words and to what the seat knows.
    ///
    /// Fails with [`AllocError`] where there is no memory for a copy of the words.
    pub fn close(self, alloc: Global, seat: BoardSeat<T>) -> Result<Vec<u64>, AllocError>
        requires board { board_of seat ≡ id_of self }
        requires spare { (view seat).spare ≡ 15 }
        ensures words { IfOk result (λ v. v.items ≡ union (view seat).opening (view seat).set) }
        ensures only_true { IfOk result (λ v. (t : T) (n : ℕ) → (view seat).truth ≡ Some t → Holds v.items n → T.is_true t n) }
        ensures has_seen { IfOk result (λ v. AreWithin (view seat).seen v.items) }
        ensures drawn { IfOk result (λ v. (view seat).done ≡ true → AreAllBelow (view seat).end (view seat).drawn) }
        ensures history { IfOk result (λ v. (t : T) → (view seat).truth ≡ Some t → IsHistory (T.may_put t) (view seat).end (view seat).opening v.items (worker_of (view seat))) }
    {
        let Board { table } = self;
        let BoardSeat {
            seat,
            end: _,
            done: _,
        } = seat;
        let count = table.word_count() - 1;
        let mut words = Vec::from_elem(alloc, 0u64, count)?;
        let closed = table.close_with(seat);
        for i in 0..count {
            words[i] = closed.word(i + 1);
        }
        closed.free();
        Ok(words)
    }
}
