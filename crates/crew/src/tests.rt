//! One board, stepped on by one thread.
ghost use Rattle.std.specs.Prelude.{◌≡◌, ◌∷◌, [], true};
ghost use Rattle.bit_rows.specs.Words.{word_bit};

use crate::board::Board;
use crate::draw_only::numbers;
use crate::truth::Truth;
use std::alloc::AllocError;

/// The words of a board on which bits 0 and 2 of word 3 are true, and anyone may put them.
#[derive(Drop)]
struct TwoBits;

impl Truth for TwoBits {
    ghost is_true = { λ _ n. word_bit (0 ∷ 0 ∷ 0 ∷ 5 ∷ []) n ≡ true };

    ghost may_put = { λ _ drawn known n. word_bit (0 ∷ 0 ∷ 0 ∷ 5 ∷ []) n ≡ true };

    ghost sound = { λ t drawn known n all h. h };
}

/// Every fact is true.
#[derive(Drop)]
struct Anything;

impl Truth for Anything {
    ghost is_true = { λ _ n. Unit {0} };

    ghost may_put = { λ _ drawn known n. Unit {0} };

    ghost sound = { λ t drawn known n all h. tt };
}

#[test]
fn bits_are_answered_once_and_seen_by_all(rt: HostRuntime) -> Result<(), AllocError> {
    let start = vec![in rt.alloc(); 0u64, 0, 0, 0]?;
    let (board, mut first) = Board::open(rt.alloc(), TwoBits, start, 2)?;
    let mut second = board.split(&mut first);
    assert_eq!(rt; board.publish(&mut first, 3, 5), 5);
    assert_eq!(rt; board.look(&mut first, 3), 5);
    assert_eq!(rt; board.look(&mut second, 3), 5);
    assert_eq!(rt; board.publish(&mut first, 3, 4), 0);
    board.join(&mut first, second);
    let words = board.close(rt.alloc(), first)?;
    assert_eq!(rt; words.as_slice(), [0, 0, 0, 5].as_slice());
    Ok(())
}

#[test]
fn one_seat_draws_all_numbers(rt: HostRuntime) -> Result<(), AllocError> {
    let (board, mut first) = Board::open(rt.alloc(), numbers(), Vec::new(rt.alloc()), 2)?;
    let mut second = board.split(&mut first);
    assert_eq!(rt; board.draw(&mut first), Some(0));
    assert_eq!(rt; board.draw(&mut first), Some(1));
    assert_eq!(rt; board.draw(&mut first), None);
    assert_eq!(rt; board.draw(&mut first), None);
    assert_eq!(rt; board.draw(&mut second), None);
    Ok(())
}

#[test]
fn seats_draw_in_turn(rt: HostRuntime) -> Result<(), AllocError> {
    let (board, mut first) = Board::open(rt.alloc(), numbers(), Vec::new(rt.alloc()), 2)?;
    let mut second = board.split(&mut first);
    assert_eq!(rt; board.draw(&mut first), Some(0));
    assert_eq!(rt; board.draw(&mut second), Some(1));
    assert_eq!(rt; board.draw(&mut first), None);
    assert_eq!(rt; board.draw(&mut second), None);
    Ok(())
}

#[test]
fn no_number_is_below_zero(rt: HostRuntime) -> Result<(), AllocError> {
    let (board, mut seat) = Board::open(rt.alloc(), numbers(), Vec::new(rt.alloc()), 0)?;
    assert_eq!(rt; board.draw(&mut seat), None);
    let words = board.close(rt.alloc(), seat)?;
    assert_eq!(rt; words.len(), 0);
    Ok(())
}

#[test]
fn the_longest_board_comes_back(rt: HostRuntime) -> Result<(), AllocError> {
    let mut start = Vec::from_elem(rt.alloc(), 0u64, 262_144)?;
    start[0] = 1;
    start[262_143] = 1 << 63;
    let expected = start.clone()?;
    let (board, seat) = Board::open(rt.alloc(), Anything, start, 0)?;
    let words = board.close(rt.alloc(), seat)?;
    assert_eq!(rt; words.as_slice(), expected.as_slice());
    Ok(())
}
