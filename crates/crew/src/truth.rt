//! Which facts are true, and which of them may be put on a board.
ghost use Rattle.std.specs.Prelude.{◌≡◌, ℕ, true, List};
ghost use Rattle.bit_rows.specs.Words.{word_bit};

/// Which facts are true, and who may put which of them on a board.
///
/// A fact is told by its number: bit `i` of word `w` is fact `64 * w + i`.
pub trait Truth {
    // The fact is true.
    ghost is_true: { Self → ℕ → Type 0 };

    // Who drew these numbers and knows these words may put the fact.
    ghost may_put: { Self → List ℕ → List ℕ → ℕ → Type 0 };

    // What may be put by one who knows true facts alone is true.
    ghost sound: { (t : Self) (drawn known : List ℕ) (n : ℕ) → ((m : ℕ) → word_bit known m ≡ true → is_true t m) → may_put t drawn known n → is_true t n };
}

/// A truth without facts, for work that only draws.
#[derive(Clone, Copy)]
pub struct Numbers;

impl Truth for Numbers {
    ghost is_true = { λ _ n. ⊥ };

    ghost may_put = { λ _ drawn known n. ⊥ };

    ghost sound = { λ t drawn known n all h. h };
}
