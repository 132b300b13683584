//! The rule of a board, and what each step tells its caller.
ghost use Rattle.crew.specs.Rule.{IsBoard};
ghost use Rattle.crew.specs.Steps.{Looked, Put, Drew};
ghost use Rattle.crew.specs.Views.{first_view, spent_view, giver_view, split_view, joined_view};

use crate::truth::Truth;
use crate::view::{Charge, View};
use atomic_table::{Join, Play, Split, TableRule};
use std::marker::PhantomData;

/// What holds of a board between any two steps: `IsBoard` of `specs/Rule`.
pub struct BoardRule<T> {
    truth: PhantomData<T>,
}

impl<T: Truth> TableRule<(), View<T>, Charge<T>> for BoardRule<T> {
    ghost holds = { λ k s. IsBoard T.is_true T.may_put k.truth.value k.start.value.items k.end s };

    ghost first = { λ k. first_view k.truth.value k.start.value.items k.end };
}

pub(crate) struct Look<T> {
    truth: PhantomData<T>,
}

impl<T: Truth> Play<(), View<T>> for Look<T> {
    ghost then = { Looked T.is_true };
}

pub(crate) struct Publish<T> {
    truth: PhantomData<T>,
}

impl<T: Truth> Play<(), View<T>> for Publish<T> {
    ghost then = { Put T.is_true };
}

pub(crate) struct Draw;

impl<T> Play<(), View<T>> for Draw {
    ghost then = { Drew };
}

pub(crate) struct Halves;

impl<T> Split<View<T>> for Halves {
    ghost left = { giver_view };

    ghost right = { split_view };
}

impl<T> Join<View<T>> for Halves {
    ghost both = { joined_view };

    ghost spent = { spent_view };
}
