//! What is left of a tree that is syntax is syntax, and what stays of a text is left of its tree: laws
//! over thinner texts.
//!
//! Each function is a law, and holds no code: its contract is the law, over the definitions of
//! `specs/Left` and `specs/Laws`.
#![tactic(auto)]

ghost use Rattle.thinned_syntax.specs.Laws.{LeftIsSyntax, LeftNestsLess, ThinnedIsLeft, ThinnedIsTree, ThinnedIsWellFormed};

/// A law: what is left of a tree that is syntax is syntax, when statements, initialisers, calls, their
/// results and arguments, arms, results and parameters of functions, and items are taken away.
pub fn left_is_syntax()
    ensures { LeftIsSyntax }
{}

/// A law: what is left of a tree nests no deeper than the tree.
pub fn left_nests_less()
    ensures { LeftNestsLess }
{}

/// A law: what stays of a text is left of its tree, where what is kept is a text.
pub fn thinned_is_left()
    ensures { ThinnedIsLeft }
{}

/// A law: of the tree of some tokens, what stays is the tree of some tokens, where what is kept is
/// a text.
pub fn thinned_is_tree()
    ensures { ThinnedIsTree }
{}

/// A law: what stays of the program of a tree that is syntax, within the limits, is well formed, where
/// what is kept is a text.
pub fn thinned_is_well_formed()
    ensures { ThinnedIsWellFormed }
{}
