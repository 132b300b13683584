//! The tree of a text is syntax: what a parser returns has the form that a tree shows by itself.
//!
//! The function is a law, and holds no code: its contract is the law, over the definitions of
//! `specs/Laws`. It goes by one induction over the grammar, and single facts about the trees of texts
//! follow from it.
#![tactic(auto)]

ghost use Rattle.text_syntax.specs.Laws.{TextIsSyntax};

/// A law: the tree of tokens that are in the grammar is syntax.
pub fn text_is_syntax()
    ensures { TextIsSyntax }
{}
