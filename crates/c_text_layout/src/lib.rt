//! The layout of the tree of a text, with names as they stand there, is read again as that tree: a
//! law over trees that are syntax.
//!
//! The function is a law, and holds no code: its contract is the law, over the definitions of
//! `specs/Laws`.
#![tactic(auto)]

ghost use Rattle.c_text_layout.specs.Laws.{SyntaxIsPrinted};

/// A law: the layout of a tree that is syntax has tokens in the grammar, and their tree is the same in
/// all that the layout keeps, where each list of initialisers has fewer than 2 to the 32 items.
pub fn syntax_is_printed()
    ensures { SyntaxIsPrinted }
{}
