//! What is printed of a program is read again, and so is what is printed of a tree that is syntax: laws
//! over layouts.
//!
//! Each function is a law, and holds no code: its contract is the law, over the definitions of
//! `specs/ReadAgain`, `specs/SyntaxLayout` and `specs/Places`.
#![tactic(auto)]

ghost use Rattle.c_print_laws.specs.Places.{StatementsStart, TextsAreFeedless};
ghost use Rattle.c_print_laws.specs.SyntaxLayout.{SyntaxIsTree, SyntaxIsReadAgain, WellFormedHasSyntax};
ghost use Rattle.c_print_laws.specs.ReadAgain.{LayoutIsOfText, LayoutKeepsPrograms, LayoutIsReadAgain, CommentedIsReadAgain, LayoutHasNoLines, LimitsAreSame};

/// A law: a tree that is syntax is the tree of some tokens in the grammar, among which no left-out
/// construct begins. With `text_is_syntax` of text_syntax, the trees that are syntax are just these.
pub fn syntax_is_tree()
    ensures { SyntaxIsTree }
{}

/// A law: the layout of a tree that is syntax, in which each list of initialisers has fewer than 2 to
/// the 32 items, is a text of the grammar with no left-out construct, and its tree is the same in all
/// that the layout keeps and nests no deeper.
pub fn syntax_is_read_again()
    ensures { SyntaxIsReadAgain }
{}

/// A law: a program is well formed where it is, but for lines, that of a tree that is syntax and keeps
/// all rules and limits, and only there.
pub fn well_formed_has_syntax()
    ensures { WellFormedHasSyntax }
{}

/// A law: the layout of the program of a tree that is syntax and keeps all rules is that of the tree.
pub fn layout_is_of_text()
    ensures { LayoutIsOfText }
{}

/// A law: of two trees that are syntax and the same in all that the layout keeps, one keeps the rules
/// where the other does, and they have one program but for lines.
pub fn layout_keeps_programs()
    ensures { LayoutKeepsPrograms }
{}

/// A law: the layout of a well-formed program is an accepted text that keeps all rules and limits,
/// and its program is the same but for lines.
pub fn layout_is_read_again()
    ensures { LayoutIsReadAgain }
{}

/// A law: the layout of a well-formed program behind a comment on a line of its own, in which no star and
/// no line feed stands, is an accepted text whose program is the same but for lines.
pub fn commented_is_read_again()
    ensures { CommentedIsReadAgain }
{}

/// A law: limits on arrays and objects don't depend on lines.
pub fn limits_are_same()
    ensures { LimitsAreSame }
{}

/// A law: programs that are the same but for lines have one layout.
pub fn layout_has_no_lines()
    ensures { LayoutHasNoLines }
{}

/// A law: no text of a well-formed program holds a line feed: names, spellings of constants,
/// formats, and the words of lengths.
pub fn texts_are_feedless()
    ensures { TextsAreFeedless }
{}

/// A law: each statement of a well-formed program starts on the line of its number in the layout.
pub fn statements_start()
    ensures { StatementsStart }
{}
