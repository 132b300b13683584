//! Constructs that have no production, told by what stands around a token.
ghost use Rattle.std.specs.Prelude.{◌≡◌, ◌==◌, ◌&&◌, ◌||◌, slice_get};
ghost use Rattle.c_language.specs.Sees as language;
ghost use Rattle.c_language.specs.IntWords as words;
ghost use Rattle.c_language.specs.LeftOut as grammar;
ghost use Rattle.c_parse_left_out.specs.Naming as spec;

use crate::around::{
    Sought, behind_stars, behind_words, doubles_semicolon, has_open_brace, holds_long, innermost,
    is_assignment_sign, is_bump_sign, is_int_word, outside, owes_no_colon, stands_here,
};
use crate::neighbours::Neighbours;
use c_language::{Token, TokenKind};
use c_parse_words::{is_keyword, is_token};

/// Whether this mark stands in front.
#[tactic(auto, unfolding(c_language::specs::Sees::sees))]
fn sees_mark(side: &Neighbours<'_>, text: &[u8]) -> bool
    ensures { result ≡ language.sees TokenKind.Mark text.now side.now }
{
    side.has(0, TokenKind::Mark, text)
}

/// Whether this word stands in front.
#[tactic(auto, unfolding(c_language::specs::Sees::sees))]
fn sees_word(side: &Neighbours<'_>, text: &[u8]) -> bool
    ensures { result ≡ language.sees TokenKind.Name text.now side.now }
{
    side.has(0, TokenKind::Name, text)
}

/// Whether this mark stands behind the front.
#[tactic(auto, unfolding(c_language::specs::Sees::sees_second))]
fn sees_second_mark(side: &Neighbours<'_>, text: &[u8]) -> bool
    ensures { result ≡ language.sees_second TokenKind.Mark text.now side.now }
{
    side.has(1, TokenKind::Mark, text)
}

/// Whether this word stands behind the front.
#[tactic(auto, unfolding(c_language::specs::Sees::sees_second))]
fn sees_second_word(side: &Neighbours<'_>, text: &[u8]) -> bool
    ensures { result ≡ language.sees_second TokenKind.Name text.now side.now }
{
    side.has(1, TokenKind::Name, text)
}

#[tactic(auto, unfolding(c_language::specs::IntWords::sees_int_word))]
fn sees_int_word(side: &Neighbours<'_>) -> bool
    ensures { result ≡ words.sees_int_word side.now }
{
    match side.get(0) {
        Some(token) => is_int_word(token),
        None => false,
    }
}

// ---- where a token stands

#[tactic(auto, unfolding(c_language::specs::LeftOut::is_within))]
fn is_within(before: &Neighbours<'_>, word: &[u8]) -> bool
    ensures { result ≡ grammar.is_within word.now before.now }
{
    let open = innermost(before);
    sees_mark(&open, b"(") && sees_second_word(&open, word)
}

#[tactic(auto, unfolding(c_language::specs::LeftOut::is_in_switch))]
fn is_in_switch(before: &Neighbours<'_>) -> bool
    ensures { result ≡ grammar.is_in_switch before.now }
{
    let open = innermost(before);
    sees_mark(&open, b"{") && sees_second_mark(&open, b")") && is_within(&open.from(2), b"switch")
}

#[tactic(auto, unfolding(c_language::specs::LeftOut::is_in_struct))]
fn is_in_struct(before: &Neighbours<'_>) -> bool
    ensures { result ≡ grammar.is_in_struct before.now }
{
    let open = innermost(before);
    sees_mark(&open, b"{") && open.has(2, TokenKind::Name, b"struct")
}

#[tactic(auto, unfolding(c_language::specs::LeftOut::is_in_list))]
fn is_in_list(before: &Neighbours<'_>) -> bool
    ensures { result ≡ grammar.is_in_list before.now }
{
    let open = innermost(before);
    sees_mark(&open, b"{") && sees_second_mark(&open, b"=")
}

#[tactic(auto, unfolding(c_language::specs::LeftOut::is_in_parens))]
fn is_in_parens(before: &Neighbours<'_>) -> bool
    ensures { result ≡ grammar.is_in_parens before.now }
{
    sees_mark(&innermost(before), b"(") && !is_within(before, b"for")
}

#[tactic(auto, unfolding(c_language::specs::LeftOut::is_in_index))]
fn is_in_index(before: &Neighbours<'_>) -> bool
    ensures { result ≡ grammar.is_in_index before.now }
{
    sees_mark(&innermost(before), b"[")
}

#[tactic(auto, unfolding(c_language::specs::LeftOut::holds_effect))]
fn holds_effect(before: &Neighbours<'_>) -> bool
    ensures { result ≡ grammar.holds_effect before.now }
{
    stands_here(before, Sought::Effect)
}

#[tactic(auto, unfolding(c_language::specs::LeftOut::declares))]
fn declares(before: &Neighbours<'_>) -> bool
    ensures { result ≡ grammar.declares before.now }
{
    stands_here(before, Sought::TypeWord)
}

#[tactic(auto, unfolding(c_language::specs::LeftOut::is_in_label))]
fn is_in_label(before: &Neighbours<'_>) -> bool
    ensures { result ≡ grammar.is_in_label before.now }
{
    stands_here(before, Sought::Case)
}

#[tactic(auto, unfolding(c_language::specs::LeftOut::ends_arm))]
fn ends_arm(behind: &Neighbours<'_>) -> bool
    ensures { result ≡ grammar.ends_arm behind.now }
{
    sees_mark(behind, b";")
        && (sees_second_mark(behind, b"}")
            || sees_second_word(behind, b"case")
            || sees_second_word(behind, b"default"))
}

#[tactic(auto, unfolding(c_language::specs::LeftOut::begins_in_arm, c_language::specs::LeftOut::stands_in_list))]
fn begins_in_arm(before: &Neighbours<'_>) -> bool
    ensures { result ≡ grammar.begins_in_arm before.now }
{
    sees_mark(before, b";")
        || sees_mark(before, b"{")
        || sees_mark(before, b"}")
        || sees_mark(before, b":")
}

#[tactic(auto, unfolding(c_language::specs::LeftOut::is_own_break))]
fn is_own_break(before: &Neighbours<'_>, behind: &Neighbours<'_>) -> bool
    ensures { result ≡ grammar.is_own_break before.now behind.now }
{
    is_in_switch(before) && begins_in_arm(before) && ends_arm(behind)
}

#[tactic(auto, unfolding(c_language::specs::LeftOut::begins_statement))]
fn begins_statement(before: &Neighbours<'_>) -> bool
    ensures { result ≡ grammar.begins_statement before.now }
{
    sees_mark(before, b";")
        || sees_mark(before, b"{")
        || sees_mark(before, b"}")
        || sees_mark(before, b")")
        || sees_mark(before, b":")
        || sees_word(before, b"else")
        || sees_word(before, b"do")
}

#[tactic(auto, unfolding(c_language::specs::LeftOut::ends_type))]
fn ends_type(before: &Neighbours<'_>) -> bool
    ensures { result ≡ grammar.ends_type before.now }
{
    sees_int_word(before) || sees_word(before, b"void") || sees_second_word(before, b"struct")
}

// ---- calls

fn ends_call(text: &[u8]) -> bool
    ensures { result ≡ grammar.ends_call text.now }
{
    text == b";".as_slice()
        || text == b",".as_slice()
        || text == b")".as_slice()
        || text == b"{".as_slice()
        || text == b"}".as_slice()
}

fn parts_operands(text: &[u8]) -> bool
    ensures { result ≡ grammar.parts_operands text.now }
{
    ends_call(text)
        || text == b"=".as_slice()
        || text == b":".as_slice()
        || text == b"]".as_slice()
        || text == b"(".as_slice()
}

fn sees_operator(side: &Neighbours<'_>) -> bool
    ensures { result ≡ grammar.is_some_operator (slice_get side.now 0) }
{
    match side.get(0) {
        Some(token) => token.kind == TokenKind::Mark && !ends_call(token.text.bytes()),
        None => false,
    }
}

#[tactic(auto, unfolding(c_language::specs::LeftOut::is_left_operator))]
fn is_left_operator(token: &Token) -> bool
    ensures { result ≡ grammar.is_left_operator token.now }
{
    (token.kind == TokenKind::Mark && !parts_operands(token.text.bytes()))
        || is_token(token, TokenKind::Name, b"return")
        || is_token(token, TokenKind::Name, b"case")
}

fn sees_left_operator(before: &Neighbours<'_>) -> bool
    ensures { result ≡ grammar.is_some_left_operator (slice_get before.now 0) }
{
    match before.get(0) {
        Some(token) => is_left_operator(token),
        None => false,
    }
}

#[tactic(auto, unfolding(c_language::specs::LeftOut::ends_cast))]
fn ends_cast(before: &Neighbours<'_>) -> bool
    ensures { result ≡ grammar.ends_cast before.now }
{
    sees_mark(before, b")") && sees_int_word(&before.from(1))
}

#[tactic(auto, unfolding(c_language::specs::LeftOut::has_left_operator))]
fn has_left_operator(before: &Neighbours<'_>) -> bool
    ensures { result ≡ grammar.has_left_operator before.now }
{
    sees_left_operator(before)
        || ends_cast(before)
        || (sees_mark(before, b":") && holds_effect(before))
}

#[tactic(auto, unfolding(c_language::specs::LeftOut::is_enclosed))]
fn is_enclosed(before: &Neighbours<'_>) -> bool
    ensures { result ≡ grammar.is_enclosed before.now }
{
    is_in_index(before)
        || is_in_parens(before)
        || is_in_list(before)
        || (sees_mark(before, b"=") && !has_open_brace(before))
}

#[tactic(auto, unfolding(c_language::specs::LeftOut::goes_on))]
fn goes_on(before: &Neighbours<'_>, after: &Neighbours<'_>) -> bool
    ensures { result ≡ grammar.goes_on before.now after.now }
{
    sees_operator(after)
        || (is_within(before, b"for") && sees_mark(before, b";") && sees_mark(after, b";"))
}

/// Whether the name of a member stands here.
#[tactic(auto, unfolding(c_language::specs::LeftOut::is_selected))]
fn is_selected(before: &Neighbours<'_>) -> bool
    ensures { result ≡ grammar.is_selected before.now }
{
    sees_mark(before, b".") || sees_mark(before, b"->")
}

#[tactic(auto, unfolding(c_language::specs::LeftOut::is_inner_call))]
fn is_inner_call(before: &Neighbours<'_>, behind: &Neighbours<'_>) -> bool
    ensures { result ≡ grammar.is_inner_call before.now behind.now }
{
    !(ends_type(&behind_stars(before)) || is_selected(before))
        && (has_left_operator(before)
            || is_enclosed(before)
            || goes_on(before, &outside(&behind.from(1))))
}

#[tactic(auto, unfolding(c_language::specs::LeftOut::opens_condition))]
fn opens_condition(side: &Neighbours<'_>) -> bool
    ensures { result ≡ grammar.opens_condition side.now }
{
    sees_second_word(side, b"if")
        || sees_second_word(side, b"while")
        || sees_second_word(side, b"for")
        || sees_second_word(side, b"switch")
}

#[tactic(auto, unfolding(c_language::specs::LeftOut::ends_parens))]
fn ends_parens(before: &Neighbours<'_>) -> bool
    ensures { result ≡ grammar.ends_parens before.now }
{
    let inside = before.from(1);
    sees_mark(before, b")")
        && !ends_type(&behind_stars(&inside))
        && !opens_condition(&innermost(&inside))
}

#[tactic(auto, unfolding(c_language::specs::LeftOut::ends_member))]
fn ends_member(before: &Neighbours<'_>) -> bool
    ensures { result ≡ grammar.ends_member before.now }
{
    before.has_word(0) && (sees_second_mark(before, b".") || sees_second_mark(before, b"->"))
}

#[tactic(auto, unfolding(c_language::specs::LeftOut::ends_designator))]
fn ends_designator(before: &Neighbours<'_>) -> bool
    ensures { result ≡ grammar.ends_designator before.now }
{
    sees_mark(before, b"]") || ends_member(before) || ends_parens(before)
}

#[tactic(auto, unfolding(c_language::specs::LeftOut::is_in_code))]
fn is_in_code(before: &Neighbours<'_>) -> bool
    ensures { result ≡ grammar.is_in_code before.now }
{
    has_open_brace(before) || holds_effect(before)
}

#[tactic(auto, unfolding(c_language::specs::LeftOut::is_pointer_call))]
fn is_pointer_call(before: &Neighbours<'_>) -> bool
    ensures { result ≡ grammar.is_pointer_call before.now }
{
    ends_designator(before) && is_in_code(before)
}

// ---- side effects and commas

#[tactic(auto, unfolding(c_language::specs::LeftOut::is_inner_effect))]
fn is_inner_effect(before: &Neighbours<'_>) -> bool
    ensures { result ≡ grammar.is_inner_effect before.now }
{
    is_in_index(before)
        || (is_in_parens(before) && !declares(before))
        || is_in_list(before)
        || holds_effect(before)
        || is_in_label(before)
}

#[tactic(auto, unfolding(c_language::specs::LeftOut::is_starred))]
fn is_starred(before: &Neighbours<'_>) -> bool
    ensures { result ≡ grammar.is_starred before.now }
{
    before.has_word(0) && sees_second_mark(before, b"*")
}

#[tactic(auto, unfolding(c_language::specs::LeftOut::is_grouped))]
fn is_grouped(before: &Neighbours<'_>) -> bool
    ensures { result ≡ grammar.is_grouped before.now }
{
    let open = innermost(before);
    sees_mark(&open, b"(") && !open.has_name(1)
}

#[tactic(auto, unfolding(c_language::specs::LeftOut::is_behind_effect))]
fn is_behind_effect(before: &Neighbours<'_>) -> bool
    ensures { result ≡ grammar.is_behind_effect before.now }
{
    has_open_brace(before) && holds_effect(before) && !is_in_list(before)
}

#[tactic(auto, unfolding(c_language::specs::LeftOut::is_comma_place))]
fn is_comma_place(before: &Neighbours<'_>) -> bool
    ensures { result ≡ grammar.is_comma_place before.now }
{
    is_in_index(before)
        || is_in_label(before)
        || ((is_grouped(before) || is_behind_effect(before)) && !declares(before))
}

// ---- types

#[tactic(auto, unfolding(c_language::specs::LeftOut::is_cast_paren))]
fn is_cast_paren(side: &Neighbours<'_>) -> bool
    ensures { result ≡ grammar.is_cast_paren side.now }
{
    sees_mark(side, b"(") && !(side.has_name(1) || sees_second_word(side, b"sizeof"))
}

#[tactic(auto, unfolding(c_language::specs::LeftOut::opens_cast))]
fn opens_cast(before: &Neighbours<'_>) -> bool
    ensures { result ≡ grammar.opens_cast before.now }
{
    (sees_int_word(before) && is_cast_paren(&behind_words(before)))
        || (sees_second_word(before, b"struct") && is_cast_paren(&before.from(2)))
}

#[tactic(auto, unfolding(c_language::specs::LeftOut::casts_other))]
fn casts_other(behind: &Neighbours<'_>) -> bool
    ensures { result ≡ grammar.casts_other behind.now }
{
    let end = behind_stars(behind);
    sees_mark(&end, b")") && !sees_second_word(&end, b"malloc")
}

#[tactic(auto, unfolding(c_language::specs::LeftOut::ends_declarator))]
fn ends_declarator(before: &Neighbours<'_>) -> bool
    ensures { result ≡ grammar.ends_declarator before.now }
{
    before.has_name(0) || sees_mark(before, b"]") || sees_mark(before, b")")
}

#[tactic(auto, unfolding(c_language::specs::LeftOut::is_void_place))]
fn is_void_place(before: &Neighbours<'_>, behind: &Neighbours<'_>) -> bool
    ensures { result ≡ grammar.is_void_place before.now behind.now }
{
    (sees_mark(before, b"(") && ends_declarator(&before.from(1)) && sees_mark(behind, b")"))
        || sees_mark(behind, b"(")
        || (behind.has_word(0) && sees_second_mark(behind, b"("))
}

#[tactic(auto, unfolding(c_language::specs::LeftOut::begins_declarator))]
fn begins_declarator(side: &Neighbours<'_>) -> bool
    ensures { result ≡ grammar.begins_declarator side.now }
{
    sees_mark(side, b"*") || sees_mark(side, b"(") || side.has_name(0)
}

#[tactic(auto, unfolding(c_language::specs::LeftOut::is_inner_definition))]
fn is_inner_definition(before: &Neighbours<'_>, behind: &Neighbours<'_>) -> bool
    ensures { result ≡ grammar.is_inner_definition before.now behind.now }
{
    has_open_brace(before) || is_in_parens(before) || begins_declarator(&outside(behind))
}

#[tactic(auto, unfolding(c_language::specs::LeftOut::is_in_param))]
fn is_in_param(before: &Neighbours<'_>) -> bool
    ensures { result ≡ grammar.is_in_param before.now }
{
    !has_open_brace(before) && is_in_parens(before) && declares(before)
}

#[tactic(auto, unfolding(c_language::specs::LeftOut::lacks_condition))]
fn lacks_condition(behind: &Neighbours<'_>) -> bool
    ensures { result ≡ grammar.lacks_condition behind.now }
{
    sees_mark(behind, b"(") && doubles_semicolon(behind)
}

// ---- the constructs

#[tactic(auto, unfolding(crate::specs::Naming::names_operand))]
fn names_operand(word: &[u8], before: &Neighbours<'_>, behind: &Neighbours<'_>) -> bool
    ensures { result ≡ spec.names_operand word.now before.now behind.now }
{
    !is_keyword(word)
        && ((sees_mark(behind, b":") && begins_statement(before) && owes_no_colon(before))
            || (sees_mark(behind, b"(") && is_inner_call(before, behind)))
}

#[tactic(auto, unfolding(crate::specs::Naming::names_word))]
fn names_word(word: &[u8], before: &Neighbours<'_>, behind: &Neighbours<'_>) -> bool
    ensures { result ≡ spec.names_word word.now before.now behind.now }
{
    if word == b"break".as_slice() {
        return !is_own_break(before, behind);
    }
    if word == b"long".as_slice() {
        return holds_long(before);
    }
    if word == b"static".as_slice() {
        return has_open_brace(before) && !is_in_struct(before);
    }
    if word == b"sizeof".as_slice() {
        return !is_within(before, b"malloc");
    }
    if word == b"void".as_slice() {
        return !is_void_place(before, behind);
    }
    if word == b"for".as_slice() {
        return lacks_condition(behind);
    }
    names_operand(word, before, behind)
}

#[tactic(auto, unfolding(crate::specs::Naming::names_struct))]
fn names_struct(before: &Neighbours<'_>, behind: &Neighbours<'_>) -> bool
    ensures { result ≡ spec.names_struct before.now behind.now }
{
    sees_word(before, b"struct")
        || (before.has_word(0)
            && sees_second_word(before, b"struct")
            && is_inner_definition(&before.from(2), behind))
}

#[tactic(auto, unfolding(crate::specs::Naming::names_operator))]
fn names_operator(mark: &[u8], before: &Neighbours<'_>) -> bool
    ensures { result ≡ spec.names_operator mark.now before.now }
{
    if is_assignment_sign(mark) {
        return is_inner_effect(before);
    }
    if is_bump_sign(mark) {
        return is_inner_effect(before) || is_starred(before);
    }
    false
}

#[tactic(auto, unfolding(crate::specs::Naming::names_mark))]
fn names_mark(mark: &[u8], before: &Neighbours<'_>, behind: &Neighbours<'_>) -> bool
    ensures { result ≡ spec.names_mark mark.now before.now behind.now }
{
    if mark == b"(".as_slice() {
        return is_pointer_call(before) || ends_type(&behind_stars(before));
    }
    if mark == b",".as_slice() {
        return is_comma_place(before);
    }
    if mark == b":".as_slice() {
        return is_in_struct(before);
    }
    if mark == b"*".as_slice() {
        return opens_cast(before) && casts_other(behind);
    }
    if mark == b"[".as_slice() {
        return sees_mark(before, b"]") && is_in_param(before);
    }
    if mark == b"{".as_slice() {
        return names_struct(before, behind);
    }
    names_operator(mark, before)
}

/// Whether a token begins a construct without a production between these tokens.
pub(crate) fn names(before: &Neighbours<'_>, token: &Token, behind: &Neighbours<'_>) -> bool
    ensures { result ≡ spec.names before.now token.now behind.now }
{
    let text = token.text.bytes();
    match token.kind {
        TokenKind::Name => names_word(text, before, behind),
        TokenKind::Mark => names_mark(text, before, behind),
        TokenKind::Number
        | TokenKind::Character
        | TokenKind::Str
        | TokenKind::Include
        | TokenKind::Directive => false,
    }
}
