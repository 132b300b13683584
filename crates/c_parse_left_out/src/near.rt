//! The construct without a production that begins near the place at which reading stopped.
ghost use Rattle.std.specs.Prelude.{◌≡◌, ◌≤◌, length};
ghost use Rattle.c_parse_left_out.specs.Near as spec;

use crate::around::{innermost, is_bump_sign, is_closing};
use crate::naming::names;
use crate::neighbours::Neighbours;
use c_language::{Token, TokenKind};

/// Whether a construct without a production begins at a place.
#[tactic(auto, unfolding(crate::specs::Near::begins_at))]
fn begins_at(tokens: &[Token], at: usize) -> bool
    requires { at ≤ length tokens.now }
    ensures { result ≡ spec.begins_at tokens.now at }
{
    let (before, rest) = tokens.split_at(at);
    match rest.split_first() {
        Some((token, behind)) => names(
            &Neighbours::before(before),
            token,
            &Neighbours::behind(behind),
        ),
        None => false,
    }
}

/// The place of the innermost bracket that is open before a place, and 0 where none is.
#[tactic(auto, unfolding(crate::specs::Near::open_before))]
fn open_before(tokens: &[Token], at: usize) -> usize
    requires { at ≤ length tokens.now }
    ensures place { result ≡ spec.open_before tokens.now at }
    ensures within { result ≤ length tokens.now }
{
    let (before, _) = tokens.split_at(at);
    innermost(&Neighbours::before(before))
        .len()
        .saturating_sub(1)
}

/// The first place from one on, before another, at which a construct without a production begins.
fn first_within(tokens: &[Token], from: usize, to: usize) -> Option<usize>
    requires { to ≤ length tokens.now }
    ensures { result ≡ spec.first_within tokens.now from to }
{
    for at in from..to {
        if begins_at(tokens, at) {
            return Some(at);
        }
    }
    None
}

/// Whether an expression may go on at a place: a mark stands before it that is no closing bracket and no
/// `++` or `--`.
#[tactic(auto, unfolding(crate::specs::Near::may_go_on))]
fn may_go_on(tokens: &[Token], at: usize) -> bool
    requires { at ≤ length tokens.now }
    ensures { result ≡ spec.may_go_on tokens.now at }
{
    let (before, _) = tokens.split_at(at);
    match Neighbours::before(before).get(0) {
        Some(token) => {
            token.kind == TokenKind::Mark
                && !(is_closing(token) || is_bump_sign(token.text.bytes()))
        }
        None => false,
    }
}

/// The place behind the last one that is looked at, where reading stops at a place. Behind an operand the
/// next tokens are those of another statement.
#[tactic(auto, unfolding(crate::specs::Near::end_near))]
fn end_near(tokens: &[Token], stop: usize) -> usize
    requires { stop ≤ length tokens.now }
    ensures place { result ≡ spec.end_near tokens.now stop }
    ensures within { result ≤ length tokens.now }
{
    let most = if may_go_on(tokens, stop) { 3 } else { 1 };
    stop + (tokens.len() - stop).min(most)
}

/// Where a construct begins whose reading stops at a place: a call or a struct whose bracket was closed
/// there, a `for` whose parenthesis is open there, or else the first one from five tokens before the place
/// on. A place past the end is the end.
#[tactic(auto, unfolding(crate::specs::Near::left_out_near))]
pub fn left_out_near(tokens: &[Token], stop: usize) -> Option<usize>
    ensures { result ≡ spec.left_out_near tokens.now stop }
{
    begun_near(tokens, stop.min(tokens.len()))
}

/// The same of a place that isn't past the end.
#[tactic(auto, unfolding(crate::specs::Near::begun_near))]
fn begun_near(tokens: &[Token], stop: usize) -> Option<usize>
    requires { stop ≤ length tokens.now }
    ensures { result ≡ spec.begun_near tokens.now stop }
{
    let closed = open_before(tokens, stop.saturating_sub(1));
    let called = closed.saturating_sub(1);
    if begins_at(tokens, called) {
        return Some(called);
    }
    if begins_at(tokens, closed) {
        return Some(closed);
    }
    let looped = open_before(tokens, stop).saturating_sub(1);
    if begins_at(tokens, looped) {
        return Some(looped);
    }
    first_within(tokens, stop.saturating_sub(5), end_near(tokens, stop))
}
