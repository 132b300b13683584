//! Which words are in the form of a command's row.
ghost use Rattle.std.specs.Prelude.{◌≡◌, ◌↔◌, IsTrue, IsSomeAnd, Contains, map};
ghost use Rattle.std.specs.Str.{bytes_eq};
ghost use Rattle.call_words.specs.Grammar as spec;
ghost use Rattle.call_words.specs.Grammar.{IsFileName, IsNumber, IsOf, AreWanted, AreOptions, IsSortedInForm, decimal_from};
ghost use Rattle.call_words.specs.Forms.{texts, pairs, view, sorted_view};

use crate::grammar::{Form, Kind};
use crate::sorting::Sorted;

/// Whether sorted words are in the form of a row.
pub(crate) fn is_in_form(form: &Form, sorted: &Sorted<'_>) -> bool
    ensures { IsTrue result ↔ IsSortedInForm (view form.now) (sorted_view sorted.now) }
{
    sorted.waiting.is_none()
        && are_wanted(form, sorted.others.as_slice())
        && are_options(form, sorted.given.as_slice())
}

// Whether the other words are those that the command wants.
fn are_wanted(form: &Form, others: &[&str]) -> bool
    ensures { IsTrue result ↔ AreWanted (view form.now) (texts others.now) }
{
    if others.len() < form.wanted.len() {
        return false;
    }
    for i in 0..others.len() {
        if !is_of_some(kind_at(form, i), others[i]) {
            return false;
        }
    }
    true
}

// Whether the options are the command's, each given once, and those that it has to have are there.
fn are_options(form: &Form, given: &[(&str, &str)]) -> bool
    ensures { IsTrue result ↔ AreOptions (view form.now) (pairs given.now) }
{
    each_known(form, given) && each_once(given) && each_there(form.required, given)
}

// Whether each option is one of the command's, with a value of its kind.
fn each_known(form: &Form, given: &[(&str, &str)]) -> bool
    ensures { IsTrue result ↔ spec.EachKnown (view form.now) (pairs given.now) }
{
    for option in given {
        if !is_of_some(kind_of(form, option.0), option.1) {
            return false;
        }
    }
    true
}

// Whether no option is given twice.
fn each_once(given: &[(&str, &str)]) -> bool
    ensures { IsTrue result ↔ spec.EachOnce (pairs given.now) }
{
    for i in 0..given.len() {
        if is_given(&given[..i], given[i].0) {
            return false;
        }
    }
    true
}

// Whether all of these options are given.
fn each_there(names: &[&str], given: &[(&str, &str)]) -> bool
    ensures { IsTrue result ↔ spec.EachThere (texts names.now) (pairs given.now) }
{
    for name in names {
        if !is_given(given, name) {
            return false;
        }
    }
    true
}

// Whether an option is given.
fn is_given(given: &[(&str, &str)], name: &str) -> bool
    ensures { IsTrue result ↔ Contains (map (λ o. o.0) (pairs given.now)) name.now }
{
    for option in given {
        if is_same(option.0, name) {
            return true;
        }
    }
    false
}

// The kind of the other word at a place, where one may stand there.
fn kind_at(form: &Form, place: usize) -> Option<Kind>
    ensures { result ≡ spec.kind_at (view form.now) place }
{
    let last = form.wanted.len().saturating_sub(1);
    let place = if form.repeats { place.min(last) } else { place };
    form.wanted.get(place).copied()
}

// The kind of an option's value.
fn kind_of(form: &Form, name: &str) -> Option<Kind>
    ensures { result ≡ spec.kind_of (view form.now) name.now }
{
    for option in form.options {
        if is_same(option.name, name) {
            return Some(option.kind);
        }
    }
    None
}

/// Whether two names are the same.
pub(crate) fn is_same(name: &str, other: &str) -> bool
    ensures test { result ≡ bytes_eq name.now other.now }
    ensures same { IsTrue result ↔ (name.now ≡ other.now) }
{
    name == other
}

// Whether there is a kind, and the word is of it.
fn is_of_some(kind: Option<Kind>, word: &str) -> bool
    ensures { IsTrue result ↔ IsSomeAnd kind (λ k. IsOf k word.now) }
{
    match kind {
        Some(kind) => is_of(kind, word),
        None => false,
    }
}

fn is_of(kind: Kind, word: &str) -> bool
    ensures { IsTrue result ↔ IsOf kind word.now }
{
    match kind {
        Kind::File => is_file_name(word),
        Kind::Number(least, greatest) => is_number_within(least, greatest, word.as_bytes()),
    }
}

// Whether the word is a number from the first to the second.
fn is_number_within(least: u64, greatest: u64, word: &[u8]) -> bool
    ensures { IsTrue result ↔ spec.IsNumberWithin least greatest word.now }
{
    if !is_number(word) {
        return false;
    }
    let number = decimal(word);
    least <= number && number <= greatest
}

// Whether the word is the name of a file.
fn is_file_name(word: &str) -> bool
    ensures { IsTrue result ↔ IsFileName word.now }
{
    let bytes = word.as_bytes();
    !bytes.is_empty() && bytes[0] != b'-'
}

// Whether the word is one to ten decimal digits.
fn is_number(word: &[u8]) -> bool
    ensures { IsTrue result ↔ IsNumber word.now }
{
    if word.is_empty() || word.len() > 10 {
        return false;
    }
    for byte in word {
        if !byte.is_ascii_digit() {
            return false;
        }
    }
    true
}

/// The value of one to ten decimal digits.
pub(crate) fn decimal(digits: &[u8]) -> u64
    requires { IsNumber digits.now }
    ensures { result ≡ decimal_from 0 digits.now }
{
    let mut value: u64 = 0;
    for byte in digits {
        value = 10 * value + u64::from(*byte - b'0');
    }
    value
}
