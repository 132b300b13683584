//! Options and other words, which are mixed behind a command's name, told apart.
ghost use Rattle.std.specs.Prelude.{◌≡◌, fold, IfOk, OnOk, option_map};
ghost use Rattle.clap.specs.Lexer.{strip_byte, name_and_value};
ghost use Rattle.call_words.specs.Sorting.{option_in, and_sorted, none_sorted};
ghost use Rattle.call_words.specs.Forms.{texts, sorted_view};

use std::alloc::{AllocError, Global};

/// The words behind a command's name.
#[derive(Drop)]
pub(crate) struct Sorted<'a> {
    /// The words that are no options, in order.
    pub(crate) others: Vec<&'a str>,
    /// The options with their values, in order.
    pub(crate) given: Vec<(&'a str, &'a str)>,
    /// The option that waits for the next word as its value.
    pub(crate) waiting: Option<&'a str>,
}

impl<'a> Sorted<'a> {
    // Takes one more word.
    fn put(&mut self, word: &'a str) -> Result<(), AllocError>
        ensures { OnOk result (sorted_view self.new ≡ and_sorted (sorted_view self.old) word.entry.now) }
    {
        if let Some(name) = self.waiting {
            self.given.push((name, word))?;
            self.waiting = None;
            return Ok(());
        }
        match option_in(word) {
            None => self.others.push(word)?,
            Some((name, Some(value))) => self.given.push((name, value))?,
            Some((name, None)) => self.waiting = Some(name),
        }
        Ok(())
    }
}

/// Sorts the words behind a command's name. Err: no memory was left.
pub(crate) fn sort<'a>(alloc: Global, words: &[&'a str]) -> Result<Sorted<'a>, AllocError>
    ensures { IfOk result (λ s. sorted_view s ≡ fold and_sorted none_sorted (texts words.now)) }
{
    let mut sorted = Sorted {
        others: Vec::new(alloc),
        given: Vec::new(alloc),
        waiting: None,
    };
    for word in words {
        sorted.put(word)?;
    }
    Ok(sorted)
}

// A word as an option: the name and the value of `--name=value`, the name alone of `--name`.
fn option_in(word: &str) -> Option<(&str, Option<&str>)>
    ensures { option_map (λ p. (p.0.now, option_map (λ s. s.now) p.1)) result ≡ option_in word.now }
{
    let name = behind_dash(behind_dash(word)?)?;
    if name.is_empty() {
        return None;
    }
    Some(split_value(name))
}

// What follows a first hyphen.
fn behind_dash(word: &str) -> Option<&str>
    ensures { option_map (λ s. s.now) result ≡ strip_byte 45 word.now }
{
    word.strip_prefix('-')
}

// What stands before the first `=`, and what stands behind it where there is one.
fn split_value(text: &str) -> (&str, Option<&str>)
    ensures { (result.0.now, option_map (λ s. s.now) result.1) ≡ name_and_value text.now }
{
    match text.split_once('=') {
        Some((name, value)) => (name, Some(value)),
        None => (text, None),
    }
}
