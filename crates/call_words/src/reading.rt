//! Words that are read by `clap`: the other words of a call and the values of its options.
ghost use Rattle.std.specs.Prelude.{◌≡◌, IfOk, IfErr, true};
ghost use Rattle.clap.specs.Values.{kind_of};
ghost use Rattle.call_words.specs.Sorting.{sorted};
ghost use Rattle.call_words.specs.Grammar.{IsInForm};
ghost use Rattle.call_words.specs.Clap.{HasMatches, IsCommandFor, is_apart};
ghost use Rattle.call_words.specs.Forms.{texts, view};

use crate::grammar::Form;
use clap::error::ErrorKind;
use clap::{Arg, ArgAction, ArgMatches, Command, Error};
use std::alloc::{AllocError, Global};

/// What `clap` finds in words in the form of a row. Err: no memory was left.
pub(crate) fn read<'a>(
    alloc: Global,
    form: &Form,
    words: &'a [&'a str],
) -> Result<ArgMatches<'a>, Error>
    requires form { IsInForm (view form.now) (texts words.now) }
    requires apart { is_apart (view form.now) ≡ true }
    ensures found { IfOk result (λ m. HasMatches (view form.now) (sorted (texts words.entry.now)) m) }
    ensures no_memory { IfErr result (λ e. kind_of e ≡ ErrorKind.OutOfMemory) }
{
    let command = command_for(alloc, form)?;
    command.try_get_matches_from(words)
}

// The command of a row: all other words are values of one argument, and each option is an argument of its own.
fn command_for<'a>(alloc: Global, form: &Form) -> Result<Command<'a>, AllocError>
    ensures { IfOk result (λ command. IsCommandFor (view form.now) command) }
{
    let words = Arg::new(alloc, "words").action(ArgAction::Append);
    let mut command = Command::new(alloc, form.name)
        .disable_help_flag(true)
        .arg(words)?;
    for option in form.options {
        let argument = Arg::new(alloc, option.name).long(option.name);
        command = command.arg(argument)?;
    }
    Ok(command)
}
