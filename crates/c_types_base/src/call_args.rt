//! What a call of a library function is given.
ghost use Rattle.std.specs.Prelude.{◌≡◌, option_copied};
ghost use Rattle.c_language.specs.CallRules as rules;

use c_tree::{RawArg, RawExpr, Text};

/// The one argument of a call, where there is one.
pub fn only_arg(args: &[RawArg]) -> Option<&RawExpr>
    ensures { option_copied result ≡ rules.only_arg args.now }
{
    match args {
        [RawArg::Value(value)] => Some(value),
        _ => None,
    }
}

/// The first argument, where it is a string literal.
pub fn format_in(args: &[RawArg]) -> Option<&Text>
    ensures { option_copied result ≡ rules.format_in args.now }
{
    match args {
        [RawArg::Literal(text), ..] => Some(text),
        _ => None,
    }
}

/// The arguments behind the first one, of which there need be none.
pub fn later_args(args: &[RawArg]) -> &[RawArg]
    ensures { result.now ≡ rules.later_args args.now }
{
    match args.split_first() {
        None => args,
        Some((_, later)) => later,
    }
}
