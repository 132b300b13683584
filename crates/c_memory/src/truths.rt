//! Values as tests see them: `&&`, `||` and `?:` go on by these (ISO C99 6.5.13 to 6.5.15).
ghost use Rattle.std.specs.Prelude.{◌≡◌};
ghost use Rattle.c_memory.specs.Truths as spec;

use crate::values::tested;
use c_meaning::Value;

/// Whether there is a value, and it isn't 0 or null.
pub(crate) fn is_met(test: &Option<Value>) -> bool
    ensures { result ≡ spec.is_met test.now }
{
    match test {
        Some(value) => tested(value) != 0,
        None => false,
    }
}

/// Whether there is a value, and it is 0 or null.
pub(crate) fn is_unmet(test: &Option<Value>) -> bool
    ensures { result ≡ spec.is_unmet test.now }
{
    match test {
        Some(value) => tested(value) == 0,
        None => false,
    }
}

/// 1 for a value that is neither 0 nor null, and else 0; None where there is no value.
pub(crate) fn truth_of(test: &Option<Value>) -> Option<Value>
    ensures { result ≡ spec.truth_of test.now }
{
    match test {
        Some(value) => Some(Value::Number(if tested(value) == 0 { 0 } else { 1 })),
        None => None,
    }
}

/// A number, where there is a value.
pub(crate) fn number_if(number: i128, test: &Option<Value>) -> Option<Value>
    ensures { result ≡ spec.number_if number test.now }
{
    match test {
        Some(_) => Some(Value::Number(number)),
        None => None,
    }
}
