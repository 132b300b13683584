//! What is drawn for a function of a generated program.
ghost use Rattle.std.specs.Prelude.{◌≡◌};
ghost use Rattle.big_programs.specs.Draws as spec;

use crate::generator::Generator;

/// How many globals there are.
const GLOBALS: u32 = 4;

/// A call of an earlier function.
#[derive(Debug, Clone, Copy, Drop)]
pub struct Call {
    /// The number of the function that is called, from 1.
    pub function: u32,
    /// The number of the global that is its second argument.
    pub global: u32,
}

/// What a function of the program does, as it is drawn.
#[derive(Debug, Clone, Copy, Drop)]
pub struct Choices {
    /// The constant that is added to its first parameter.
    pub added: u32,
    /// The number of the global in which the sum is stored.
    pub stored: u32,
    /// The call of an earlier function; the first function has none.
    pub call: Option<Call>,
    /// The number of the global that is added to its second parameter.
    pub summed: u32,
    /// Whether it returns its local, and not its second parameter.
    pub returns_local: bool,
}

// The call of one of so many earlier functions.
fn draw_call(generator: &mut Generator, earlier: u32) -> Option<Call>
    ensures call { result ≡ spec.call_drawn earlier generator.old.state }
    ensures state { generator.new.state ≡ spec.after_call earlier generator.old.state }
{
    if earlier == 0 {
        return None;
    }
    let function = 1 + generator.draw(earlier);
    let global = generator.draw(GLOBALS);
    Some(Call { function, global })
}

impl Choices {
    /// Draws what a function does that stands behind so many others.
    pub(crate) fn draw(generator: &mut Generator, earlier: u32) -> Choices
        ensures choices { result ≡ spec.choices_drawn earlier generator.old.state }
        ensures state { generator.new.state ≡ spec.after_choices earlier generator.old.state }
    {
        let added = generator.draw(10);
        let stored = generator.draw(GLOBALS);
        let call = draw_call(generator, earlier);
        let summed = generator.draw(GLOBALS);
        let returns_local = generator.draw(2) == 0;
        Choices {
            added,
            stored,
            call,
            summed,
            returns_local,
        }
    }
}
