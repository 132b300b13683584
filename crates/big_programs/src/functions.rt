//! The functions of a generated program.
ghost use Rattle.std.specs.Prelude.{◌≡◌, ◌++◌, OnOk};
ghost use Rattle.big_programs.specs.Generated as spec;

use crate::choices::Choices;
use crate::generator::Generator;
use crate::lines::{
    append_call, append_end, append_head, append_local, append_return, append_store, append_sum,
};
use edge_io::Text;
use std::alloc::{AllocError, Global};

// Appends the function with this number.
fn append_function(
    alloc: Global,
    number: u32,
    choices: Choices,
    text: &mut Text,
) -> Result<(), AllocError>
    ensures { OnOk result (text.new ≡ text.old ++ spec.function_lines number choices) }
{
    append_head(alloc, number, text)?;
    append_local(alloc, choices.added, text)?;
    append_store(alloc, choices.stored, text)?;
    append_call(alloc, choices.call, text)?;
    append_sum(alloc, choices.summed, text)?;
    append_return(choices.returns_local, text)?;
    append_end(text)?;
    Ok(())
}

/// Appends so many functions, each as it is drawn.
pub(crate) fn append_functions(
    alloc: Global,
    generator: &mut Generator,
    size: u32,
    text: &mut Text,
) -> Result<(), AllocError>
    ensures { OnOk result (text.new ≡ text.old ++ spec.first_functions generator.old.state size) }
{
    for earlier in 0..size {
        let choices = Choices::draw(generator, earlier);
        append_function(alloc, earlier + 1, choices, text)?;
    }
    Ok(())
}
