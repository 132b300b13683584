//! The lines of a generated program.
ghost use Rattle.std.specs.Prelude.{◌≡◌, ◌++◌, OnOk};
ghost use Rattle.big_programs.specs.Generated as spec;

use crate::choices::Call;
use edge_io::Text;
use std::alloc::{AllocError, Global};

/// Appends the include and the globals.
pub(crate) fn append_opening(text: &mut Text) -> Result<(), AllocError>
    ensures { OnOk result (text.new ≡ text.old ++ spec.opening_lines) }
{
    text.append(b"#include <stdio.h>\nint g0;\nint g1;\nint g2;\nint g3;\n")
}

/// Appends the line on which a function begins.
pub(crate) fn append_head(alloc: Global, number: u32, text: &mut Text) -> Result<(), AllocError>
    ensures { OnOk result (text.new ≡ text.old ++ spec.head_line number) }
{
    let line = format!(in alloc; "int f{number}(int a, int b) {{\n")?;
    text.append(line.as_bytes())?;
    Ok(())
}

/// Appends the declaration of the local.
pub(crate) fn append_local(alloc: Global, added: u32, text: &mut Text) -> Result<(), AllocError>
    ensures { OnOk result (text.new ≡ text.old ++ spec.local_line added) }
{
    let line = format!(in alloc; "    int t = a + {added};\n")?;
    text.append(line.as_bytes())?;
    Ok(())
}

/// Appends the assignment of the local to a global.
pub(crate) fn append_store(alloc: Global, stored: u32, text: &mut Text) -> Result<(), AllocError>
    ensures { OnOk result (text.new ≡ text.old ++ spec.store_line stored) }
{
    let line = format!(in alloc; "    g{stored} = t;\n")?;
    text.append(line.as_bytes())?;
    Ok(())
}

fn append_made_call(alloc: Global, call: Call, text: &mut Text) -> Result<(), AllocError>
    ensures { OnOk result (text.new ≡ text.old ++ spec.made_call_line call) }
{
    let function = call.function;
    let global = call.global;
    let line = format!(in alloc; "    t = f{function}(t, g{global});\n")?;
    text.append(line.as_bytes())?;
    Ok(())
}

/// Appends the call of an earlier function, where there is one.
pub(crate) fn append_call(
    alloc: Global,
    call: Option<Call>,
    text: &mut Text,
) -> Result<(), AllocError>
    ensures { OnOk result (text.new ≡ text.old ++ spec.call_line call) }
{
    match call {
        Some(made) => append_made_call(alloc, made, text),
        None => Ok(()),
    }
}

/// Appends the addition of a global to the second parameter.
pub(crate) fn append_sum(alloc: Global, summed: u32, text: &mut Text) -> Result<(), AllocError>
    ensures { OnOk result (text.new ≡ text.old ++ spec.sum_line summed) }
{
    let line = format!(in alloc; "    b = b + g{summed};\n")?;
    text.append(line.as_bytes())?;
    Ok(())
}

/// Appends the return of the local, or else of the second parameter.
pub(crate) fn append_return(returns_local: bool, text: &mut Text) -> Result<(), AllocError>
    ensures { OnOk result (text.new ≡ text.old ++ spec.return_line returns_local) }
{
    if returns_local {
        text.append(b"    return t;\n")
    } else {
        text.append(b"    return b;\n")
    }
}

/// Appends the line on which a function ends.
pub(crate) fn append_end(text: &mut Text) -> Result<(), AllocError>
    ensures { OnOk result (text.new ≡ text.old ++ spec.end_line) }
{
    text.append(b"}\n")
}

/// Appends the declaration of what the last of so many functions gives.
pub(crate) fn append_result(alloc: Global, size: u32, text: &mut Text) -> Result<(), AllocError>
    ensures { OnOk result (text.new ≡ text.old ++ spec.result_line size) }
{
    let line = format!(in alloc; "    int r = f{size}(1, 2);\n")?;
    text.append(line.as_bytes())?;
    Ok(())
}

/// Appends `main`, which calls the last of so many functions.
pub(crate) fn append_main(alloc: Global, size: u32, text: &mut Text) -> Result<(), AllocError>
    ensures { OnOk result (text.new ≡ text.old ++ spec.main_lines size) }
{
    text.append(b"int main(void) {\n")?;
    append_result(alloc, size, text)?;
    text.append(b"    printf(\"%d\\n\", r);\n")?;
    append_end(text)?;
    Ok(())
}
