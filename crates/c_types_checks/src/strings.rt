//! The bytes of string literals (ISO C99 6.4.5).
ghost use Rattle.std.specs.Prelude.{◌≡◌, ◌==◌, ℕ, false, IfOk};
ghost use Rattle.std.specs.List.{list_any};
ghost use Rattle.c_language.specs.Constants as spec;

use c_types_base::literal::escape_value;
use std::alloc::{AllocError, Global};

/// The bytes that a spelling without its quotes stands for. Err: no memory was left.
#[tactic(auto, unfolding(c_language::specs::Constants::unescaped))]
fn unescaped(alloc: Global, inside: &[u8]) -> Result<Vec<u8>, AllocError>
    ensures { IfOk result (λ bytes. bytes.items ≡ spec.unescaped false inside.now) }
{
    let mut bytes = Vec::new(alloc);
    let mut is_behind = false;
    for byte in inside {
        if is_behind {
            bytes.push(escape_value(*byte))?;
            is_behind = false;
        } else if *byte == b'\\' {
            is_behind = true;
        } else {
            bytes.push(*byte)?;
        }
    }
    Ok(bytes)
}

/// The bytes of a string literal, without the null byte at its end. Err: no memory was left.
pub fn literal_bytes(alloc: Global, text: &[u8]) -> Result<Vec<u8>, AllocError>
    ensures { IfOk result (λ bytes. bytes.items ≡ spec.literal_bytes text.now) }
{
    if text.len() < 2 {
        return Ok(Vec::new(alloc));
    }
    unescaped(alloc, &text[1..text.len() - 1])
}

/// Whether one of some bytes is null.
pub fn has_null(bytes: &[u8]) -> bool
    ensures { result ≡ list_any (λ (b : ℕ). b == 0) bytes.now }
{
    bytes.iter().any(|byte| *byte == 0)
}
