//! The conversions of a format of `printf` (ISO C99 7.19.6.1).
ghost use Rattle.std.specs.Prelude.{◌≡◌, ◌∷◌, IfOk, map, option_map};
ghost use Rattle.c_language.specs.Formats as spec;
ghost use Rattle.c_language.specs.Words.{Bytes};
ghost use Rattle.c_types_checks.specs.Conversions.{conversion_of, behind_of, converted, converted_after, converted_from};

use sqlite_items::Items;
use std::alloc::{AllocError, Global};

/// How an argument is written: `%d`, `%u`, `%x`, or with an `l` for 64 bits, and `%c`.
#[derive(Clone, Copy, Debug, PartialEq, Eq)]
pub enum Conversion {
    /// `%d`, or `%ld`
    SignedDecimal { is_long: bool },
    /// `%u`, or `%lu`
    UnsignedDecimal { is_long: bool },
    /// `%x`, or `%lx`
    Hexadecimal { is_long: bool },
    /// `%c`
    Character,
}

/// Where in a format a byte stands.
#[derive(Clone, Copy, Debug, PartialEq, Eq)]
enum Behind {
    Nothing,
    Percent,
    Long,
}

/// What a byte of a format does.
enum Step {
    /// It is written, or begins a conversion: this is where the next byte stands.
    Passes(Behind),
    /// It ends a conversion.
    Converts(Conversion),
    /// It makes no conversion.
    Fails,
}

fn bits(is_long: bool) -> u32
    ensures { result ≡ spec.bits is_long }
{
    if is_long { 64 } else { 32 }
}

/// How many bits the promoted argument of a conversion has.
pub fn width_of(conversion: Conversion) -> u32
    ensures { result ≡ spec.conversion_width (conversion_of conversion) }
{
    match conversion {
        Conversion::SignedDecimal { is_long } => bits(is_long),
        Conversion::UnsignedDecimal { is_long } => bits(is_long),
        Conversion::Hexadecimal { is_long } => bits(is_long),
        Conversion::Character => 32,
    }
}

/// The conversion of a letter.
fn of_letter(is_long: bool, letter: u8) -> Option<Conversion>
    ensures { option_map conversion_of result ≡ spec.conversion_of is_long letter }
{
    match letter {
        b'd' => Some(Conversion::SignedDecimal { is_long }),
        b'u' => Some(Conversion::UnsignedDecimal { is_long }),
        b'x' => Some(Conversion::Hexadecimal { is_long }),
        b'c' if !is_long => Some(Conversion::Character),
        _ => None,
    }
}

/// What a byte does that follows a percent sign.
fn after_percent(byte: u8) -> Step
    ensures { (rest : Bytes) → converted_after result rest ≡ converted_from spec.Percent (byte ∷ rest) }
{
    if byte == b'%' {
        return Step::Passes(Behind::Nothing);
    }
    if byte == b'l' {
        return Step::Passes(Behind::Long);
    }
    match of_letter(false, byte) {
        Some(conversion) => Step::Converts(conversion),
        None => Step::Fails,
    }
}

/// What a byte does that follows `%l`.
fn after_long(byte: u8) -> Step
    ensures { (rest : Bytes) → converted_after result rest ≡ converted_from spec.Long (byte ∷ rest) }
{
    match of_letter(true, byte) {
        Some(conversion) => Step::Converts(conversion),
        None => Step::Fails,
    }
}

/// What a byte does.
fn step_of(behind: Behind, byte: u8) -> Step
    ensures { (rest : Bytes) → converted_after result rest ≡ converted_from (behind_of behind) (byte ∷ rest) }
{
    match behind {
        Behind::Nothing => {
            if byte == b'%' {
                Step::Passes(Behind::Percent)
            } else {
                Step::Passes(Behind::Nothing)
            }
        }
        Behind::Percent => after_percent(byte),
        Behind::Long => after_long(byte),
    }
}

/// The conversions of a format. Ok with None: it has another one than these. Err: no memory was left.
pub fn conversions_of(alloc: Global, format: &[u8]) -> Result<Option<Items<Conversion>>, AllocError>
    ensures { IfOk result (λ found. option_map (map conversion_of) found ≡ converted format.now) }
{
    let mut found = Items::new(alloc);
    let mut behind = Behind::Nothing;
    for byte in format {
        match step_of(behind, *byte) {
            Step::Fails => return Ok(None),
            Step::Passes(next) => behind = next,
            Step::Converts(conversion) => {
                found.push(conversion)?;
                behind = Behind::Nothing;
            }
        }
    }
    if behind == Behind::Nothing {
        Ok(Some(found))
    } else {
        Ok(None)
    }
}
