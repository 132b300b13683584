//! What printf writes (ISO C99 7.19.6.1).
ghost use Rattle.std.specs.Prelude.{◌≡◌, ◌∷◌, [], map, option_map, false, unsigned_abs, IfOk};
ghost use Rattle.std.specs.Fmt.{signed_decimal, digits};
ghost use Rattle.c_arith.specs.IntType.{convert as convert_to, LiesIn};
ghost use Rattle.c_arith.specs.declared.int_type.IntType.TheVariants.{UChar, ULong};
ghost use Rattle.c_language.specs.Constants as constants;
ghost use Rattle.c_language.specs.Formats as language;
ghost use Rattle.c_language.specs.Words.{Bytes};
ghost use Rattle.c_meaning.specs.Formats as spec;
ghost use Rattle.c_meaning.specs.Values.{tested as tested_value};
ghost use Rattle.c_acts.specs.Formats.{conversion_of, piece_of, behind_of, pieces_in, after_step, shown_numbers};

use c_arith::{IntType, convert};
use c_meaning::{Shown, ShownList, Value};
use c_memory::tested;
use c_tree::Items;
use c_types_base::literal::escape_value;
use std::alloc::{AllocError, Global};

/// What a call of printf writes, and the values that its event shows.
pub(crate) struct Printed {
    /// The arguments as they are converted.
    pub(crate) values: ShownList,
    /// The bytes.
    pub(crate) output: Vec<u8>,
}

// How an argument is written: `%d`, `%u`, `%x`, or with an `l` for 64 bits, and `%c`.
#[derive(Clone, Copy, Debug, PartialEq, Eq)]
enum Conversion {
    SignedDecimal(bool),
    UnsignedDecimal(bool),
    Hexadecimal(bool),
    Character,
}

// A byte that is written as it is, or a conversion.
#[derive(Clone, Copy, Debug, PartialEq, Eq)]
enum Piece {
    Plain(u8),
    Converts(Conversion),
}

// Where in a format a byte stands.
#[derive(Clone, Copy, Debug, PartialEq, Eq)]
enum Behind {
    Nothing,
    Percent,
    Long,
}

// What a byte of a format does: it goes on, is written, ends a conversion, or makes none.
enum Step {
    Passes(Behind),
    Gives(Piece),
    Fails,
}

/// What a format writes with some values, by its spelling with its quotes. Err: no memory was left.
pub(crate) fn print(alloc: Global, format: &[u8], given: &[Value]) -> Result<Printed, AllocError>
    ensures values { IfOk result (λ r. r.values ≡ shown_numbers (spec.converted (spec.pieces_of format.now) (map tested_value given.now))) }
    ensures output { IfOk result (λ r. r.output.items ≡ spec.written (spec.pieces_of format.now) (spec.converted (spec.pieces_of format.now) (map tested_value given.now))) }
{
    let pieces = known_pieces(alloc, format)?;
    let numbers = converted(alloc, pieces.as_slice(), given)?;
    Ok(Printed {
        values: shown(alloc, numbers.as_slice())?,
        output: written(alloc, pieces.as_slice(), given)?,
    })
}

// ---- the pieces of a format

// The pieces of a format by its spelling, none where it has another conversion than these.
fn known_pieces(alloc: Global, format: &[u8]) -> Result<Vec<Piece>, AllocError>
    ensures { IfOk result (λ pieces. pieces_in pieces ≡ spec.pieces_of format.now) }
{
    let bytes = literal_bytes(alloc, format)?;
    match pieces_of(alloc, bytes.as_slice())? {
        Some(pieces) => Ok(pieces),
        None => Ok(Vec::new(alloc)),
    }
}

// The bytes that a spelling without its quotes stands for.
#[tactic(auto, unfolding(c_language::specs::Constants::unescaped))]
fn unescaped(alloc: Global, inside: &[u8]) -> Result<Vec<u8>, AllocError>
    ensures { IfOk result (λ bytes. bytes.items ≡ constants.unescaped false inside.now) }
{
    let mut bytes = Vec::new(alloc);
    let mut is_behind = false;
    for byte in inside {
        if is_behind {
            bytes.push(escape_value(*byte))?;
            is_behind = false;
        } else if *byte == b'\\' {
            is_behind = true;
        } else {
            bytes.push(*byte)?;
        }
    }
    Ok(bytes)
}

// The bytes of a string literal, without the null byte at its end.
fn literal_bytes(alloc: Global, text: &[u8]) -> Result<Vec<u8>, AllocError>
    ensures { IfOk result (λ bytes. bytes.items ≡ constants.literal_bytes text.now) }
{
    if text.len() < 2 {
        return Ok(Vec::new(alloc));
    }
    unescaped(alloc, &text[1..text.len() - 1])
}

// The conversion of a letter.
fn of_letter(is_long: bool, letter: u8) -> Option<Conversion>
    ensures { option_map conversion_of result ≡ language.conversion_of is_long letter }
{
    match letter {
        b'd' => Some(Conversion::SignedDecimal(is_long)),
        b'u' => Some(Conversion::UnsignedDecimal(is_long)),
        b'x' => Some(Conversion::Hexadecimal(is_long)),
        b'c' if !is_long => Some(Conversion::Character),
        _ => None,
    }
}

// What a letter does that ends a conversion.
fn by_letter(is_long: bool, letter: u8) -> Step
    ensures { (rest : Bytes) → after_step result rest ≡ language.converted_piece is_long letter (language.pieces_from language.Nothing rest) }
{
    match of_letter(is_long, letter) {
        Some(conversion) => Step::Gives(Piece::Converts(conversion)),
        None => Step::Fails,
    }
}

// What a byte does that follows a percent sign.
fn after_percent(byte: u8) -> Step
    ensures { (rest : Bytes) → after_step result rest ≡ language.pieces_from language.Percent (byte ∷ rest) }
{
    if byte == b'%' {
        return Step::Gives(Piece::Plain(b'%'));
    }
    if byte == b'l' {
        return Step::Passes(Behind::Long);
    }
    by_letter(false, byte)
}

// What a byte does.
fn step_of(behind: Behind, byte: u8) -> Step
    ensures { (rest : Bytes) → after_step result rest ≡ language.pieces_from (behind_of behind) (byte ∷ rest) }
{
    match behind {
        Behind::Nothing => {
            if byte == b'%' {
                Step::Passes(Behind::Percent)
            } else {
                Step::Gives(Piece::Plain(byte))
            }
        }
        Behind::Percent => after_percent(byte),
        Behind::Long => by_letter(true, byte),
    }
}

// The pieces of a format; None where it has another conversion than these.
fn pieces_of(alloc: Global, format: &[u8]) -> Result<Option<Vec<Piece>>, AllocError>
    ensures { IfOk result (λ o. option_map pieces_in o ≡ language.format_pieces format.now) }
{
    let mut pieces = Vec::new(alloc);
    let mut behind = Behind::Nothing;
    for byte in format {
        match step_of(behind, *byte) {
            Step::Fails => return Ok(None),
            Step::Passes(next) => behind = next,
            Step::Gives(piece) => {
                pieces.push(piece)?;
                behind = Behind::Nothing;
            }
        }
    }
    if behind == Behind::Nothing {
        Ok(Some(pieces))
    } else {
        Ok(None)
    }
}

// ---- what is written

// The type to which a conversion converts its argument.
fn conversion_type(conversion: Conversion) -> IntType
    ensures { result ≡ spec.conversion_type (conversion_of conversion) }
{
    match conversion {
        Conversion::SignedDecimal(false) => IntType::Int,
        Conversion::SignedDecimal(true) => IntType::Long,
        Conversion::UnsignedDecimal(false) => IntType::UInt,
        Conversion::UnsignedDecimal(true) => IntType::ULong,
        Conversion::Hexadecimal(false) => IntType::UInt,
        Conversion::Hexadecimal(true) => IntType::ULong,
        Conversion::Character => IntType::UChar,
    }
}

// An argument, converted to its conversion's type.
fn as_converted(conversion: Conversion, given: i128) -> i128
    ensures { result ≡ convert_to given (spec.conversion_type (conversion_of conversion)) }
{
    in_type(conversion, given)
}

// The same, a value of that type.
fn in_type(conversion: Conversion, given: i128) -> i128
    ensures value { result ≡ convert_to given (spec.conversion_type (conversion_of conversion)) }
    ensures in_type { LiesIn (spec.conversion_type (conversion_of conversion)) result }
{
    convert(given, conversion_type(conversion))
}

// The arguments, each converted to its conversion's type.
fn converted(alloc: Global, pieces: &[Piece], given: &[Value]) -> Result<Vec<i128>, AllocError>
    ensures { IfOk result (λ zs. zs.items ≡ spec.converted (map piece_of pieces.now) (map tested_value given.now)) }
{
    let mut numbers = Vec::new(alloc);
    let mut left = given;
    for piece in pieces {
        match piece {
            Piece::Plain(_) => (),
            Piece::Converts(conversion) => match left.split_first() {
                Some((first, behind)) => {
                    numbers.push(as_converted(*conversion, tested(first)))?;
                    left = behind;
                }
                None => return Ok(numbers),
            },
        }
    }
    Ok(numbers)
}

// Numbers as an event shows them.
fn shown(alloc: Global, numbers: &[i128]) -> Result<ShownList, AllocError>
    ensures { IfOk result (λ all. all ≡ shown_numbers numbers.now) }
{
    let mut all = Items::new(alloc);
    for number in numbers {
        all.push(Shown::Number(*number))?;
    }
    Ok(all)
}

// An argument as its conversion converts it, in its style.
fn styled(alloc: Global, conversion: Conversion, given: i128) -> Result<Vec<u8>, AllocError>
    ensures { IfOk result (λ bytes. bytes.items ≡ spec.styled (conversion_of conversion) (convert_to given (spec.conversion_type (conversion_of conversion)))) }
{
    let number = in_type(conversion, given);
    match conversion {
        Conversion::SignedDecimal(_) => in_decimal(alloc, number),
        Conversion::UnsignedDecimal(_) => in_decimal(alloc, number),
        Conversion::Hexadecimal(_) => in_hexadecimal(alloc, number),
        Conversion::Character => as_byte(alloc, number),
    }
}

fn in_decimal(alloc: Global, number: i128) -> Result<Vec<u8>, AllocError>
    ensures { IfOk result (λ bytes. bytes.items ≡ signed_decimal number) }
{
    Ok(format!(in alloc; "{number}")?.into_bytes())
}

// A number of type unsigned long in the digits of base 16.
fn in_hexadecimal(alloc: Global, number: i128) -> Result<Vec<u8>, AllocError>
    requires { LiesIn ULong number }
    ensures { IfOk result (λ bytes. bytes.items ≡ digits 16 false (unsigned_abs number)) }
{
    let magnitude = number as u64;
    Ok(format!(in alloc; "{magnitude:x}")?.into_bytes())
}

/// A number of type unsigned char as a byte. Err: no memory was left.
pub(crate) fn as_byte(alloc: Global, number: i128) -> Result<Vec<u8>, AllocError>
    requires { LiesIn UChar number }
    ensures { IfOk result (λ bytes. bytes.items ≡ unsigned_abs number ∷ []) }
{
    Vec::from_slice(alloc, &[number as u8])
}

// What a format writes with its arguments.
fn written(alloc: Global, pieces: &[Piece], given: &[Value]) -> Result<Vec<u8>, AllocError>
    ensures { IfOk result (λ bytes. bytes.items ≡ spec.written (map piece_of pieces.now) (spec.converted (map piece_of pieces.now) (map tested_value given.now))) }
{
    let mut output = Vec::new(alloc);
    let mut left = given;
    for piece in pieces {
        match piece {
            Piece::Plain(byte) => output.push(*byte)?,
            Piece::Converts(conversion) => match left.split_first() {
                Some((first, behind)) => {
                    let text = styled(alloc, *conversion, tested(first))?;
                    output.extend_from_slice(text.as_slice())?;
                    left = behind;
                }
                None => return Ok(output),
            },
        }
    }
    Ok(output)
}
