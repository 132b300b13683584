//! The integer types, their values and their conversions.
ghost use Rattle.std.specs.Prelude.{◌≡◌, ◌≤◌, ◌^◌, ◌↔◌, pos, IsTrue};
ghost use Rattle.c_arith.specs.IntType.{width, is_signed, least, greatest, LiesIn, lies_in, IsCongruent, convert, promote, wider, common};

/// An integer type (ISO C99 6.2.5), with `char` signed.
#[derive(Clone, Copy, Debug, PartialEq, Eq)]
pub enum IntType {
    /// `char` and `signed char`, 8 bits.
    Char,
    /// `unsigned char`, 8 bits.
    UChar,
    /// `short`, 16 bits.
    Short,
    /// `unsigned short`, 16 bits.
    UShort,
    /// `int`, 32 bits.
    Int,
    /// `unsigned int`, 32 bits.
    UInt,
    /// `long`, 64 bits.
    Long,
    /// `unsigned long`, 64 bits.
    ULong,
}

/// How many bits a value of the type has, the sign bit among them (ISO C99 6.2.6.2).
pub(crate) fn width(t: IntType) -> u32
    ensures { result ≡ width t }
{
    match t {
        IntType::Char | IntType::UChar => 8,
        IntType::Short | IntType::UShort => 16,
        IntType::Int | IntType::UInt => 32,
        IntType::Long | IntType::ULong => 64,
    }
}

/// Whether the type has negative values (ISO C99 6.2.5).
pub(crate) fn is_signed(t: IntType) -> bool
    ensures { result ≡ is_signed t }
{
    match t {
        IntType::Char | IntType::Short | IntType::Int | IntType::Long => true,
        IntType::UChar | IntType::UShort | IntType::UInt | IntType::ULong => false,
    }
}

/// 2 to the width, which a conversion wraps by.
pub(crate) fn modulus(t: IntType) -> i128
    ensures { result ≡ pos (2 ^ width t) }
{
    1 << width(t)
}

/// The least value of the type (ISO C99 5.2.4.2.1).
pub fn least(t: IntType) -> i128
    ensures { result ≡ least t }
{
    if is_signed(t) { -(modulus(t) / 2) } else { 0 }
}

/// The greatest value of the type (ISO C99 5.2.4.2.1).
pub fn greatest(t: IntType) -> i128
    ensures { result ≡ greatest t }
{
    least(t) + (modulus(t) - 1)
}

/// The type after the integer promotions (ISO C99 6.3.1.1): what is narrower than `int` becomes
/// `int`.
pub fn promote(t: IntType) -> IntType
    ensures value { result ≡ promote t }
    ensures at_least_as_wide { width t ≤ width result }
{
    if width(t) < 32 { IntType::Int } else { t }
}

/// The wider of two types, and of two of one width the unsigned one.
fn wider(a: IntType, b: IntType) -> IntType
    ensures { result ≡ wider a b }
{
    if width(a) < width(b) {
        b
    } else if width(b) < width(a) {
        a
    } else if is_signed(a) {
        b
    } else {
        a
    }
}

/// The type that two operands are converted to by the usual arithmetic conversions
/// (ISO C99 6.3.1.8): after promotion the wider, and of two of one width the unsigned one.
pub fn common(a: IntType, b: IntType) -> IntType
    ensures value { result ≡ common a b }
    ensures as_wide_as_left { width a ≤ width result }
    ensures as_wide_as_right { width b ≤ width result }
{
    wider(promote(a), promote(b))
}

/// Whether the number is a value of the type.
pub fn lies_in(t: IntType, v: i128) -> bool
    ensures value { result ≡ lies_in t v }
    ensures fact { IsTrue result ↔ LiesIn t v }
{
    least(t) <= v && v <= greatest(t)
}

/// The number converted to the type (ISO C99 6.3.1.3): the value of the type that differs from it
/// by a multiple of 2 to the width.
pub fn convert(v: i128, to: IntType) -> i128
    ensures value { result ≡ convert v to }
    ensures in_type { LiesIn to result }
    ensures congruent { IsCongruent (2 ^ width to) result v }
    ensures unchanged { LiesIn to v → result ≡ v }
{
    if lies_in(to, v) {
        return v;
    }
    let residue = v.rem_euclid(modulus(to));
    if residue <= greatest(to) {
        residue
    } else {
        residue - modulus(to)
    }
}
