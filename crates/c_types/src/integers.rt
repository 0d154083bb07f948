//! The integer types, their widths, their ranks and their conversions.

ghost use Rattle.std.specs.Prelude.{◌≡◌, ◌≤◌, true};
ghost use Rattle.c_types.specs.Integers.{width, is_signed, rank, unsigned_of, bytes, promoted, mixed_type, common_type};

/// An integer type (C11 6.2.5p4 to p6, p15). An enumerated type is `Int`.
#[derive(Clone, Copy, PartialEq, Eq)]
pub enum IntegerType {
    Bool,
    /// Plain `char`, which is signed.
    Char,
    SignedChar,
    UnsignedChar,
    Short,
    UnsignedShort,
    Int,
    UnsignedInt,
    Long,
    UnsignedLong,
    LongLong,
    UnsignedLongLong,
}

impl IntegerType {
    /// How many bits an object of the type has.
    pub fn width(self) -> u32
        ensures is { result ≡ width self }
        ensures positive { 1 ≤ result }
        ensures at_most_64 { result ≤ 64 }
    {
        match self {
            IntegerType::Bool
            | IntegerType::Char
            | IntegerType::SignedChar
            | IntegerType::UnsignedChar => 8,
            IntegerType::Short | IntegerType::UnsignedShort => 16,
            IntegerType::Int | IntegerType::UnsignedInt => 32,
            IntegerType::Long
            | IntegerType::UnsignedLong
            | IntegerType::LongLong
            | IntegerType::UnsignedLongLong => 64,
        }
    }

    /// How many bytes an object of the type has; its alignment too.
    pub fn size(self) -> u32
        ensures is { result ≡ bytes self }
        ensures positive { 1 ≤ result }
        ensures at_most_8 { result ≤ 8 }
    {
        match self {
            IntegerType::Bool
            | IntegerType::Char
            | IntegerType::SignedChar
            | IntegerType::UnsignedChar => 1,
            IntegerType::Short | IntegerType::UnsignedShort => 2,
            IntegerType::Int | IntegerType::UnsignedInt => 4,
            IntegerType::Long
            | IntegerType::UnsignedLong
            | IntegerType::LongLong
            | IntegerType::UnsignedLongLong => 8,
        }
    }

    /// Whether the type is signed.
    pub fn is_signed(self) -> bool
        ensures { result ≡ is_signed self }
    {
        match self {
            IntegerType::Char
            | IntegerType::SignedChar
            | IntegerType::Short
            | IntegerType::Int
            | IntegerType::Long
            | IntegerType::LongLong => true,
            IntegerType::Bool
            | IntegerType::UnsignedChar
            | IntegerType::UnsignedShort
            | IntegerType::UnsignedInt
            | IntegerType::UnsignedLong
            | IntegerType::UnsignedLongLong => false,
        }
    }

    // The conversion rank (C11 6.3.1.1p1).
    fn rank(self) -> u32
        ensures { result ≡ rank self }
    {
        match self {
            IntegerType::Bool => 0,
            IntegerType::Char | IntegerType::SignedChar | IntegerType::UnsignedChar => 1,
            IntegerType::Short | IntegerType::UnsignedShort => 2,
            IntegerType::Int | IntegerType::UnsignedInt => 3,
            IntegerType::Long | IntegerType::UnsignedLong => 4,
            IntegerType::LongLong | IntegerType::UnsignedLongLong => 5,
        }
    }

    // The unsigned type of the same rank.
    fn unsigned(self) -> IntegerType
        ensures { result ≡ unsigned_of self }
    {
        match self {
            IntegerType::Bool => IntegerType::Bool,
            IntegerType::Char | IntegerType::SignedChar | IntegerType::UnsignedChar => {
                IntegerType::UnsignedChar
            }
            IntegerType::Short | IntegerType::UnsignedShort => IntegerType::UnsignedShort,
            IntegerType::Int | IntegerType::UnsignedInt => IntegerType::UnsignedInt,
            IntegerType::Long | IntegerType::UnsignedLong => IntegerType::UnsignedLong,
            IntegerType::LongLong | IntegerType::UnsignedLongLong => IntegerType::UnsignedLongLong,
        }
    }
}

/// The type to which the integer promotions convert (C11 6.3.1.1p2). `int` holds each value of a type of
/// lower rank.
pub fn promote(type_: IntegerType) -> IntegerType
    ensures { result ≡ promoted type_ }
{
    if type_.rank() < IntegerType::Int.rank() {
        IntegerType::Int
    } else {
        type_
    }
}

// The common type of an unsigned type and a signed one, both promoted.
fn mixed(unsigned: IntegerType, signed: IntegerType) -> IntegerType
    ensures { result ≡ mixed_type unsigned signed }
{
    if signed.rank() <= unsigned.rank() {
        unsigned
    } else if unsigned.width() < signed.width() {
        signed
    } else {
        signed.unsigned()
    }
}

/// The type to which the usual arithmetic conversions convert both operands (C11 6.3.1.8p1).
pub fn common(left: IntegerType, right: IntegerType) -> IntegerType
    ensures { result ≡ common_type left right }
{
    let a = promote(left);
    let b = promote(right);
    if a.is_signed() == b.is_signed() {
        if a.rank() < b.rank() { b } else { a }
    } else if a.is_signed() {
        mixed(b, a)
    } else {
        mixed(a, b)
    }
}
