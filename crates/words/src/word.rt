//! Words: bits of a width from 1 to 64, and operations on them.

ghost use Rattle.std.specs.Prelude.{◌≡◌, ℤ, ◌+◌, ◌-◌, ◌%◌, ◌^◌, ◌<◌, ◌≤◌, bit_and, bit_or, bit_xor, nat_lt};
ghost use Rattle.words.specs.BitVector.{IsWord, signed_value, word};
ghost use Rattle.words.specs.Operators.{
  wrapped,
  fits_width,
  word_sum,
  word_difference,
  word_product,
  word_negation,
  word_complement,
  left_shift,
  low_bits,
  unsigned_quotient,
  unsigned_remainder,
  logical_shift,
  signed_quotient,
  signed_remainder,
  arithmetic_shift,
  sign_extension,
  signed_lt,
  sum_fits,
  difference_fits,
  product_fits,
  left_shift_fits,
};

use std::marker::Model;

/// A machine word: a width from 1 to 64, and bits below 2 to the width.
/// An unsigned type reads the bits as they stand, a signed type as two's complement (C11 6.2.6.2).
/// Two operands of one operator have one width. No call takes memory.
#[derive(Clone, Copy, Debug, PartialEq, Eq, Hash)]
pub struct Word {
    bits: u64,
    width: u32,
}

impl Model for Word {
    ghost use Rattle.words.specs.BitVector.{BitVector, IsWord, word};

    ghost Value = { BitVector };

    ghost view = { λ w. word w.width w.bits };

    ghost invariant = { λ w. IsWord (word w.width w.bits) };

    ghost inverse = { λ v. record { bits = v.bits; width = v.width } };
}

impl Word {
    /// The word of this width with these bits.
    pub fn new(bits: u64, width: u32) -> Word
        requires positive { 1 ≤ width }
        requires at_most_64 { width ≤ 64 }
        requires within { bits < 2 ^ width }
        ensures value { result ≡ word width bits }
        ensures is_word { IsWord result }
    {
        Word { bits, width }
    }

    /// The bits as an unsigned number, below 2 to the width.
    pub fn bits(self) -> u64
        ensures value { result ≡ self.bits }
        ensures is_word { IsWord self }
    {
        self.bits
    }

    /// The number of bits, from 1 to 64.
    pub fn width(self) -> u32
        ensures value { result ≡ self.width }
        ensures is_word { IsWord self }
    {
        self.width
    }

    /// The bits as a number in two's complement, from -2 ^ (width - 1) to 2 ^ (width - 1) - 1.
    pub fn signed(self) -> i64
        ensures value { result ≡ signed_value self.width self.bits }
        ensures is_word { IsWord self }
    {
        if self.bits < half(self.width) {
            self.bits as i64
        } else {
            -1 - (mask(self.width) - self.bits) as i64
        }
    }

    /// The sum modulo 2 ^ width (C11 6.5.6p5).
    #[tactic(auto, using(crate::proofs::Bodies::low_bits_sum))]
    pub fn add(self, other: Word) -> Word
        requires { self.width ≡ other.width }
        ensures value { result ≡ word self.width (word_sum self.width self.bits other.bits) }
        ensures is_word { IsWord result }
    {
        lowest(self.bits.wrapping_add(other.bits), self.width)
    }

    /// The difference modulo 2 ^ width (C11 6.5.6p6).
    #[tactic(auto, using(crate::proofs::Bodies::low_bits_difference))]
    pub fn sub(self, other: Word) -> Word
        requires { self.width ≡ other.width }
        ensures value { result ≡ word self.width (word_difference self.width self.bits other.bits) }
        ensures is_word { IsWord result }
    {
        lowest(self.bits.wrapping_sub(other.bits), self.width)
    }

    /// The product modulo 2 ^ width (C11 6.5.5p4).
    #[tactic(auto, using(crate::proofs::Bodies::low_bits_product))]
    pub fn mul(self, other: Word) -> Word
        requires { self.width ≡ other.width }
        ensures value { result ≡ word self.width (word_product self.width self.bits other.bits) }
        ensures is_word { IsWord result }
    {
        lowest(self.bits.wrapping_mul(other.bits), self.width)
    }

    /// The quotient of unsigned numbers (C11 6.5.5p5).
    #[tactic(auto, unfolding(crate::specs::Operators::unsigned_quotient))]
    pub fn udiv(self, other: Word) -> Word
        requires same_width { self.width ≡ other.width }
        requires nonzero { 0 < other.bits }
        ensures value { result ≡ word self.width (unsigned_quotient self.bits other.bits) }
        ensures is_word { IsWord result }
    {
        Word {
            bits: self.bits / other.bits,
            width: self.width,
        }
    }

    /// The quotient of signed numbers, rounded toward zero (C11 6.5.5p6). The least value by -1 is
    /// the least value.
    pub fn sdiv(self, other: Word) -> Word
        requires same_width { self.width ≡ other.width }
        requires nonzero { 0 < other.bits }
        ensures value { result ≡ word self.width (signed_quotient self.width self.bits other.bits) }
        ensures is_word { IsWord result }
    {
        let dividend = self.signed();
        let divisor = other.signed();
        if divisor == -1 {
            self.neg()
        } else {
            from_signed(dividend / divisor, self.width)
        }
    }

    /// The remainder of unsigned numbers (C11 6.5.5p5).
    #[tactic(auto, unfolding(crate::specs::Operators::unsigned_remainder))]
    pub fn urem(self, other: Word) -> Word
        requires same_width { self.width ≡ other.width }
        requires nonzero { 0 < other.bits }
        ensures value { result ≡ word self.width (unsigned_remainder self.bits other.bits) }
        ensures is_word { IsWord result }
    {
        Word {
            bits: self.bits % other.bits,
            width: self.width,
        }
    }

    /// The remainder of signed numbers, with the sign of the dividend (C11 6.5.5p6). By -1 it is 0.
    pub fn srem(self, other: Word) -> Word
        requires same_width { self.width ≡ other.width }
        requires nonzero { 0 < other.bits }
        ensures value { result ≡ word self.width (signed_remainder self.width self.bits other.bits) }
        ensures is_word { IsWord result }
    {
        let dividend = self.signed();
        let divisor = other.signed();
        if divisor == -1 {
            Word {
                bits: 0,
                width: self.width,
            }
        } else {
            from_signed(dividend % divisor, self.width)
        }
    }

    /// The bits that are 1 in both (C11 6.5.10p4).
    pub fn and(self, other: Word) -> Word
        requires { self.width ≡ other.width }
        ensures value { result ≡ word self.width (bit_and self.bits other.bits) }
        ensures is_word { IsWord result }
    {
        Word {
            bits: self.bits & other.bits,
            width: self.width,
        }
    }

    /// The bits that are 1 in at least one (C11 6.5.12p4).
    #[tactic(auto, using(std::proofs::lemmas::Nat::or_lt))]
    pub fn or(self, other: Word) -> Word
        requires { self.width ≡ other.width }
        ensures value { result ≡ word self.width (bit_or self.bits other.bits) }
        ensures is_word { IsWord result }
    {
        Word {
            bits: self.bits | other.bits,
            width: self.width,
        }
    }

    /// The bits that are 1 in exactly one (C11 6.5.11p4).
    #[tactic(auto, using(std::proofs::lemmas::Nat::xor_lt))]
    pub fn xor(self, other: Word) -> Word
        requires { self.width ≡ other.width }
        ensures value { result ≡ word self.width (bit_xor self.bits other.bits) }
        ensures is_word { IsWord result }
    {
        Word {
            bits: self.bits ^ other.bits,
            width: self.width,
        }
    }

    /// The negation modulo 2 ^ width (C11 6.5.3.3p3).
    #[tactic(auto, using(crate::proofs::Bodies::low_bits_negation))]
    pub fn neg(self) -> Word
        ensures value { result ≡ word self.width (word_negation self.width self.bits) }
        ensures is_word { IsWord result }
    {
        lowest(0u64.wrapping_sub(self.bits), self.width)
    }

    /// Each bit turned over (C11 6.5.3.3p4).
    #[tactic(auto, unfolding(crate::specs::Operators::word_complement))]
    pub fn not(self) -> Word
        ensures value { result ≡ word self.width (word_complement self.width self.bits) }
        ensures is_word { IsWord result }
    {
        Word {
            bits: mask(self.width) - self.bits,
            width: self.width,
        }
    }

    /// The bits moved up by `count`, zeros coming in (C11 6.5.7p4).
    #[tactic(auto, using(crate::proofs::Bodies::low_bits_shift))]
    pub fn shl(self, count: u32) -> Word
        requires { count < self.width }
        ensures value { result ≡ word self.width (left_shift self.width self.bits count) }
        ensures is_word { IsWord result }
    {
        lowest(self.bits << count, self.width)
    }

    /// The bits moved down by `count`, zeros coming in: the right shift of an unsigned number (C11 6.5.7p5).
    #[tactic(auto, unfolding(crate::specs::Operators::logical_shift))]
    pub fn lshr(self, count: u32) -> Word
        requires { count < self.width }
        ensures value { result ≡ word self.width (logical_shift self.bits count) }
        ensures is_word { IsWord result }
    {
        Word {
            bits: self.bits >> count,
            width: self.width,
        }
    }

    /// The bits moved down by `count`, copies of the sign bit coming in: the right shift of a signed
    /// number, rounded down (C11 6.5.7p5).
    pub fn ashr(self, count: u32) -> Word
        requires { count < self.width }
        ensures value { result ≡ word self.width (arithmetic_shift self.width self.bits count) }
        ensures is_word { IsWord result }
    {
        from_signed(self.signed() >> count, self.width)
    }

    /// Whether this is less, as unsigned numbers (C11 6.5.8p6).
    pub fn ult(self, other: Word) -> bool
        requires { self.width ≡ other.width }
        ensures { result ≡ nat_lt self.bits other.bits }
    {
        self.bits < other.bits
    }

    /// Whether this is less, as signed numbers (C11 6.5.8p6).
    #[tactic(auto, unfolding(crate::specs::Operators::signed_lt))]
    pub fn slt(self, other: Word) -> bool
        requires { self.width ≡ other.width }
        ensures { result ≡ signed_lt self.width self.bits other.bits }
    {
        self.signed() < other.signed()
    }

    /// Whether the sum of the signed numbers is in range (C11 6.5p5).
    pub fn fits_add(self, other: Word) -> bool
        requires { self.width ≡ other.width }
        ensures { result ≡ sum_fits self.width self.bits other.bits }
    {
        match self.signed().checked_add(other.signed()) {
            Some(sum) => is_in_range(sum, self.width),
            None => false,
        }
    }

    /// Whether the difference of the signed numbers is in range (C11 6.5p5).
    pub fn fits_sub(self, other: Word) -> bool
        requires { self.width ≡ other.width }
        ensures { result ≡ difference_fits self.width self.bits other.bits }
    {
        match self.signed().checked_sub(other.signed()) {
            Some(difference) => is_in_range(difference, self.width),
            None => false,
        }
    }

    /// Whether the product of the signed numbers is in range (C11 6.5p5).
    pub fn fits_mul(self, other: Word) -> bool
        requires { self.width ≡ other.width }
        ensures { result ≡ product_fits self.width self.bits other.bits }
    {
        match self.signed().checked_mul(other.signed()) {
            Some(product) => is_in_range(product, self.width),
            None => false,
        }
    }

    /// Whether a signed left shift is defined: the number isn't negative, and its product by
    /// 2 ^ count is in range (C11 6.5.7p4).
    pub fn fits_shl(self, count: u32) -> bool
        requires { count < self.width }
        ensures { result ≡ left_shift_fits self.width self.bits count }
    {
        self.bits >> (self.width - 1 - count) == 0
    }

    /// The same unsigned number at a width from the word's own to 64 (C11 6.3.1.3p1).
    #[tactic(auto, using(crate::proofs::Powers::pow_grows))]
    pub fn zext(self, width: u32) -> Word
        requires not_narrower { self.width ≤ width }
        requires at_most_64 { width ≤ 64 }
        ensures value { result ≡ word width self.bits }
        ensures is_word { IsWord result }
    {
        Word {
            bits: self.bits,
            width,
        }
    }

    /// The same signed number at a width from the word's own to 64 (C11 6.3.1.3p1).
    #[tactic(auto, unfolding(crate::specs::Operators::sign_extension))]
    pub fn sext(self, width: u32) -> Word
        requires not_narrower { self.width ≤ width }
        requires at_most_64 { width ≤ 64 }
        ensures value { result ≡ word width (sign_extension self.width width self.bits) }
        ensures is_word { IsWord result }
    {
        from_signed(self.signed(), width)
    }

    /// The low bits, at a width from 1 to the word's own (C11 6.3.1.3p2, p3).
    pub fn cut(self, width: u32) -> Word
        requires positive { 1 ≤ width }
        requires not_wider { width ≤ self.width }
        ensures value { result ≡ word width (low_bits width self.bits) }
        ensures is_word { IsWord result }
    {
        lowest(self.bits, width)
    }
}

// The least bits that are negative at this width.
fn half(width: u32) -> u64
    requires positive { 1 ≤ width }
    requires at_most_64 { width ≤ 64 }
    ensures { result ≡ 2 ^ (width - 1) }
{
    1 << (width - 1)
}

// The greatest bits of this width.
fn mask(width: u32) -> u64
    requires positive { 1 ≤ width }
    requires at_most_64 { width ≤ 64 }
    ensures { result ≡ 2 ^ width - 1 }
{
    u64::MAX >> (64 - width)
}

// The word of the lowest of these bits.
#[tactic(auto, using(crate::proofs::Bodies::low_bits_mask))]
fn lowest(bits: u64, width: u32) -> Word
    requires positive { 1 ≤ width }
    requires at_most_64 { width ≤ 64 }
    ensures value { result ≡ word width (low_bits width bits) }
    ensures is_word { IsWord result }
{
    Word {
        bits: bits & mask(width),
        width,
    }
}

// The word of a number, modulo 2 ^ width.
fn from_signed(number: i64, width: u32) -> Word
    requires positive { 1 ≤ width }
    requires at_most_64 { width ≤ 64 }
    ensures value { result ≡ word width (wrapped width number) }
    ensures is_word { IsWord result }
{
    lowest(number.cast_unsigned(), width)
}

// Whether a signed word of this width holds the number.
fn is_in_range(number: i64, width: u32) -> bool
    requires positive { 1 ≤ width }
    requires at_most_64 { width ≤ 64 }
    ensures { result ≡ fits_width width number }
{
    let sign = number >> (width - 1);
    sign == 0 || sign == -1
}
