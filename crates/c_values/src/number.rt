//! Numbers of an integer type, and C's operations on them.

ghost use Rattle.std.specs.Prelude.{◌≡◌, ◌+◌, ◌-◌, ◌^◌, ◌<◌, ◌≤◌, pos, not, ◌&&◌, int_le, int_lt, true, None, Some, MatchResult, nat_lt};
ghost use Rattle.c_types.specs.Integers.{width, is_signed, same_integer};
ghost use Rattle.core_tree.specs.Operations as operations;
ghost use Rattle.core_tree.specs.Operations.{number, is_true, truth_bits, left_shift_check, count_check, division_check, arithmetic_check, arithmetic_value, sign_check, sign_value};
ghost use Rattle.c_values.specs.Numbers.{typed, are_operands_of};

use c_types::IntegerType;
use core_tree::{ArithmeticOperator, Comparison, SignOperator};
use std::marker::Model;
use words::{Class, Word};

/// A number of an integer type, by its bits.
#[derive(Clone, Copy)]
pub struct Number {
    type_: IntegerType,
    bits: u64,
}

impl Model for Number {
    ghost use Rattle.std.specs.Prelude.{◌<◌, ◌^◌};
    ghost use Rattle.c_types.specs.Integers.{width};
    ghost use Rattle.c_values.specs.Numbers.{TypedNumber, typed};

    ghost Value = { TypedNumber };

    ghost view = { λ n. typed n.type_ n.bits };

    ghost invariant = { λ n. n.bits < 2 ^ width n.type_ };

    ghost inverse = { λ v. record { type_ = v.type; bits = v.bits } };
}

impl Number {
    /// The number of a type with these bits, which are below 2 to the type's width.
    pub fn new(type_: IntegerType, bits: u64) -> Number
        requires { bits < 2 ^ width type_ }
        ensures value { result ≡ typed type_ bits }
        ensures within { result.bits < 2 ^ width result.type }
    {
        Number { type_, bits }
    }

    /// 1 or 0 of type int.
    pub fn of_truth(truth: bool) -> Number
        ensures { result ≡ typed IntegerType.Int (truth_bits truth) }
    {
        Number {
            type_: IntegerType::Int,
            bits: truth as u64,
        }
    }

    /// The bits, below 2 to the type's width.
    pub fn bits(self) -> u64
        ensures value { result ≡ self.bits }
        ensures within { result < 2 ^ width self.type }
    {
        self.bits
    }

    /// The type.
    pub fn type_of(self) -> IntegerType
        ensures { result ≡ self.type }
    {
        self.type_
    }

    /// Whether it isn't 0.
    pub fn is_true(self) -> bool
        ensures { result ≡ is_true self.bits }
    {
        self.bits != 0
    }

    fn word(self) -> Word
        ensures bits { result.bits ≡ self.bits }
        ensures width { result.width ≡ width self.type }
    {
        Word::new(self.bits, self.type_.width())
    }

    // The whole number that the bits mean.
    pub(crate) fn number(self) -> i128
        ensures { result ≡ number self.type self.bits }
    {
        if self.type_.is_signed() {
            self.word().signed() as i128
        } else {
            self.bits as i128
        }
    }

    /// The same bits, of another type of the same width.
    pub fn retyped(self, type_: IntegerType) -> Number
        requires { width self.type ≡ width type_ }
        ensures { result ≡ typed type_ self.bits }
    {
        Number {
            type_,
            bits: self.bits,
        }
    }

    #[tactic(auto, using(crate::proofs::Conversions::wrapped_narrower, crate::proofs::Conversions::wrapped_signed, crate::proofs::Conversions::wrapped_wider))]
    /// The number of another type (C11 6.3.1.2, 6.3.1.3).
    pub fn converted(self, to: IntegerType) -> Number
        ensures { result ≡ typed to (operations.converted self.type to self.bits) }
    {
        if is_bool(to) {
            Number {
                type_: to,
                bits: self.is_true() as u64,
            }
        } else if self.type_.width() >= to.width() {
            Number::new(to, self.word().cut(to.width()).bits())
        } else if self.type_.is_signed() {
            Number::new(to, self.word().sext(to.width()).bits())
        } else {
            Number::new(to, self.bits)
        }
    }
}

fn is_bool(type_: IntegerType) -> bool
    ensures { result ≡ same_integer type_ IntegerType.Bool }
{
    matches!(type_, IntegerType::Bool)
}

// ---- checks

// Breaks where a signed result doesn't fit.
fn overflow(type_: IntegerType, fits: bool) -> Option<Class>
    ensures { result ≡ operations.overflows (is_signed type_) fits }
{
    if type_.is_signed() && !fits {
        Some(Class::Overflow)
    } else {
        None
    }
}

fn division(a: Number, b: Number) -> Option<Class>
    requires { width a.type ≡ width b.type }
    ensures { result ≡ division_check a.type a.bits b.bits }
{
    if b.bits == 0 {
        return Some(Class::Division);
    }
    let width = a.type_.width();
    let least = a.word().neg().bits() == a.bits && a.bits != 0;
    let minus_one = b.bits == Word::new(0, width).not().bits();
    overflow(a.type_, !(least && minus_one))
}

// The count is from 0 to less than the width.
fn is_count(count: Number, width: u32) -> bool
    requires { width ≤ 64 }
    ensures { result ≡ (int_le (pos 0) (number count.type count.bits) && int_lt (number count.type count.bits) (pos width)) }
{
    let number = count.number();
    0 <= number && number < width as i128
}

#[tactic(auto, using(crate::proofs::Counts::count_below))]
fn left_shift(a: Number, count: Number) -> Option<Class>
    ensures { result ≡ left_shift_check a.type count.type a.bits count.bits }
{
    if !is_count(count, a.type_.width()) {
        Some(Class::Shift)
    } else if a.type_.is_signed() && !a.word().fits_shl(count.bits() as u32) {
        Some(Class::Shift)
    } else {
        None
    }
}

fn right_shift(a: Number, count: Number) -> Option<Class>
    ensures { result ≡ count_check a.type count.type count.bits }
{
    if is_count(count, a.type_.width()) {
        None
    } else {
        Some(Class::Shift)
    }
}

/// The check that the operation breaks.
pub fn broken_by(operator: ArithmeticOperator, a: Number, b: Number) -> Option<Class>
    requires { are_operands_of operator a.type b.type ≡ true }
    ensures { result ≡ arithmetic_check operator a.type b.type a.bits b.bits }
{
    match operator {
        ArithmeticOperator::Multiply => overflow(a.type_, a.word().fits_mul(b.word())),
        ArithmeticOperator::Divide | ArithmeticOperator::Remainder => division(a, b),
        ArithmeticOperator::Add => overflow(a.type_, a.word().fits_add(b.word())),
        ArithmeticOperator::Subtract => overflow(a.type_, a.word().fits_sub(b.word())),
        ArithmeticOperator::ShiftLeft => left_shift(a, b),
        ArithmeticOperator::ShiftRight => right_shift(a, b),
        ArithmeticOperator::And | ArithmeticOperator::Xor | ArithmeticOperator::Or => None,
    }
}

// ---- values

fn quotient(a: Number, b: Number) -> Word
    requires same { width a.type ≡ width b.type }
    requires nonzero { 0 < b.bits }
    ensures bits { result.bits ≡ arithmetic_value ArithmeticOperator.Divide a.type a.bits b.bits }
    ensures width { result.width ≡ width a.type }
{
    if a.type_.is_signed() {
        a.word().sdiv(b.word())
    } else {
        a.word().udiv(b.word())
    }
}

fn remainder(a: Number, b: Number) -> Word
    requires same { width a.type ≡ width b.type }
    requires nonzero { 0 < b.bits }
    ensures bits { result.bits ≡ arithmetic_value ArithmeticOperator.Remainder a.type a.bits b.bits }
    ensures width { result.width ≡ width a.type }
{
    if a.type_.is_signed() {
        a.word().srem(b.word())
    } else {
        a.word().urem(b.word())
    }
}

fn shifted_right(a: Number, count: u32) -> Word
    requires { count < width a.type }
    ensures bits { result.bits ≡ arithmetic_value ArithmeticOperator.ShiftRight a.type a.bits count }
    ensures width { result.width ≡ width a.type }
{
    if a.type_.is_signed() {
        a.word().ashr(count)
    } else {
        a.word().lshr(count)
    }
}

#[tactic(auto, using(crate::proofs::Undefined::quotient_none))]
fn divided(a: Number, b: Number) -> Word
    requires { width a.type ≡ width b.type }
    ensures bits { result.bits ≡ arithmetic_value ArithmeticOperator.Divide a.type a.bits b.bits }
    ensures width { result.width ≡ width a.type }
{
    if b.bits == 0 {
        Word::new(0, a.type_.width())
    } else {
        quotient(a, b)
    }
}

#[tactic(auto, using(crate::proofs::Undefined::remainder_none))]
fn rest(a: Number, b: Number) -> Word
    requires { width a.type ≡ width b.type }
    ensures bits { result.bits ≡ arithmetic_value ArithmeticOperator.Remainder a.type a.bits b.bits }
    ensures width { result.width ≡ width a.type }
{
    if b.bits == 0 {
        Word::new(0, a.type_.width())
    } else {
        remainder(a, b)
    }
}

#[tactic(auto, using(crate::proofs::Undefined::left_out))]
fn left_by(a: Number, count: u64) -> Word
    ensures bits { result.bits ≡ arithmetic_value ArithmeticOperator.ShiftLeft a.type a.bits count }
    ensures width { result.width ≡ width a.type }
{
    if count < a.type_.width() as u64 {
        a.word().shl(count as u32)
    } else {
        Word::new(0, a.type_.width())
    }
}

#[tactic(auto, using(crate::proofs::Undefined::right_out))]
fn right_by(a: Number, count: u64) -> Word
    ensures bits { result.bits ≡ arithmetic_value ArithmeticOperator.ShiftRight a.type a.bits count }
    ensures width { result.width ≡ width a.type }
{
    if count < a.type_.width() as u64 {
        shifted_right(a, count as u32)
    } else {
        Word::new(0, a.type_.width())
    }
}

fn result_of(operator: ArithmeticOperator, a: Number, b: Number) -> Word
    requires operands { are_operands_of operator a.type b.type ≡ true }
    ensures bits { result.bits ≡ arithmetic_value operator a.type a.bits b.bits }
    ensures width { result.width ≡ width a.type }
{
    let x = a.word();
    match operator {
        ArithmeticOperator::Multiply => x.mul(b.word()),
        ArithmeticOperator::Divide => divided(a, b),
        ArithmeticOperator::Remainder => rest(a, b),
        ArithmeticOperator::Add => x.add(b.word()),
        ArithmeticOperator::Subtract => x.sub(b.word()),
        ArithmeticOperator::ShiftLeft => left_by(a, b.bits),
        ArithmeticOperator::ShiftRight => right_by(a, b.bits),
        ArithmeticOperator::And => x.and(b.word()),
        ArithmeticOperator::Xor => x.xor(b.word()),
        ArithmeticOperator::Or => x.or(b.word()),
    }
}

/// The result of an operation, of the left operand's type, whether or not it breaks a check. By 0, and by
/// a count of the width or more, it is 0.
pub fn value(operator: ArithmeticOperator, a: Number, b: Number) -> Number
    requires { are_operands_of operator a.type b.type ≡ true }
    ensures { result ≡ typed a.type (arithmetic_value operator a.type a.bits b.bits) }
{
    Number::new(a.type_, result_of(operator, a, b).bits())
}

/// The check that a sign operator breaks.
pub fn broken_sign(operator: SignOperator, a: Number) -> Option<Class>
    ensures { result ≡ sign_check operator a.type a.bits }
{
    let zero = Word::new(0, a.type_.width());
    match operator {
        SignOperator::Plus | SignOperator::Complement => None,
        SignOperator::Minus => overflow(a.type_, zero.fits_sub(a.word())),
    }
}

/// The result of a sign operator, whether or not it breaks a check.
pub fn signed_value(operator: SignOperator, a: Number) -> Number
    ensures { result ≡ typed a.type (sign_value operator a.type a.bits) }
{
    match operator {
        SignOperator::Plus => a,
        SignOperator::Minus => Number::new(a.type_, a.word().neg().bits()),
        SignOperator::Complement => Number::new(a.type_, a.word().not().bits()),
    }
}

/// The result of an operation, of the left operand's type, or the check that it breaks.
pub fn operate(operator: ArithmeticOperator, a: Number, b: Number) -> Result<Number, Class>
    requires { are_operands_of operator a.type b.type ≡ true }
    ensures { MatchResult result
        (λ n. (arithmetic_check operator a.type b.type a.bits b.bits ≡ None) × (n ≡ typed a.type (arithmetic_value operator a.type a.bits b.bits)))
        (λ class. arithmetic_check operator a.type b.type a.bits b.bits ≡ Some class) }
{
    match broken_by(operator, a, b) {
        Some(class) => Err(class),
        None => Ok(value(operator, a, b)),
    }
}

/// The result of a sign operator, or the check that it breaks.
pub fn sign(operator: SignOperator, a: Number) -> Result<Number, Class>
    ensures { MatchResult result
        (λ n. (sign_check operator a.type a.bits ≡ None) × (n ≡ typed a.type (sign_value operator a.type a.bits)))
        (λ class. sign_check operator a.type a.bits ≡ Some class) }
{
    match broken_sign(operator, a) {
        Some(class) => Err(class),
        None => Ok(signed_value(operator, a)),
    }
}

/// Whether a comparison of two numbers of types of one width, which is read as the left one's, holds.
pub fn compare(operator: Comparison, a: Number, b: Number) -> bool
    requires { width a.type ≡ width b.type }
    ensures { result ≡ operations.compared operator a.type a.bits b.bits }
{
    let x = a.number();
    let y = b.retyped(a.type_).number();
    match operator {
        Comparison::Less => x < y,
        Comparison::Greater => y < x,
        Comparison::LessEqual => x <= y,
        Comparison::GreaterEqual => y <= x,
        Comparison::Equal => a.bits == b.bits,
        Comparison::NotEqual => a.bits != b.bits,
    }
}
