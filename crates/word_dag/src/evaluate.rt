//! The values of all nodes under a valuation.

ghost use Rattle.std.specs.Prelude.{◌≡◌, ◌+◌, ◌≤◌, ◌<◌, IsTrue, length, map, if◌then◌else◌};
ghost use Rattle.std.specs.List.{list_all, list_any};
ghost use Rattle.words.specs.BitVector.{BitVector, word};
ghost use Rattle.words.specs.Operators.{low_bits, logical_shift};
ghost use Rattle.word_dag.specs.Meaning.{
  bit_value,
  holds,
  joined,
  binary_value,
  shift_value,
  comparison_value,
  fits_value,
  quantified,
  at,
  node_width,
  node_value,
  valuation_of,
};
ghost use Rattle.word_dag.specs.Fitting.{fits};

use crate::nodes::{BinaryOperator, Comparison, FitsTest, Id, Node, Quantifier, ShiftKind};
use crate::valuations::Valuation;
use words::Word;

/// The word of a node that fits behind nodes with these words.
pub fn word_of(node: Node, words: &[Word], valuation: &Valuation) -> Word
    requires { IsTrue (fits (map (λ (w : BitVector). w.width) words.now) node) }
    ensures width { result.width ≡ node_width (map (λ (w : BitVector). w.width) words.now) node }
    ensures bits { result.bits ≡ node_value (valuation_of valuation.now) (map (λ (w : BitVector). w.width) words.now) (map (λ (w : BitVector). w.bits) words.now) node }
{
    match node {
        Node::Constant(bits, width) => Word::new(bits, width),
        Node::Variable(number, width) => Word::new(valuation.value(number), 64).cut(width),
        Node::Not(a) => read(words, a).not(),
        Node::Negate(a) => read(words, a).neg(),
        Node::Binary(operator, a, b) => binary(operator, read(words, a), read(words, b)),
        Node::Shift(kind, a, count) => shift(kind, read(words, a), read(words, count)),
        Node::Compare(comparison, a, b) => {
            bit(compare(comparison, read(words, a), read(words, b)))
        }
        Node::Fits(test, a, b) => bit(result_fits(test, read(words, a), read(words, b))),
        Node::Choice(condition, a, b) => {
            choose(read(words, condition), read(words, a), read(words, b))
        }
        Node::ZeroExtend(a, width) => read(words, a).zext(width),
        Node::SignExtend(a, width) => read(words, a).sext(width),
        Node::Cut(a, low, width) => cut(read(words, a), low, width),
        Node::Join(high, low) => join(read(words, high), read(words, low)),
        Node::Quantify(quantifier, first, count) => {
            bit(quantified(quantifier, &words[first.index..first.index + count]))
        }
    }
}

// The word at this Id.
fn read(words: &[Word], id: Id) -> Word
    requires { id.index < length words.now }
    ensures width { result.width ≡ at (map (λ (w : BitVector). w.width) words.now) id }
    ensures bits { result.bits ≡ at (map (λ (w : BitVector). w.bits) words.now) id }
{
    words[id.index]
}

/// The word of this operation.
pub fn binary(operator: BinaryOperator, a: Word, b: Word) -> Word
    requires { a.width ≡ b.width }
    ensures { result ≡ word a.width (binary_value operator a.width a.bits b.bits) }
{
    let zero = Word::new(0, a.width());
    let divides = b.bits() > 0;
    match operator {
        BinaryOperator::Add => a.add(b),
        BinaryOperator::Subtract => a.sub(b),
        BinaryOperator::Multiply => a.mul(b),
        BinaryOperator::UnsignedDivide => if divides { a.udiv(b) } else { zero },
        BinaryOperator::SignedDivide => if divides { a.sdiv(b) } else { zero },
        BinaryOperator::UnsignedRemainder => if divides { a.urem(b) } else { zero },
        BinaryOperator::SignedRemainder => if divides { a.srem(b) } else { zero },
        BinaryOperator::And => a.and(b),
        BinaryOperator::Or => a.or(b),
        BinaryOperator::Xor => a.xor(b),
    }
}

/// The word shifted by the count; 0 where the count is at least the width.
pub fn shift(kind: ShiftKind, a: Word, count: Word) -> Word
    requires { a.width ≡ count.width }
    ensures { result ≡ word a.width (shift_value kind a.width a.bits count.bits) }
{
    let width = a.width();
    if count.bits() >= u64::from(width) {
        return Word::new(0, width);
    }
    let places = count.bits() as u32;
    match kind {
        ShiftKind::Left => a.shl(places),
        ShiftKind::Logical => a.lshr(places),
        ShiftKind::Arithmetic => a.ashr(places),
    }
}

/// Whether the comparison holds.
pub fn compare(comparison: Comparison, a: Word, b: Word) -> bool
    requires { a.width ≡ b.width }
    ensures { result ≡ comparison_value comparison a.width a.bits b.bits }
{
    match comparison {
        Comparison::Equal => a.bits() == b.bits(),
        Comparison::UnsignedLess => a.ult(b),
        Comparison::SignedLess => a.slt(b),
    }
}

/// Whether the result is in range.
pub fn result_fits(test: FitsTest, a: Word, b: Word) -> bool
    requires { a.width ≡ b.width }
    ensures { result ≡ fits_value test a.width a.bits b.bits }
{
    match test {
        FitsTest::Sum => a.fits_add(b),
        FitsTest::Difference => a.fits_sub(b),
        FitsTest::Product => a.fits_mul(b),
        FitsTest::LeftShift => left_shift_fits(a, b),
    }
}

// Whether the number isn't negative and its product by 2 ^ count is in range.
fn left_shift_fits(a: Word, count: Word) -> bool
    requires { a.width ≡ count.width }
    ensures { result ≡ fits_value FitsTest.LeftShift a.width a.bits count.bits }
{
    if count.bits() < u64::from(a.width()) {
        a.fits_shl(count.bits() as u32)
    } else {
        a.bits() == 0
    }
}

/// A truth value as a word.
pub fn bit(truth: bool) -> Word
    ensures { result ≡ word 1 (bit_value truth) }
{
    Word::new(u64::from(truth), 1)
}

/// Whether all, or any, of the words are true.
#[tactic(auto, using(crate::proofs::Places::all_words, crate::proofs::Places::any_words))]
pub fn quantified(quantifier: Quantifier, words: &[Word]) -> bool
    ensures { result ≡ quantified quantifier (map (λ (w : BitVector). w.bits) words.now) }
{
    match quantifier {
        Quantifier::All => are_true(words),
        Quantifier::Any => is_one_true(words),
    }
}

// Whether a word is true.
fn is_true(word: Word) -> bool
    ensures { result ≡ holds word.bits }
{
    word.bits() > 0
}

// Whether each word is true.
fn are_true(words: &[Word]) -> bool
    ensures { result ≡ list_all (λ (w : BitVector). holds w.bits) words.now }
{
    words.iter().all(|word| is_true(*word))
}

// Whether a word among these is true.
fn is_one_true(words: &[Word]) -> bool
    ensures { result ≡ list_any (λ (w : BitVector). holds w.bits) words.now }
{
    words.iter().any(|word| is_true(*word))
}

/// The second word where the condition holds, else the third.
pub fn choose(condition: Word, a: Word, b: Word) -> Word
    ensures { result ≡ (if holds condition.bits then a else b) }
{
    if condition.bits() > 0 { a } else { b }
}

/// As many bits as `width` says, from the bit `low` on.
pub fn cut(a: Word, low: u32, width: u32) -> Word
    requires positive { 1 ≤ width }
    requires within { low + width ≤ a.width }
    ensures { result ≡ word width (low_bits width (logical_shift a.bits low)) }
{
    a.lshr(low).cut(width)
}

/// The bits of the first word above those of the second.
pub fn join(high: Word, low: Word) -> Word
    requires { high.width + low.width ≤ 64 }
    ensures { result ≡ word (high.width + low.width) (joined low.width high.bits low.bits) }
{
    let width = high.width() + low.width();
    let shifted = high.zext(width).shl(low.width());
    shifted.add(low.zext(width))
}
