//! Tests of words and of what breaks their checks.

// Machine words against their whole-number meaning.

ghost use Rattle.std.specs.Prelude.{◌≡◌, ◌≤◌};

use Operator::*;
use words::{Check, Class, Word};

#[derive(Clone, Copy)]
enum Operator {
    Add,
    Sub,
    Mul,
    Udiv,
    Sdiv,
    Urem,
    Srem,
    And,
    Or,
    Xor,
    Neg,
    Not,
    Shl,
    Lshr,
    Ashr,
    Ult,
    Slt,
    FitsAdd,
    FitsSub,
    FitsMul,
    FitsShl,
    Zext,
    Sext,
    Cut,
}

// An operator; the width and the bits of the left operand; the bits of the right operand, the count
// of a shift or the new width; and what C gives, a truth value as 0 or 1.
static ROWS: [(Operator, u32, u64, u64, u64); 170] = [
    (Add, 1, 1, 1, 0),
    (Sub, 1, 0, 1, 1),
    (Mul, 1, 1, 1, 1),
    (Neg, 1, 1, 0, 1),
    (Not, 1, 0, 0, 1),
    (Sdiv, 1, 1, 1, 1),
    (Srem, 1, 1, 1, 0),
    (Slt, 1, 1, 0, 1),
    (Ult, 1, 1, 0, 0),
    (FitsAdd, 1, 1, 1, 0),
    (FitsSub, 1, 0, 1, 0),
    (FitsMul, 1, 1, 1, 0),
    (FitsShl, 1, 1, 0, 0),
    (FitsShl, 1, 0, 0, 1),
    (Ashr, 1, 1, 0, 1),
    (Sext, 1, 1, 8, 0xff),
    (Zext, 1, 1, 8, 1),
    (Cut, 8, 0xfe, 1, 0),
    (Cut, 8, 0xff, 1, 1),
    (Add, 8, 0xff, 1, 0),
    (Add, 8, 0x7f, 1, 0x80),
    (Sub, 8, 0, 1, 0xff),
    (Sub, 8, 0x80, 1, 0x7f),
    (Mul, 8, 0x80, 2, 0),
    (Mul, 8, 0xff, 0xff, 1),
    (Udiv, 8, 0xff, 16, 15),
    (Urem, 8, 0xff, 16, 15),
    (Urem, 8, 0xfe, 16, 14),
    (Sdiv, 8, 0x80, 0xff, 0x80),
    (Sdiv, 8, 0xf9, 2, 0xfd),
    (Sdiv, 8, 7, 0xfe, 0xfd),
    (Sdiv, 8, 0xf9, 0xfe, 3),
    (Srem, 8, 0x80, 0xff, 0),
    (Srem, 8, 0xf9, 2, 0xff),
    (Srem, 8, 7, 0xfe, 1),
    (Srem, 8, 0xf9, 0xfe, 0xff),
    (And, 8, 0xcc, 0xaa, 0x88),
    (Or, 8, 0xcc, 0xaa, 0xee),
    (Xor, 8, 0xcc, 0xaa, 0x66),
    (Not, 8, 0, 0, 0xff),
    (Neg, 8, 0x80, 0, 0x80),
    (Neg, 8, 0, 0, 0),
    (Shl, 8, 0x81, 1, 2),
    (Shl, 8, 1, 7, 0x80),
    (Lshr, 8, 0x80, 7, 1),
    (Ashr, 8, 0x80, 7, 0xff),
    (Ashr, 8, 64, 6, 1),
    (Ashr, 8, 0xf9, 1, 0xfc),
    (Slt, 8, 0x80, 0x7f, 1),
    (Ult, 8, 0x80, 0x7f, 0),
    (Slt, 8, 0x7f, 0x7f, 0),
    (Ult, 8, 0x7f, 0x80, 1),
    (FitsAdd, 8, 0x7f, 1, 0),
    (FitsAdd, 8, 0x7f, 0, 1),
    (FitsAdd, 8, 0x80, 0xff, 0),
    (FitsAdd, 8, 0x80, 0x7f, 1),
    (FitsSub, 8, 0x80, 1, 0),
    (FitsSub, 8, 0, 0x80, 0),
    (FitsSub, 8, 0xff, 0x80, 1),
    (FitsMul, 8, 64, 2, 0),
    (FitsMul, 8, 0xc0, 2, 1),
    (FitsMul, 8, 0x80, 0xff, 0),
    (FitsMul, 8, 16, 16, 0),
    (FitsShl, 8, 1, 6, 1),
    (FitsShl, 8, 1, 7, 0),
    (FitsShl, 8, 0xff, 0, 0),
    (FitsShl, 8, 0, 7, 1),
    (FitsShl, 8, 0x7f, 0, 1),
    (Sext, 8, 0x80, 16, 0xff80),
    (Sext, 8, 0x7f, 16, 0x7f),
    (Sext, 8, 0x80, 8, 0x80),
    (Zext, 8, 0x80, 16, 0x80),
    (Add, 31, 0x7fff_ffff, 1, 0),
    (Sub, 31, 0, 1, 0x7fff_ffff),
    (Mul, 31, 0x1_0000, 0x8000, 0),
    (Sdiv, 31, 0x4000_0000, 0x7fff_ffff, 0x4000_0000),
    (Srem, 31, 0x4000_0000, 0x7fff_ffff, 0),
    (Slt, 31, 0x4000_0000, 0x3fff_ffff, 1),
    (Ult, 31, 0x4000_0000, 0x3fff_ffff, 0),
    (Ashr, 31, 0x4000_0000, 30, 0x7fff_ffff),
    (Neg, 31, 0x4000_0000, 0, 0x4000_0000),
    (FitsAdd, 31, 0x3fff_ffff, 1, 0),
    (FitsSub, 31, 0x7fff_ffff, 0x4000_0000, 1),
    (FitsMul, 31, 0x8000, 0x8000, 0),
    (FitsMul, 31, 0x8000, 0x7fff_8000, 1),
    (Sext, 31, 0x4000_0000, 32, 0xc000_0000),
    (Zext, 31, 0x4000_0000, 32, 0x4000_0000),
    (Add, 32, 0xffff_ffff, 1, 0),
    (Sub, 32, 0, 1, 0xffff_ffff),
    (Mul, 32, 0xffff_ffff, 0xffff_ffff, 1),
    (Mul, 32, 0x1_0000, 0x1_0000, 0),
    (Sdiv, 32, 0x8000_0000, 0xffff_ffff, 0x8000_0000),
    (Srem, 32, 0x8000_0000, 0xffff_ffff, 0),
    (Udiv, 32, 0xffff_ffff, 0x8000_0000, 1),
    (Urem, 32, 0xffff_ffff, 0x8000_0000, 0x7fff_ffff),
    (Ashr, 32, 0x8000_0000, 31, 0xffff_ffff),
    (Lshr, 32, 0x8000_0000, 31, 1),
    (Shl, 32, 1, 31, 0x8000_0000),
    (Slt, 32, 0x8000_0000, 0x7fff_ffff, 1),
    (Ult, 32, 0x8000_0000, 0x7fff_ffff, 0),
    (FitsAdd, 32, 0x7fff_ffff, 1, 0),
    (FitsAdd, 32, 0x8000_0000, 0xffff_ffff, 0),
    (FitsAdd, 32, 0x8000_0000, 0x7fff_ffff, 1),
    (FitsSub, 32, 0, 0x8000_0000, 0),
    (FitsSub, 32, 0xffff_ffff, 0x8000_0000, 1),
    (FitsMul, 32, 0x1_0000, 0x1_0000, 0),
    (FitsMul, 32, 46_340, 46_341, 1),
    (FitsMul, 32, 46_341, 46_341, 0),
    (FitsMul, 32, 0x8000_0000, 1, 1),
    (FitsMul, 32, 0x8000_0000, 0xffff_ffff, 0),
    (FitsShl, 32, 1, 30, 1),
    (FitsShl, 32, 1, 31, 0),
    (FitsShl, 32, 0x8000_0000, 0, 0),
    (Sext, 32, 0x8000_0000, 64, 0xffff_ffff_8000_0000),
    (Zext, 32, 0x8000_0000, 64, 0x8000_0000),
    (Cut, 64, 0x1_2345_6789, 32, 0x2345_6789),
    (Cut, 32, 0x180, 8, 0x80),
    (Add, 63, 0x7fff_ffff_ffff_ffff, 1, 0),
    (Sub, 63, 0, 1, 0x7fff_ffff_ffff_ffff),
    (Mul, 63, 0x1_0000_0000, 0x8000_0000, 0),
    (
        Sdiv,
        63,
        0x4000_0000_0000_0000,
        0x7fff_ffff_ffff_ffff,
        0x4000_0000_0000_0000,
    ),
    (Srem, 63, 0x4000_0000_0000_0000, 0x7fff_ffff_ffff_ffff, 0),
    (Slt, 63, 0x4000_0000_0000_0000, 0, 1),
    (Ult, 63, 0x4000_0000_0000_0000, 0, 0),
    (Ashr, 63, 0x4000_0000_0000_0000, 62, 0x7fff_ffff_ffff_ffff),
    (Lshr, 63, 0x4000_0000_0000_0000, 62, 1),
    (FitsAdd, 63, 0x3fff_ffff_ffff_ffff, 1, 0),
    (FitsSub, 63, 0x7fff_ffff_ffff_ffff, 0x4000_0000_0000_0000, 1),
    (FitsMul, 63, 0x8000_0000, 0x8000_0000, 0),
    (FitsMul, 63, 0x8000_0000, 0x4000_0000, 1),
    (Sext, 63, 0x4000_0000_0000_0000, 64, 0xc000_0000_0000_0000),
    (Zext, 63, 0x4000_0000_0000_0000, 64, 0x4000_0000_0000_0000),
    (Add, 64, 0xffff_ffff_ffff_ffff, 1, 0),
    (Sub, 64, 0, 1, 0xffff_ffff_ffff_ffff),
    (Mul, 64, 0xffff_ffff_ffff_ffff, 0xffff_ffff_ffff_ffff, 1),
    (Mul, 64, 0x1_0000_0000, 0x1_0000_0000, 0),
    (
        Udiv,
        64,
        0xffff_ffff_ffff_ffff,
        10,
        1_844_674_407_370_955_161,
    ),
    (Urem, 64, 0xffff_ffff_ffff_ffff, 10, 5),
    (
        Sdiv,
        64,
        0x8000_0000_0000_0000,
        0xffff_ffff_ffff_ffff,
        0x8000_0000_0000_0000,
    ),
    (Srem, 64, 0x8000_0000_0000_0000, 0xffff_ffff_ffff_ffff, 0),
    (Sdiv, 64, 0x8000_0000_0000_0000, 1, 0x8000_0000_0000_0000),
    (
        Sdiv,
        64,
        0x7fff_ffff_ffff_ffff,
        0xffff_ffff_ffff_ffff,
        0x8000_0000_0000_0001,
    ),
    (
        And,
        64,
        0xffff_ffff_ffff_ffff,
        0x8000_0000_0000_0000,
        0x8000_0000_0000_0000,
    ),
    (Or, 64, 0, 0x8000_0000_0000_0000, 0x8000_0000_0000_0000),
    (
        Xor,
        64,
        0xffff_ffff_ffff_ffff,
        0x8000_0000_0000_0000,
        0x7fff_ffff_ffff_ffff,
    ),
    (Neg, 64, 0x8000_0000_0000_0000, 0, 0x8000_0000_0000_0000),
    (Neg, 64, 1, 0, 0xffff_ffff_ffff_ffff),
    (Not, 64, 0, 0, 0xffff_ffff_ffff_ffff),
    (Shl, 64, 3, 63, 0x8000_0000_0000_0000),
    (Lshr, 64, 0x8000_0000_0000_0000, 63, 1),
    (Ashr, 64, 0x8000_0000_0000_0000, 63, 0xffff_ffff_ffff_ffff),
    (Ashr, 64, 0x7fff_ffff_ffff_ffff, 62, 1),
    (Slt, 64, 0x8000_0000_0000_0000, 0x7fff_ffff_ffff_ffff, 1),
    (Ult, 64, 0x8000_0000_0000_0000, 0x7fff_ffff_ffff_ffff, 0),
    (FitsAdd, 64, 0x7fff_ffff_ffff_ffff, 1, 0),
    (FitsAdd, 64, 0x8000_0000_0000_0000, 0xffff_ffff_ffff_ffff, 0),
    (FitsAdd, 64, 0x8000_0000_0000_0000, 0x7fff_ffff_ffff_ffff, 1),
    (FitsSub, 64, 0, 0x8000_0000_0000_0000, 0),
    (FitsSub, 64, 0xffff_ffff_ffff_ffff, 0x8000_0000_0000_0000, 1),
    (FitsSub, 64, 0x7fff_ffff_ffff_ffff, 0xffff_ffff_ffff_ffff, 0),
    (FitsMul, 64, 0x1_0000_0000, 0x1_0000_0000, 0),
    (FitsMul, 64, 0x8000_0000_0000_0000, 0xffff_ffff_ffff_ffff, 0),
    (FitsMul, 64, 0x8000_0000_0000_0000, 1, 1),
    (FitsMul, 64, 0x4000_0000_0000_0000, 2, 0),
    (FitsMul, 64, 0x4000_0000_0000_0000, 0xffff_ffff_ffff_fffe, 1),
    (FitsShl, 64, 1, 62, 1),
    (FitsShl, 64, 1, 63, 0),
    (FitsShl, 64, 0x8000_0000_0000_0000, 0, 0),
    (Zext, 64, 0x8000_0000_0000_0000, 64, 0x8000_0000_0000_0000),
    (Sext, 64, 0x8000_0000_0000_0000, 64, 0x8000_0000_0000_0000),
];

// The word of the lowest of these bits.
fn lowest(bits: u64, width: u32) -> Word
    requires positive { 1 ≤ width }
    requires at_most_64 { width ≤ 64 }
    ensures { result.width ≡ width }
{
    Word::new(bits, 64).cut(width)
}

// What the call of a row answers; none where a condition of the call fails.
fn answer(operator: Operator, width: u32, left: u64, right: u64) -> Option<u64> {
    if width < 1 || width > 64 {
        return None;
    }
    let a = lowest(left, width);
    match operator {
        Shl | Lshr | Ashr | FitsShl => shifted(operator, a, u32::try_from(right).ok()?),
        Zext | Sext | Cut => resized(operator, a, u32::try_from(right).ok()?),
        Udiv | Sdiv | Urem | Srem => divided(operator, a, lowest(right, width)),
        Ult | Slt | FitsAdd | FitsSub | FitsMul => tested(operator, a, lowest(right, width)),
        _ => combined(operator, a, lowest(right, width)),
    }
}

fn combined(operator: Operator, a: Word, b: Word) -> Option<u64>
    requires { a.width ≡ b.width }
{
    match operator {
        Add => Some(a.add(b).bits()),
        Sub => Some(a.sub(b).bits()),
        Mul => Some(a.mul(b).bits()),
        And => Some(a.and(b).bits()),
        Or => Some(a.or(b).bits()),
        Xor => Some(a.xor(b).bits()),
        Neg => Some(a.neg().bits()),
        Not => Some(a.not().bits()),
        _ => None,
    }
}

fn divided(operator: Operator, a: Word, b: Word) -> Option<u64>
    requires { a.width ≡ b.width }
{
    if b.bits() == 0 {
        return None;
    }
    match operator {
        Udiv => Some(a.udiv(b).bits()),
        Sdiv => Some(a.sdiv(b).bits()),
        Urem => Some(a.urem(b).bits()),
        Srem => Some(a.srem(b).bits()),
        _ => None,
    }
}

fn tested(operator: Operator, a: Word, b: Word) -> Option<u64>
    requires { a.width ≡ b.width }
{
    match operator {
        Ult => Some(a.ult(b) as u64),
        Slt => Some(a.slt(b) as u64),
        FitsAdd => Some(a.fits_add(b) as u64),
        FitsSub => Some(a.fits_sub(b) as u64),
        FitsMul => Some(a.fits_mul(b) as u64),
        _ => None,
    }
}

fn shifted(operator: Operator, a: Word, count: u32) -> Option<u64> {
    if count >= a.width() {
        return None;
    }
    match operator {
        Shl => Some(a.shl(count).bits()),
        Lshr => Some(a.lshr(count).bits()),
        Ashr => Some(a.ashr(count).bits()),
        FitsShl => Some(a.fits_shl(count) as u64),
        _ => None,
    }
}

fn resized(operator: Operator, a: Word, width: u32) -> Option<u64> {
    if width < 1 || width > 64 {
        return None;
    }
    match operator {
        Zext if a.width() <= width => Some(a.zext(width).bits()),
        Sext if a.width() <= width => Some(a.sext(width).bits()),
        Cut if width <= a.width() => Some(a.cut(width).bits()),
        _ => None,
    }
}

#[test]
fn operators_give_what_c_gives(rt: HostRuntime) {
    for (i, (operator, width, left, right, expected)) in ROWS.iter().enumerate() {
        let found = answer(*operator, *width, *left, *right);
        assert_eq!(rt; found, Some(*expected), "row {i}");
    }
}

#[test]
fn a_word_keeps_its_bits(rt: HostRuntime) {
    let least = Word::new(0x80, 8);
    assert_eq!(rt;
        (least.bits(), least.width(), least.signed()),
        (0x80, 8, -128)
    );
    assert_eq!(rt; Word::new(0x7f, 8).signed(), 127);
    assert_eq!(rt; Word::new(1, 1).signed(), -1);
    assert_eq!(rt; Word::new(1 << 63, 64).signed(), i64::MIN);
    assert_eq!(rt; Word::new(u64::MAX, 64).signed(), -1);
    assert_ne!(rt; Word::new(1, 8), Word::new(1, 16));
    let check = Check {
        class: Class::Shift,
        line: 3,
        function: 1,
        thread: 0,
    };
    assert_eq!(rt; check, check);
    assert_ne!(rt; check.class, Class::Overflow);
}
