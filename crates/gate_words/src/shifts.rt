//! Shifters.

#![tactic(auto, using(gate_bits::proofs::Growing::growth))]

ghost use Rattle.std.specs.Prelude.{◌≡◌, ◌+◌, ◌-◌, ◌*◌, ◌^◌, ◌<◌, ◌≤◌, false, true, IfOk, length};
ghost use Rattle.sat_form.specs.Satisfaction.{literal_value, IsWithin};
ghost use Rattle.sat_form.specs.Numbers.{bit_value, value_of};
ghost use Rattle.words.specs.Operators.{left_shift};
ghost use Rattle.gate_bits.specs.Growth.{GrowsFreely};
ghost use Rattle.gate_bits.specs.Truth.{IsTruth, IsNumber};
ghost use Rattle.gate_words.specs.Shifts.{IsShiftedDown, IsShifted, IsConstant, shifted};

use gate_bits::orders::borrow;
use gate_bits::{Lits, chosen, constant, flipped, masked, moved_down, moved_up};
use sat_form::{Cnf, Lit};
use std::alloc::{AllocError, Global};

/// The three shifts of C.
#[derive(Clone, Copy, PartialEq, Eq)]
pub enum Shift {
    /// Up, zeros coming in (C11 6.5.7p4).
    Left,
    /// Down, zeros coming in: of an unsigned number (C11 6.5.7p5).
    Logical,
    /// Down, copies of the sign coming in: of a number in two's complement (C11 6.5.7p5).
    Arithmetic,
}

/// How many bits of a count below the width can be 1.
pub fn stages(width: usize) -> usize
    requires positive { 1 ≤ width }
    requires at_most_64 { width ≤ 64 }
    ensures enough { width ≤ 2 ^ result }
    ensures least { 1 ≤ result → 2 ^ (result - 1) < width }
    ensures few { result ≤ 6 }
    ensures within { result ≤ width }
{
    match width {
        ..=1 => 0,
        2 => 1,
        3..=4 => 2,
        5..=8 => 3,
        9..=16 => 4,
        17..=32 => 5,
        _ => 6,
    }
}

// The number times 2 to the `distance` where `on` is true, else as it is.
fn stage_up(
    alloc: Global,
    cnf: &mut Cnf,
    bits: &[Lit],
    distance: usize,
    on: Lit,
    zero: Lit,
) -> Result<Vec<Lit>, AllocError>
    requires distance { distance ≤ length bits.now }
    requires bits { IsWithin cnf.old.variables bits.now }
    requires on { on.variable < cnf.old.variables }
    requires zero { IsTruth cnf.old zero (λ _. false) }
    ensures grows { GrowsFreely cnf.old cnf.new }
    ensures is { IfOk result (λ r. IsNumber cnf.new (length bits.now) r.items (λ x. left_shift (length bits.now) (value_of bits.now x) (distance * bit_value (literal_value x on)))) }
{
    let moved = moved_up(alloc, bits, distance, zero)?;
    chosen(alloc, cnf, on, &moved, bits)
}

/// The number moved up by the count.
pub fn shifted_up(
    alloc: Global,
    cnf: &mut Cnf,
    a: &[Lit],
    count: &[Lit],
    zero: Lit,
) -> Result<Vec<Lit>, AllocError>
    requires few { length count.now ≤ 6 }
    requires least { 2 ^ (length count.now - 1) ≤ length a.now }
    requires a { IsWithin cnf.old.variables a.now }
    requires count { IsWithin cnf.old.variables count.now }
    requires zero { IsTruth cnf.old zero (λ _. false) }
    ensures grows { GrowsFreely cnf.old cnf.new }
    ensures is { IfOk result (λ r. IsNumber cnf.new (length a.now) r.items (λ x. left_shift (length a.now) (value_of a.now x) (value_of count.now x))) }
{
    let mut bits = a.to_vec(alloc)?;
    for (k, on) in count.iter().enumerate() {
        bits = stage_up(alloc, cnf, &bits, 1 << k, *on, zero)?;
    }
    Ok(bits)
}

// The bits moved down by `distance` where `on` is true, else as they are.
fn stage_down(
    alloc: Global,
    cnf: &mut Cnf,
    bits: &[Lit],
    distance: usize,
    on: Lit,
    fill: Lit,
) -> Result<Vec<Lit>, AllocError>
    requires distance { distance ≤ length bits.now }
    requires bits { IsWithin cnf.old.variables bits.now }
    requires on { on.variable < cnf.old.variables }
    requires fill { fill.variable < cnf.old.variables }
    ensures grows { GrowsFreely cnf.old cnf.new }
    ensures is { IfOk result (λ r. IsShiftedDown cnf.new bits.now fill r.items (λ x. distance * bit_value (literal_value x on))) }
{
    let moved = moved_down(alloc, bits, distance, fill)?;
    chosen(alloc, cnf, on, &moved, bits)
}

// The bits moved down by the count, `fill` coming in.
fn shifted_down(
    alloc: Global,
    cnf: &mut Cnf,
    a: &[Lit],
    count: &[Lit],
    fill: Lit,
) -> Result<Vec<Lit>, AllocError>
    requires few { length count.now ≤ 6 }
    requires least { 2 ^ (length count.now - 1) ≤ length a.now }
    requires a { IsWithin cnf.old.variables a.now }
    requires count { IsWithin cnf.old.variables count.now }
    requires fill { fill.variable < cnf.old.variables }
    ensures grows { GrowsFreely cnf.old cnf.new }
    ensures is { IfOk result (λ r. IsShiftedDown cnf.new a.now fill r.items (value_of count.now)) }
{
    let mut bits = a.to_vec(alloc)?;
    for (k, on) in count.iter().enumerate() {
        bits = stage_down(alloc, cnf, &bits, 1 << k, *on, fill)?;
    }
    Ok(bits)
}

// The number shifted by a count that is below the width.
fn shifted_within(
    alloc: Global,
    cnf: &mut Cnf,
    kind: Shift,
    a: &[Lit],
    count: &[Lit],
    zero: Lit,
) -> Result<Vec<Lit>, AllocError>
    requires positive { 1 ≤ length a.now }
    requires few { length count.now ≤ 6 }
    requires least { 2 ^ (length count.now - 1) ≤ length a.now }
    requires a { IsWithin cnf.old.variables a.now }
    requires count { IsWithin cnf.old.variables count.now }
    requires zero { IsTruth cnf.old zero (λ _. false) }
    ensures grows { GrowsFreely cnf.old cnf.new }
    ensures is { IfOk result (λ r. IsShifted cnf.new kind a.now count.now r.items) }
{
    match kind {
        Shift::Left => shifted_up(alloc, cnf, a, count, zero),
        Shift::Logical => shifted_down(alloc, cnf, a, count, zero),
        Shift::Arithmetic => shifted_down(alloc, cnf, a, count, a[a.len() - 1]),
    }
}

/// The bits of a number below 2 to the width.
pub fn number(alloc: Global, value: usize, width: usize, zero: Lit) -> Result<Vec<Lit>, AllocError>
    ensures { IfOk result (λ r. IsConstant zero value width r.items) }
{
    let mut bits = Vec::new(alloc);
    let mut rest = value;
    for _ in 0..width {
        bits.push(flipped(zero, rest % 2 == 1))?;
        rest /= 2;
    }
    Ok(bits)
}

/// A number shifted by a count of its own width. A count of at least the width gives 0.
pub fn shifter(
    alloc: Global,
    cnf: &mut Cnf,
    kind: Shift,
    a: &[Lit],
    count: &[Lit],
) -> Result<Lits, AllocError>
    requires same_width { length a.now ≡ length count.now }
    requires positive { 1 ≤ length a.now }
    requires at_most_64 { length a.now ≤ 64 }
    requires a { IsWithin cnf.old.variables a.now }
    requires count { IsWithin cnf.old.variables count.now }
    ensures grows { GrowsFreely cnf.old cnf.new }
    ensures is { IfOk result (λ r. IsNumber cnf.new (length a.now) r (λ x. shifted kind (length a.now) (value_of a.now x) (value_of count.now x))) }
{
    let zero = constant(alloc, cnf, false)?;
    let moved = shifted_within(alloc, cnf, kind, a, &count[..stages(a.len())], zero)?;
    let width = number(alloc, a.len(), a.len(), zero)?;
    let inside = borrow(alloc, cnf, count, &width)?;
    let bits = masked(alloc, cnf, &moved, inside)?;
    Ok(Lits::new(bits))
}
