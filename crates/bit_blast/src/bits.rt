//! The bits of a node, as literals.

#![tactic(auto, using(gate_arith::proofs::Steps::steps))]

ghost use Rattle.std.specs.Prelude.{◌≡◌, ℕ, ◌+◌, ◌^◌, ◌<◌, ◌≤◌, true, Bool, [], ◌∷◌, ◌++◌, IfOk, OnOk, length, replicate, if◌then◌else◌};
ghost use Rattle.sat_form.specs.Satisfaction.{Form, literal_value, Satisfies, IsWithin, inverse_of};
ghost use Rattle.sat_form.specs.Numbers.{value_of};
ghost use Rattle.words.specs.Operators.{low_bits, logical_shift, sign_extension};
ghost use Rattle.word_dag.specs.Meaning.{joined};
ghost use Rattle.gate_bits.specs.Growth.{known_part};
ghost use Rattle.gate_arith.specs.Growth.{Grows, added_to};
ghost use Rattle.gate_bits.specs.Truth.{IsTruth, IsNumber};

use gate_bits::Lits;
use sat_form::{Cnf, Lit};
use std::alloc::{AllocError, Global};

// Says once more that the literal is true, which the form's first clause says alone.
fn state(alloc: Global, cnf: &mut Cnf, one: Lit) -> Result<(), AllocError>
    requires one { IsTruth (known_part cnf.old) one (λ _. true) }
    ensures grows { Grows cnf.old cnf.new }
    ensures is { OnOk result (IsTruth (added_to cnf.old cnf.new) one (λ _. true)) }
{
    cnf.add(alloc, &[one])?;
    Ok(())
}

// The literal that has this truth, by one that is true.
fn known(one: Lit, truth: bool) -> Lit
    ensures { result ≡ (if truth then one else inverse_of one) }
{
    if truth { one } else { one.inverse() }
}

// The bits of a number, by a literal that is true.
fn number(alloc: Global, bits: u64, width: u32, one: Lit) -> Result<Lits, AllocError>
    requires { bits < 2 ^ width }
    ensures { IfOk result (λ r. (form : Form) → IsTruth form one (λ _. true) → IsNumber form width r (λ _. bits)) }
{
    let mut literals = Vec::with_capacity(alloc, width as usize)?;
    let mut rest = bits;
    for _ in 0..width {
        literals.push(known(one, rest % 2 == 1))?;
        rest /= 2;
    }
    Ok(Lits::new(literals))
}

// The literals, and copies of one above them, up to this width.
fn padded(alloc: Global, a: &[Lit], width: u32, fill: Lit) -> Result<Lits, AllocError>
    requires { length a.now ≤ width }
    ensures { IfOk result (λ r. (count : ℕ) × (length a.now + count ≡ width) × (r ≡ a.now ++ replicate count fill)) }
{
    let mut literals = Vec::with_capacity(alloc, width as usize)?;
    literals.extend_from_slice(a)?;
    literals.resize(width as usize, fill)?;
    Ok(Lits::new(literals))
}

/// The literals of a constant.
pub fn constant(
    alloc: Global,
    cnf: &mut Cnf,
    bits: u64,
    width: u32,
    one: Lit,
) -> Result<Lits, AllocError>
    requires bits { bits < 2 ^ width }
    requires one { IsTruth (known_part cnf.old) one (λ _. true) }
    ensures grows { Grows cnf.old cnf.new }
    ensures is { IfOk result (λ r. IsNumber (added_to cnf.old cnf.new) width r (λ _. bits)) }
{
    let literals = number(alloc, bits, width, one)?;
    state(alloc, cnf, one)?;
    Ok(literals)
}

/// The literals of the same unsigned number at this width.
pub fn zero_extended(
    alloc: Global,
    cnf: &mut Cnf,
    a: &[Lit],
    width: u32,
    one: Lit,
) -> Result<Lits, AllocError>
    requires wider { length a.now ≤ width }
    requires one { IsTruth (known_part cnf.old) one (λ _. true) }
    requires a { IsWithin cnf.old.variables a.now }
    ensures grows { Grows cnf.old cnf.new }
    ensures is { IfOk result (λ r. IsNumber (added_to cnf.old cnf.new) width r (λ x. value_of a.now x)) }
{
    let literals = padded(alloc, a, width, one.inverse())?;
    state(alloc, cnf, one)?;
    Ok(literals)
}

/// The literals of the same signed number at this width.
pub fn sign_extended(alloc: Global, a: &[Lit], width: u32) -> Result<Lits, AllocError>
    requires positive { 1 ≤ length a.now }
    requires wider { length a.now ≤ width }
    ensures { IfOk result (λ r. (form : Form) → IsWithin form.variables a.now → IsNumber form width r (λ x. sign_extension (length a.now) width (value_of a.now x))) }
{
    let literals = padded(alloc, a, width, a[a.len() - 1])?;
    Ok(literals)
}

/// The literals from `low` on, as many as `width` says.
pub fn cut(alloc: Global, a: &[Lit], low: u32, width: u32) -> Result<Lits, AllocError>
    requires { low + width ≤ length a.now }
    ensures { IfOk result (λ r. (form : Form) → IsWithin form.variables a.now → IsNumber form width r (λ x. low_bits width (logical_shift (value_of a.now x) low))) }
{
    let first = low as usize;
    let last = first + width as usize;
    Ok(Lits::new(Vec::from_slice(alloc, &a[first..last])?))
}

/// The literals of the first word above those of the second.
pub fn join(alloc: Global, high: &[Lit], low: &[Lit]) -> Result<Lits, AllocError>
    requires { length high.now + length low.now ≤ 64 }
    ensures { IfOk result (λ r. (form : Form) → IsWithin form.variables high.now → IsWithin form.variables low.now → IsNumber form (length high.now + length low.now) r (λ x. joined (length low.now) (value_of high.now x) (value_of low.now x))) }
{
    let mut literals = Vec::with_capacity(alloc, high.len() + low.len())?;
    literals.extend_from_slice(low)?;
    literals.extend_from_slice(high)?;
    Ok(Lits::new(literals))
}
