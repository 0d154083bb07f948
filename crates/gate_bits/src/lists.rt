//! Lists of literals.

#![tactic(auto, using(crate::proofs::Growing::growth))]

ghost use Rattle.std.specs.Prelude.{◌≡◌, ◌-◌, ◌<◌, ◌≤◌, ◌++◌, IfOk, length, map, take, drop, replicate, if◌then◌else◌};
ghost use Rattle.sat_form.specs.Satisfaction.{literal_value, IsWithin};
ghost use Rattle.sat_form.specs.Numbers.{value_of};
ghost use Rattle.gate_bits.specs.Growth.{GrowsFreely};
ghost use Rattle.gate_bits.specs.Truth.{IsNumber, AreTruths, differs};

use crate::gates::{and, choose, xor};
use sat_form::{Cnf, Lit};
use std::alloc::{AllocError, Global};

/// The number where `mask` is true, else 0.
pub fn masked(alloc: Global, cnf: &mut Cnf, bits: &[Lit], mask: Lit) -> Result<Vec<Lit>, AllocError>
    requires bits { IsWithin cnf.old.variables bits.now }
    requires mask { mask.variable < cnf.old.variables }
    ensures grows { GrowsFreely cnf.old cnf.new }
    ensures is { IfOk result (λ r. IsNumber cnf.new (length bits.now) r.items (λ x. if literal_value x mask then value_of bits.now x else 0)) }
{
    let mut kept = Vec::new(alloc);
    for bit in bits {
        kept.push(and(alloc, cnf, *bit, mask)?)?;
    }
    Ok(kept)
}

/// The bits of `yes` where `test` is true, else those of `no`.
pub fn chosen(
    alloc: Global,
    cnf: &mut Cnf,
    test: Lit,
    yes: &[Lit],
    no: &[Lit],
) -> Result<Vec<Lit>, AllocError>
    requires same_width { length yes.now ≡ length no.now }
    requires test { test.variable < cnf.old.variables }
    requires yes { IsWithin cnf.old.variables yes.now }
    requires no { IsWithin cnf.old.variables no.now }
    ensures grows { GrowsFreely cnf.old cnf.new }
    ensures is { IfOk result (λ r. AreTruths cnf.new (length yes.now) r.items (λ x. if literal_value x test then map (literal_value x) yes.now else map (literal_value x) no.now)) }
{
    let mut bits = Vec::new(alloc);
    for (i, x) in yes.iter().enumerate() {
        bits.push(choose(alloc, cnf, test, *x, no[i])?)?;
    }
    Ok(bits)
}

/// Each bit, turned over where `by` is true.
pub fn turned(alloc: Global, cnf: &mut Cnf, bits: &[Lit], by: Lit) -> Result<Vec<Lit>, AllocError>
    requires bits { IsWithin cnf.old.variables bits.now }
    requires by { by.variable < cnf.old.variables }
    ensures grows { GrowsFreely cnf.old cnf.new }
    ensures is { IfOk result (λ r. AreTruths cnf.new (length bits.now) r.items (λ x. map (λ l. differs (literal_value x by) (literal_value x l)) bits.now)) }
{
    let mut flipped = Vec::new(alloc);
    for bit in bits {
        flipped.push(xor(alloc, cnf, by, *bit)?)?;
    }
    Ok(flipped)
}

/// The bits moved up by `distance`, with `fill` below them; as many as there were.
pub fn moved_up(
    alloc: Global,
    bits: &[Lit],
    distance: usize,
    fill: Lit,
) -> Result<Vec<Lit>, AllocError>
    requires { distance ≤ length bits.now }
    ensures { IfOk result (λ r. r.items ≡ replicate distance fill ++ take (length bits.now - distance) bits.now) }
{
    let mut moved = vec![in alloc; fill; distance]?;
    moved.extend_from_slice(&bits[..bits.len() - distance])?;
    Ok(moved)
}

/// The bits moved down by `distance`, with `fill` above them; as many as there were.
pub fn moved_down(
    alloc: Global,
    bits: &[Lit],
    distance: usize,
    fill: Lit,
) -> Result<Vec<Lit>, AllocError>
    requires { distance ≤ length bits.now }
    ensures { IfOk result (λ r. r.items ≡ drop distance bits.now ++ replicate distance fill) }
{
    let mut moved = bits[distance..].to_vec(alloc)?;
    for _ in 0..distance {
        moved.push(fill)?;
    }
    Ok(moved)
}
