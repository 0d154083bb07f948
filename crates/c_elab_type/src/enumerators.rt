//! Enumerators.

ghost use Rattle.std.specs.Prelude.{◌≡◌, ◌≤◌, length, map, option_map, pos, None, OnOk};
ghost use Rattle.words.specs.Operators.{fits_width};
ghost use Rattle.core_tree.specs.Operations.{number};
ghost use Rattle.c_tree.specs.Tree.{view as tree, boxed};
ghost use Rattle.c_tree.specs.Declarations.{view_enumerator};
ghost use Rattle.c_scope.specs.Faults.{Gives, on_line};
ghost use Rattle.c_elab_type.specs.Enumerations.{int_bits, given_bits, next_bits, enumerator_value, enumerator_node, typed_enumerator, typed_enumerators};

use c_elab_base::{Region, earlier};
use c_elab_expr::operand;
use c_operands::constant_in;
use c_scope::{Meaning, Scope, TypingError};
use c_tree::{Enumerator, Expr};
use c_types::IntegerType;
use c_values::Number;
use std::alloc::Global;
use words::Word;

const MOST: u32 = 0x7fff_ffff;

fn is_int(number: i64) -> bool
    ensures { result ≡ fits_width 32 number }
{
    -0x8000_0000 <= number && number <= 0x7fff_ffff
}

fn is_small(number: u64) -> bool
    ensures { result ≡ fits_width 32 (pos number) }
{
    number <= MOST as u64
}

fn fits_int(value: Number) -> bool
    ensures { result ≡ fits_width 32 (number value.type value.bits) }
{
    let type_ = value.type_of();
    if type_.is_signed() {
        is_int(Word::new(value.bits(), type_.width()).signed())
    } else {
        is_small(value.bits())
    }
}

// The bits of an int with the number, if there is one.
fn int_bits(value: Number) -> Option<u32>
    ensures { result ≡ int_bits value }
{
    if fits_int(value) {
        Some(value.converted(IntegerType::Int).bits() as u32)
    } else {
        None
    }
}

fn next_bits(previous: Option<u32>) -> Option<u32>
    ensures { result ≡ next_bits previous }
{
    match previous {
        None => Some(0),
        Some(bits) => {
            if bits == MOST {
                None
            } else {
                Some(bits.wrapping_add(1))
            }
        }
    }
}

// An integer constant expression has a number.
fn given_bits(value: Option<Number>) -> Option<u32>
    ensures { result ≡ given_bits value }
{
    int_bits(value?)
}

// The bits of an enumerator behind one with these, if it has a value: a given one is an integer constant expression, and an int has it.
fn enumerator_value(
    alloc: Global,
    value: &Option<Box<Expr>>,
    previous: Option<u32>,
    scope: &Scope,
) -> Result<Option<u32>, TypingError>
    ensures { Gives (λ o. o) result (enumerator_value scope.now previous (option_map boxed value.now)) }
{
    match value {
        None => Ok(next_bits(previous)),
        Some(expr) => {
            let core = operand(alloc, expr, scope)?;
            Ok(given_bits(constant_in(&core)))
        }
    }
}

fn enumerator_node(
    earlier: Option<Meaning>,
    value: Option<u32>,
    line: u32,
) -> Result<u32, TypingError>
    ensures { Gives (λ b. b) result (on_line line (enumerator_node earlier value)) }
{
    match earlier {
        Some(_) => Err(TypingError::Typing { line, rule: 2 }),
        None => match value {
            Some(bits) => Ok(bits),
            None => Err(TypingError::Typing { line, rule: 13 }),
        },
    }
}

fn typed_enumerator(
    alloc: Global,
    enumerator: &Enumerator,
    previous: Option<u32>,
    region: Region,
    scope: &mut Scope,
) -> Result<u32, TypingError>
    requires { region.outer ≤ length scope.old.bindings }
    ensures gives { Gives (λ b. (b, scope.new)) result (typed_enumerator region scope.old previous (view_enumerator enumerator.now)) }
    ensures within { OnOk result (region.outer ≤ length scope.new.bindings) }
    ensures same { OnOk result (scope.new.records ≡ scope.old.records) }
{
    let value = enumerator_value(alloc, &enumerator.value, previous, scope)?;
    let earlier = earlier(&enumerator.name.bytes, region, scope);
    let bits = enumerator_node(earlier, value, enumerator.line)?;
    scope.declare(alloc, &enumerator.name.bytes, Meaning::Enumerator { bits })?;
    Ok(bits)
}

/// Enumerators in order.
pub fn typed_enumerators(
    alloc: Global,
    enumerators: &[Enumerator],
    region: Region,
    scope: &mut Scope,
) -> Result<(), TypingError>
    requires { region.outer ≤ length scope.old.bindings }
    ensures gives { Gives (λ u. scope.new) result (typed_enumerators region scope.old None (map view_enumerator enumerators.now)) }
    ensures within { OnOk result (region.outer ≤ length scope.new.bindings) }
    ensures same { OnOk result (scope.new.records ≡ scope.old.records) }
{
    let mut previous = None;
    for enumerator in enumerators {
        let bits = typed_enumerator(alloc, enumerator, previous, region, scope)?;
        previous = Some(bits);
    }
    Ok(())
}
