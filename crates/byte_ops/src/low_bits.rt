//! The low bits of a node that are the same under each valuation.

ghost use Rattle.std.specs.Prelude.{◌≡◌, ◌+◌, ◌*◌, ◌<◌, ◌≤◌, ◌^◌, ℕ};
ghost use Rattle.words.specs.Operators.{low_bits};
ghost use Rattle.word_dag.specs.Growth.{Within};
ghost use Rattle.word_dag.specs.Meaning.{binary_value};
ghost use Rattle.byte_ops.specs.Known.{IsLow, AreKnown};

use word_dag::{BinaryOperator, Dag, Id, Node};

/// Some of a number's lowest bits: how many, at most 16, and the number that they are.
#[derive(Clone, Copy)]
pub struct LowBits {
    pub count: u32,
    pub bits: u64,
}

// No bit.
fn nothing() -> LowBits
    ensures count { result.count ≡ 0 }
    ensures low { (x : ℕ) → IsLow result x }
{
    LowBits { count: 0, bits: 0 }
}

// So many of the bits.
fn shortened(known: LowBits, count: u32) -> LowBits
    requires fewer { count ≤ known.count }
    requires few { known.count ≤ 16 }
    ensures count { result.count ≡ count }
    ensures bits { result.bits ≡ low_bits count known.bits }
    ensures small { result.bits < 2 ^ 16 }
    ensures low { (x : ℕ) → IsLow known x → IsLow result x }
{
    LowBits {
        count,
        bits: known.bits % (1 << count),
    }
}

// The lowest bits of a number of this width.
fn lowest(bits: u64, width: u32) -> LowBits
    ensures within { result.count ≤ width }
    ensures few { result.count ≤ 16 }
    ensures low { IsLow result bits }
{
    let count = width.min(16);
    LowBits {
        count,
        bits: bits % (1 << count),
    }
}

// The lowest bits in which both agree.
fn agreed(a: LowBits, b: LowBits) -> LowBits
    requires first { a.count ≤ 16 }
    requires second { b.count ≤ 16 }
    ensures fewer { result.count ≤ a.count }
    ensures fewer_second { result.count ≤ b.count }
    ensures bits { result.bits ≡ low_bits result.count a.bits }
    ensures low { (x : ℕ) → IsLow a x → IsLow result x }
    ensures low_second { (x : ℕ) → IsLow b x → IsLow result x }
{
    let most = a.count.min(b.count);
    let mut found = shortened(a, 0);
    'longer: for count in 0..most {
        let next = shortened(a, count + 1);
        let other = shortened(b, count + 1);
        if next.bits != other.bits {
            return found;
        }
        found = next;
    }
    found
}

// The lowest bits that are 0.
fn zeros(known: LowBits) -> LowBits
    requires { known.count ≤ 16 }
    ensures fewer { result.count ≤ known.count }
    ensures zero { result.bits ≡ 0 }
    ensures low { (x : ℕ) → IsLow known x → IsLow result x }
{
    let none = LowBits {
        count: known.count,
        bits: 0,
    };
    agreed(none, known)
}

// The lowest bits of a sum.
fn sum(a: LowBits, b: LowBits) -> LowBits
    requires first { a.count ≤ 16 }
    requires second { b.count ≤ 16 }
    ensures fewer { result.count ≤ a.count }
    ensures low { (x y : ℕ) → IsLow a x → IsLow b y → IsLow result (x + y) }
{
    let count = a.count.min(b.count);
    let first = shortened(a, count);
    let second = shortened(b, count);
    LowBits {
        count,
        bits: (first.bits + second.bits) % (1 << count),
    }
}

// The lowest bits of a product: those that are 0 in one of the factors.
fn product(a: LowBits, b: LowBits) -> LowBits
    requires first { a.count ≤ 16 }
    requires second { b.count ≤ 16 }
    ensures few { result.count ≤ 16 }
    ensures within { (w : ℕ) → a.count ≤ w → b.count ≤ w → result.count ≤ w }
    ensures low { (x y : ℕ) → IsLow a x → IsLow b y → IsLow result (x * y) }
{
    let first = zeros(a);
    let second = zeros(b);
    if first.count < second.count {
        second
    } else {
        first
    }
}

// The lowest bits of what an operation gives.
fn combined(operator: BinaryOperator, a: LowBits, b: LowBits) -> LowBits
    requires first { a.count ≤ 16 }
    requires second { b.count ≤ 16 }
    ensures few { result.count ≤ 16 }
    ensures within { (w : ℕ) → a.count ≤ w → b.count ≤ w → result.count ≤ w }
    ensures low { (w x y : ℕ) → a.count ≤ w → b.count ≤ w → IsLow a x → IsLow b y → IsLow result (binary_value operator w x y) }
{
    match operator {
        BinaryOperator::Add => sum(a, b),
        BinaryOperator::Multiply => product(a, b),
        _ => nothing(),
    }
}

/// Low bits of a node that are the same under each valuation, as far as its operands tell, so many levels down.
pub fn known_bits(dag: &Dag, id: Id, levels: u32) -> LowBits
    requires { Within dag.now id }
    ensures { AreKnown dag.now id result }
{
    if levels == 0 {
        return nothing();
    }
    let _ = dag.nodes();
    match dag.node(id) {
        Node::Constant(bits, width) => lowest(bits, width),
        Node::Cut(a, low, width) => {
            if low > 0 {
                return nothing();
            }
            let known = known_bits(dag, a, levels - 1);
            shortened(known, known.count.min(width))
        }
        Node::Join(_, low) => known_bits(dag, low, levels - 1),
        Node::ZeroExtend(a, _) => known_bits(dag, a, levels - 1),
        Node::Choice(_, a, b) => {
            let first = known_bits(dag, a, levels - 1);
            let second = known_bits(dag, b, levels - 1);
            agreed(first, second)
        }
        Node::Binary(operator, a, b) => {
            let first = known_bits(dag, a, levels - 1);
            let second = known_bits(dag, b, levels - 1);
            combined(operator, first, second)
        }
        _ => nothing(),
    }
}
