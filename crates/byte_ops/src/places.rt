//! The places at which an offset can be, each with a test.

ghost use Rattle.std.specs.Prelude.{◌≡◌, ◌==◌, ◌<◌, ◌≤◌, ◌^◌, ℕ, IfOk};
ghost use Rattle.word_dag.specs.Growth.{Extends};
ghost use Rattle.value_nodes.specs.Values.{IsWord};
ghost use Rattle.byte_ops.specs.Tests.{IsPlaceTest, IsTestedOffset};

use crate::low_bits::known_bits;
use std::alloc::{AllocError, Global};
use value_nodes::equal;
use word_dag::{Dag, Id, Node};

/// A place of a block, and the truth value of whether an offset is that place.
#[derive(Clone, Copy)]
pub struct PlaceTest {
    pub at: usize,
    pub test: Id,
}

/// An offset, and the tests of the places below a size at which it can be.
#[derive(Drop)]
pub struct TestedOffset {
    pub offset: Id,
    pub size: usize,
    pub tests: Vec<PlaceTest>,
}

// How far down the nodes are looked at for low bits that are known.
const LEVELS: u32 = 8;

fn place_test(dag: &mut Dag, offset: Id, at: usize) -> Result<PlaceTest, AllocError>
    requires offset { IsWord dag.old offset 32 }
    requires at { at < 2 ^ 32 }
    ensures extends { Extends dag.old dag.new }
    ensures at { IfOk result (λ t. t.at ≡ at) }
    ensures made { IfOk result (IsPlaceTest dag.new offset) }
{
    let place = dag.make(Node::Constant(at as u64, 32))?;
    let test = equal(dag, offset, place, 32)?;
    Ok(PlaceTest { at, test })
}

/// The tests of an offset of 32 bits for the places below a size. A place that differs from it in a low bit which is known
/// has none. The only error is that there is no memory.
pub fn tested_offset(
    alloc: Global,
    dag: &mut Dag,
    offset: Id,
    size: usize,
) -> Result<TestedOffset, AllocError>
    requires offset { IsWord dag.old offset 32 }
    requires size { size ≤ 2 ^ 32 }
    ensures extends { Extends dag.old dag.new }
    ensures offset { IfOk result (λ o. o.offset ≡ offset) }
    ensures size { IfOk result (λ o. o.size ≡ size) }
    ensures made { IfOk result (IsTestedOffset dag.new) }
{
    let known = known_bits(dag, offset, LEVELS);
    let step = 1usize << known.count;
    let mut tests = Vec::new(alloc);
    let mut at = known.bits as usize;
    'places: while at < size {
        let test = place_test(dag, offset, at)?;
        tests.push(test)?;
        at += step;
    }
    Ok(TestedOffset {
        offset,
        size,
        tests,
    })
}
