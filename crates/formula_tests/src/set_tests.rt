//! Tests of the objects that pointers may point to.

ghost use Rattle.std.specs.Prelude.{◌≡◌, true, IfOk};
ghost use Rattle.goto_prog.specs.UnrolledCode.{is_flat_code};

use crate::formula_tests::store;
use actions::Store;
use c_types::IntegerType;
use goto_prog::{Code, Instruction, Operation, Unrolled};
use points_to::Sets;
use std::alloc::{AllocError, Global};
use std::test::*;

/// The sets of code without pointers.
pub fn no_sets(alloc: Global) -> Result<Sets, AllocError> {
    let code = Code::new(Vec::new(alloc), Vec::new(alloc), Vec::new(alloc), true);
    let unrolled = Unrolled::new(vec![in alloc; code]?, 0, Store::new(alloc));
    Sets::of(alloc, &unrolled)
}

// An object of 8 bytes, which are read by its pointer; then it is freed.
fn pointing(alloc: Global) -> Result<Code, AllocError>
    ensures flat { IfOk result (λ c. is_flat_code c ≡ true) }
{
    let at = |line: u32, operation: Operation| Instruction {
        line,
        function: 0,
        operation,
    };
    let instructions = vec![in alloc;
        at(1, Operation::Constant { into: 0, bits: 8 }),
        at(
            2,
            Operation::Alloc {
                into: 1,
                block: 0,
                size: 0,
                readonly: false,
                heap: true
            }
        ),
        at(
            3,
            Operation::Read {
                block: 0,
                at: 0,
                pointer: 1,
                count: 8
            }
        ),
        at(4, Operation::Free { pointer: 1 }),
        at(5, Operation::Exit),
    ]?;
    let registers = vec![in alloc; IntegerType::UnsignedLong, IntegerType::UnsignedLong]?;
    let blocks = vec![in alloc; 8]?;
    Ok(Code::new(registers, blocks, instructions, true))
}

// Whether the pointer of a place may point to just the objects of these places.
fn are_members(sets: &Sets, place: u32, objects: &[u32]) -> bool {
    (place as usize) < sets.places() && sets.members(place) == objects
}

#[test]
fn each_pointer_may_point_to_each_object(rt: HostRuntime) -> Result<(), Fail> {
    let alloc = rt.alloc();
    let code = pointing(alloc)?;
    let unrolled = Unrolled::new(vec![in alloc; code]?, 0, store(alloc, true)?);
    let sets = Sets::of(alloc, &unrolled)?;
    assert_eq!(rt; sets.places(), 2);
    assert!(rt; are_members(&sets, 0, &[0, 1]));
    assert!(rt; are_members(&sets, 1, &[0, 1]));
    assert_eq!(rt; no_sets(alloc)?.places(), 0);
    Ok(())
}
