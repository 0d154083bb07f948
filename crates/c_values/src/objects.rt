//! Objects that a thread makes.

ghost use Rattle.std.specs.Prelude.{◌≡◌, ◌<◌, ◌^◌, length, IfOk};
ghost use Rattle.c_values.specs.MadeObjects as objects;
ghost use Rattle.c_values.specs.MadeObjects.{held_bytes};

use actions::{Bytes, Cells, Object};
use std::alloc::{AllocError, Global};

/// A live object of these bytes, without cells. Fails only for want of memory, and where there are 2^32 bytes or more.
pub fn made_of(
    alloc: Global,
    readonly: bool,
    heap: bool,
    bytes: Bytes,
) -> Result<Object, AllocError>
    ensures { IfOk result (λ o. o ≡ objects.made_of readonly heap bytes) }
{
    let size = bytes.as_slice().len();
    if size > u32::MAX as usize {
        return Err(AllocError);
    }
    prove_held(bytes.as_slice());
    Ok(Object {
        size: size as u32,
        cells: Cells::new(Vec::new(alloc)),
        live: true,
        readonly,
        heap,
        bytes,
    })
}

// Bytes are held as they are.
fn prove_held(_bytes: &[u8])
    requires { length _bytes.now < 2 ^ 32 }
    ensures { held_bytes _bytes.now ≡ _bytes.now }
{}
