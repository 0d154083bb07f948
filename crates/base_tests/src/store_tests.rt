//! Tests of the store and of what actions do to it.

// The answers of a store.

use actions::{AccessError, Bytes, Cell, Cells, Object, Store};
use std::alloc::{AllocError, Global};
use std::test::Fail;
use words::Class;

// Eight bytes; where they are shared, two cells of four.
fn object(alloc: Global, shared: bool, readonly: bool, heap: bool) -> Result<Object, AllocError> {
    let cells = if shared {
        Vec::from_slice(
            alloc,
            &[Cell { offset: 0, size: 4 }, Cell { offset: 4, size: 4 }],
        )?
    } else {
        Vec::new(alloc)
    };
    Ok(Object {
        size: 8,
        cells: Cells::new(cells),
        live: true,
        readonly,
        heap,
        bytes: Bytes::new(Vec::from_slice(alloc, &[1, 2, 3, 4, 5, 6, 7, 8])?),
    })
}

// The pointer to an offset of the object with this number.
fn pointer(number: u32, offset: u32) -> u64 {
    number as u64 * 0x1_0000_0000 + offset as u64
}

// Objects 1 and 2 are shared, 2 is read-only, 3 comes from malloc and isn't shared, and 4 is dead.
fn store(alloc: Global) -> Result<Store, AllocError> {
    let mut store = Store::new(alloc);
    if !store.contains(1) {
        store.add(1, object(alloc, true, false, false)?)?;
    }
    if !store.contains(2) {
        store.add(2, object(alloc, true, true, false)?)?;
    }
    if !store.contains(3) {
        store.add(3, object(alloc, false, false, true)?)?;
    }
    if !store.contains(4) {
        store.add(4, object(alloc, false, false, true)?)?;
    }
    store.die(4);
    Ok(store)
}

// A pointer and a number of bytes; what a read gives, and what a write breaks.
type Accessed = (u32, u32, u32, Result<u8, Class>, Result<(), Class>);

static ACCESSES: [Accessed; 14] = [
    (0, 0, 4, Err(Class::Null), Err(Class::Null)),
    (0, 9, 0, Err(Class::Null), Err(Class::Null)),
    (
        5,
        9,
        9,
        Err(Class::InvalidPointer),
        Err(Class::InvalidPointer),
    ),
    (4, 9, 9, Err(Class::Lifetime), Err(Class::Lifetime)),
    (2, 5, 4, Err(Class::Bounds), Err(Class::Bounds)),
    (2, 2, 4, Err(Class::MixedSize), Err(Class::Readonly)),
    (1, 2, 4, Err(Class::MixedSize), Err(Class::MixedSize)),
    (1, 0, 8, Err(Class::MixedSize), Err(Class::MixedSize)),
    (2, 4, 4, Ok(5), Err(Class::Readonly)),
    (1, 4, 4, Ok(5), Ok(())),
    (1, 4, 4, Ok(9), Ok(())),
    (3, 7, 1, Ok(8), Ok(())),
    (3, 0, 8, Ok(1), Ok(())),
    (3, 8, 1, Err(Class::Bounds), Err(Class::Bounds)),
];

// Whether a read of so many bytes gives this first one, or breaks this class.
fn reads(store: &Store, p: u64, n: u32, want: Result<u8, Class>) -> bool {
    match (store.read(p, n), want) {
        (Ok(bytes), Ok(first)) => {
            let bytes = bytes.into_vec();
            bytes.len() == n as usize && bytes.as_slice().first() == Some(&first)
        }
        (Err(AccessError::Broken(class)), Err(want)) => class == want,
        _ => false,
    }
}

// The first row whose read or write does something else.
fn wrong_access(store: &mut Store, rows: &[Accessed]) -> Option<usize> {
    let new = [9u8; 9];
    for (i, (number, offset, n, read, write)) in rows.iter().enumerate() {
        let p = pointer(*number, *offset);
        let count = (*n as usize).min(new.len());
        if !reads(store, p, *n, *read) || store.write(p, &new[..count], false) != *write {
            return Some(i);
        }
    }
    None
}

#[test]
fn accesses_break_the_first_class(rt: HostRuntime) -> Result<(), Fail> {
    let mut store = store(rt.alloc())?;
    assert_eq!(rt; wrong_access(&mut store, &ACCESSES), None);
    assert_eq!(rt; store.write(pointer(2, 4), &[7; 4], true), Ok(()));
    assert_eq!(rt; store.read(pointer(2, 4), 4)?.as_slice(), [7; 4].as_slice());
    Ok(())
}

// A pointer; what a look gives, and then what `free` breaks.
type Looked = (u32, u32, Result<u32, Class>, Result<(), Class>);

static LOOKS: [Looked; 8] = [
    (0, 0, Err(Class::Null), Ok(())),
    (0, 1, Err(Class::Null), Err(Class::Free)),
    (5, 0, Err(Class::InvalidPointer), Err(Class::Free)),
    (4, 0, Err(Class::Lifetime), Err(Class::Free)),
    (1, 0, Ok(8), Err(Class::Free)),
    (3, 4, Ok(8), Err(Class::Free)),
    (3, 0, Ok(8), Ok(())),
    (3, 0, Err(Class::Lifetime), Err(Class::Free)),
];

// The first row whose look or `free` does something else.
fn wrong_look(store: &mut Store, rows: &[Looked]) -> Option<usize> {
    for (i, (number, offset, look, free)) in rows.iter().enumerate() {
        let p = pointer(*number, *offset);
        if store.look(p) != *look || store.free(p) != *free {
            return Some(i);
        }
    }
    None
}

#[test]
fn looks_frees_and_mutexes(rt: HostRuntime) -> Result<(), Fail> {
    let mut store = store(rt.alloc())?;
    assert_eq!(rt; store.len(), 4);
    assert_eq!(rt; wrong_look(&mut store, &LOOKS), None);
    assert_eq!(rt; store.mutex(pointer(1, 0)), Ok(0x0403_0201));
    assert_eq!(rt; store.mutex(pointer(2, 0)), Err(Class::Readonly));
    Ok(())
}
