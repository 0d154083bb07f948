//! Tests of turns of several threads.

// Turns of scripts.

use actions::{Bytes, Cell, Cells, DrawBits, Object, Store};
use interleave::{Inputs, Outcome, Schedule, Script, Step, System, Trace, Turn, Words};
use std::alloc::{AllocError, Global};
use std::test::Fail;
use words::{Check, Class};

// Object 1 is shared: a byte at 0 and a mutex at 4. Object 2 is a read-only byte.
fn store(alloc: Global) -> Result<Store, AllocError> {
    let mut store = Store::new(alloc);
    let cells = Vec::from_slice(
        alloc,
        &[Cell { offset: 0, size: 1 }, Cell { offset: 4, size: 4 }],
    )?;
    let shared = Object {
        size: 8,
        cells: Cells::new(cells),
        live: true,
        readonly: false,
        heap: false,
        bytes: Bytes::new(Vec::from_slice(alloc, &[0; 8])?),
    };
    if !store.contains(1) {
        store.add(1, shared)?;
    }
    let constant = Object {
        size: 1,
        cells: Cells::new(Vec::new(alloc)),
        live: true,
        readonly: true,
        heap: false,
        bytes: Bytes::new(Vec::from_slice(alloc, &[7])?),
    };
    if !store.contains(2) {
        store.add(2, constant)?;
    }
    Ok(store)
}

// How a run of this script by this schedule ends, and how many of its turns moved and did nothing.
fn run(
    alloc: Global,
    steps: &[Step],
    inputs: &Inputs,
    schedule: &[u32],
) -> Result<(Outcome, usize, usize), AllocError> {
    let mut system = System::new(alloc, Script::new(alloc, steps), store(alloc)?)?;
    let mut moved: usize = 0;
    let mut nothing: usize = 0;
    for t in schedule {
        if !system.has_numbers(*t)? {
            return Ok((Outcome::Fine, usize::MAX, moved));
        }
        match system.turn(*t, inputs)? {
            Turn::Moved => moved = moved.saturating_add(1),
            Turn::Nothing => nothing = nothing.saturating_add(1),
            Turn::Broken(check) => return Ok((Outcome::Broken(check), moved, nothing)),
        }
    }
    Ok((Outcome::Fine, moved, nothing))
}

const BYTE: u64 = 0x1_0000_0000;

const MUTEX: u64 = 0x1_0000_0004;

const CONSTANT: u64 = 0x2_0000_0000;

fn breaks(class: Class, thread: u32) -> Outcome {
    Outcome::Broken(Check {
        class,
        line: 1,
        function: 0,
        thread,
    })
}

// Two threads that add 1 to a byte, each by a read and a write, and main that wants 2.
const COUNTING: [Step; 10] = [
    Step::Create(7),
    Step::Create(7),
    Step::Join(1),
    Step::Join(2),
    Step::Read(BYTE),
    Step::Assert(2),
    Step::Exit,
    Step::Read(BYTE),
    Step::Write(BYTE),
    Step::End(0),
];

// The same with a mutex.
const LOCKED: [Step; 12] = [
    Step::Create(7),
    Step::Create(7),
    Step::Join(1),
    Step::Join(2),
    Step::Read(BYTE),
    Step::Assert(2),
    Step::Exit,
    Step::Lock(MUTEX),
    Step::Read(BYTE),
    Step::Write(BYTE),
    Step::Unlock(MUTEX),
    Step::End(0),
];

// The same with a section.
const SECTION: [Step; 12] = [
    Step::Create(7),
    Step::Create(7),
    Step::Join(1),
    Step::Join(2),
    Step::Read(BYTE),
    Step::Assert(2),
    Step::Exit,
    Step::SectionBegin,
    Step::Read(BYTE),
    Step::Write(BYTE),
    Step::SectionEnd,
    Step::End(0),
];

// How a run ends whose last step breaks this class in thread 0, or that nothing breaks.
fn ending(class: Option<Class>) -> Outcome {
    match class {
        None => Outcome::Fine,
        Some(class) => breaks(class, 0),
    }
}

// A script and a schedule; the class that the run breaks, or none; how many turns moved, and how many did nothing.
type Scheduled<'a> = (&'a [Step], &'a [u32], Option<Class>, usize, usize);

// The first row whose run ends otherwise.
fn wrong_schedule(
    alloc: Global,
    inputs: &Inputs,
    rows: &[Scheduled<'_>],
) -> Result<Option<usize>, AllocError> {
    for (i, (steps, schedule, class, moved, nothing)) in rows.iter().enumerate() {
        if run(alloc, steps, inputs, schedule)? != (ending(*class), *moved, *nothing) {
            return Ok(Some(i));
        }
    }
    Ok(None)
}

#[test]
fn schedules(rt: HostRuntime) -> Result<(), Fail> {
    let alloc = rt.alloc();
    let inputs = Inputs::new(alloc);
    let exits = [Step::Create(2), Step::Exit, Step::Read(BYTE), Step::Exit];
    let rows: [Scheduled<'_>; 8] = [
        // One thread after the other, main waiting in its joins: 2.
        (
            &COUNTING,
            &[0, 0, 0, 1, 1, 1, 0, 0, 2, 2, 2, 0, 0, 0, 0],
            None,
            13,
            2,
        ),
        // Both read before they write: the update of one is lost.
        (
            &COUNTING,
            &[0, 0, 1, 2, 1, 2, 1, 2, 0, 0, 0, 0, 0],
            Some(Class::Assertion),
            11,
            0,
        ),
        // Thread 2 waits for the mutex that thread 1 holds.
        (
            &LOCKED,
            &[0, 0, 1, 2, 1, 2, 1, 2, 1, 2, 2, 2, 2, 2, 1, 0, 0, 0, 0, 0],
            None,
            17,
            3,
        ),
        // Nobody moves while thread 1 is in its section.
        (
            &SECTION,
            &[
                0, 0, 1, 2, 0, 1, 2, 1, 0, 1, 2, 2, 2, 2, 2, 1, 0, 0, 0, 0, 0,
            ],
            None,
            17,
            4,
        ),
        // Threads that aren't there.
        (&COUNTING, &[1, 2, 65536, 0], None, 1, 3),
        // An exit of one thread ends the process.
        (&exits, &[0, 1, 1, 0, 1], None, 3, 2),
        // A thread that has ended moves no more, and a second join of it returns at once.
        (
            &[
                Step::Create(4),
                Step::Join(1),
                Step::Join(1),
                Step::Exit,
                Step::End(5),
            ],
            &[0, 0, 1, 1, 0, 0, 0],
            None,
            5,
            2,
        ),
        // A lock by its holder waits.
        (
            &[Step::Lock(MUTEX), Step::Lock(MUTEX)],
            &[0, 0, 0],
            None,
            1,
            2,
        ),
    ];
    assert_eq!(rt; wrong_schedule(alloc, &inputs, &rows)?, None);
    let trace = Trace {
        inputs,
        schedule: Schedule::new(Vec::from_slice(alloc, &[0, 1])?),
        check: Check {
            class: Class::Join,
            line: 1,
            function: 0,
            thread: 1,
        },
    };
    assert_eq!(rt; trace.schedule.as_slice(), [0, 1].as_slice());
    assert!(rt; trace.inputs.words(1).is_empty());
    Ok(())
}

// A script of thread 0 alone; the class that its last step breaks, or none.
type Broken<'a> = (&'a [Step], Option<Class>);

// The first row whose run breaks another class, has a turn that does nothing, or stops elsewhere.
fn wrong_break(
    alloc: Global,
    inputs: &Inputs,
    rows: &[Broken<'_>],
) -> Result<Option<usize>, AllocError> {
    let schedule = [0, 0, 0, 0];
    for (i, (steps, class)) in rows.iter().enumerate() {
        let length = steps.len().min(4);
        let moved = steps.len().saturating_sub(class.is_some() as usize);
        if run(alloc, steps, inputs, &schedule[..length])? != (ending(*class), moved, 0) {
            return Ok(Some(i));
        }
    }
    Ok(None)
}

#[test]
fn breaks_and_draws(rt: HostRuntime) -> Result<(), Fail> {
    let alloc = rt.alloc();
    let mut inputs = Inputs::new(alloc);
    inputs.insert(0, Words::new(Vec::from_slice(alloc, &[0x1234, u64::MAX])?))?;
    assert_eq!(rt; inputs.words(0).len(), 2);
    assert_eq!(rt; inputs.lists().len(), 1);
    let byte = DrawBits::new(8);
    let bit = DrawBits::new(1);
    let rows: [Broken<'_>; 21] = [
        (
            &[
                Step::Draw(byte),
                Step::Assert(0x34),
                Step::Draw(bit),
                Step::Assert(1),
            ],
            None,
        ),
        (
            &[
                Step::Draw(byte),
                Step::Draw(byte),
                Step::Draw(byte),
                Step::Assert(0),
            ],
            None,
        ),
        (&[Step::Assert(1)], Some(Class::Assertion)),
        (&[Step::Look(0, true)], Some(Class::Null)),
        (&[Step::Look(0, false)], Some(Class::Pointer)),
        (&[Step::Read(0x9_0000_0000)], Some(Class::InvalidPointer)),
        (&[Step::Die(1), Step::Read(BYTE)], Some(Class::Lifetime)),
        (
            &[Step::Die(9), Step::Read(0x9_0000_0000)],
            Some(Class::InvalidPointer),
        ),
        (&[Step::Read(CONSTANT + 1)], Some(Class::Bounds)),
        (
            &[Step::Read(CONSTANT), Step::Assert(7), Step::Write(CONSTANT)],
            Some(Class::Readonly),
        ),
        (&[Step::Read(BYTE + 1)], Some(Class::MixedSize)),
        (&[Step::Lock(BYTE)], Some(Class::MixedSize)),
        (&[Step::Free(0), Step::Free(BYTE)], Some(Class::Free)),
        // The first store has two objects, so thread 0's next one is number 3.
        (
            &[
                Step::Alloc,
                Step::Look(0x3_0000_0000, true),
                Step::Free(0x3_0000_0000),
                Step::Look(0x3_0000_0000, true),
            ],
            Some(Class::Lifetime),
        ),
        (&[Step::Unlock(MUTEX)], Some(Class::Mutex)),
        (
            &[Step::MutexDestroy(MUTEX), Step::Lock(MUTEX)],
            Some(Class::Mutex),
        ),
        (
            &[
                Step::MutexDestroy(MUTEX),
                Step::MutexInit(MUTEX),
                Step::Lock(MUTEX),
                Step::MutexDestroy(MUTEX),
            ],
            Some(Class::Mutex),
        ),
        (&[Step::Join(0)], Some(Class::Join)),
        (&[Step::Join(1)], Some(Class::Join)),
        (
            &[
                Step::SectionBegin,
                Step::SectionEnd,
                Step::SectionBegin,
                Step::Exit,
            ],
            None,
        ),
        (&[Step::End(3)], None),
    ];
    assert_eq!(rt; wrong_break(alloc, &inputs, &rows)?, None);
    Ok(())
}
