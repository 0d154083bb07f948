//! The machines of all stages, run side by side.

// Runs of C text on the machine of the typed source and on those of its flat code.

ghost use Rattle.std.specs.Prelude.{◌≤◌};

use crate::homes::with_homes;
use actions::{Machine, Store};
use c_elab_decl::elaborate;
use c_interp::run;
use c_lexer::lex;
use c_meaning::are_storable;
use c_parse_decl::parse;
use c_profile::{Admitted, admit};
use core_tree::{Bounds, Core};
use goto_checks::insert;
use goto_lower::lower;
use goto_prog::{PlainThread, StrictThread, UnrolledThread};
use goto_unwind::unwind;
use interleave::{Inputs, Outcome, Schedule, System, Turn, Words};
use std::alloc::{AllocError, Global};
use std::test::Fail;

// The typed tree of a text.
fn elaborated(alloc: Global, text: &[u8]) -> Result<Core, Fail> {
    if text.len() > 10_000_000 {
        return Err(Fail::from("too long"));
    }
    let tokens = lex(alloc, text)?;
    let file = parse(alloc, &tokens)?;
    Ok(elaborate(alloc, &file)?)
}

fn kept(alloc: Global, core: Core) -> Result<Admitted, Fail> {
    match admit(alloc, core) {
        Ok(file) => Ok(file),
        Err(_) => Err(Fail::from("outside of the profile")),
    }
}

// The typed file of a text.
pub fn admitted(alloc: Global, text: &[u8]) -> Result<Admitted, Fail> {
    kept(alloc, elaborated(alloc, text)?)
}

// The same with an address for each variable whose number in its function is a multiple of this.
pub fn admitted_with_homes(alloc: Global, text: &[u8], every: usize) -> Result<Admitted, Fail>
    requires { 1 ≤ every }
{
    match with_homes(alloc, elaborated(alloc, text)?, every)? {
        Some(core) => kept(alloc, core),
        None => Err(Fail::from("not typed with homes")),
    }
}

// How the run of a machine from this store ends on these inputs by this schedule.
fn end_of<M: Machine>(
    alloc: Global,
    first: M,
    store: &Store,
    script: &Script,
) -> Result<Outcome, AllocError> {
    let mut system = System::new(alloc, first, store.clone()?)?;
    for t in script.schedule.as_slice() {
        if !system.has_numbers(*t)? {
            return Ok(Outcome::Fine);
        }
        if let Turn::Broken(check) = system.turn(*t, &script.inputs)? {
            return Ok(Outcome::Broken(check));
        }
    }
    Ok(Outcome::Fine)
}

// The words of ints.
fn words_of(alloc: Global, ints: &[i32]) -> Result<Words, AllocError> {
    let mut words = Vec::new(alloc);
    for int in ints {
        words.push(u32::from_le_bytes(int.to_le_bytes()) as u64)?;
    }
    Ok(Words::new(words))
}

// The inputs of thread 0, and turns of it.
#[derive(Drop)]
struct Script {
    inputs: Inputs,
    schedule: Schedule,
}

fn script_of(alloc: Global, ints: &[i32], turns: usize) -> Result<Script, AllocError> {
    let mut inputs = Inputs::new(alloc);
    inputs.insert(0, words_of(alloc, ints)?)?;
    let schedule = Schedule::new(vec![in alloc; 0; turns]?);
    Ok(Script { inputs, schedule })
}

// How the run of a file's source ends.
fn source_outcome(
    alloc: Global,
    file: &Admitted,
    bounds: &Bounds,
    script: &Script,
) -> Result<Outcome, Fail> {
    if !are_storable(file) || script.schedule.as_slice().len() > 1_000 {
        return Err(Fail::from("too large"));
    }
    Ok(run(alloc, file, bounds, &script.inputs, &script.schedule)?)
}

// How the runs of a file's strict, its checked and its unrolled code end.
fn code_outcomes(
    alloc: Global,
    file: &Admitted,
    bounds: &Bounds,
    script: &Script,
) -> Result<[Outcome; 3], Fail> {
    let goto = lower(alloc, file)?;
    let first = StrictThread::new(alloc, &goto, bounds)?;
    let strict = end_of(alloc, first, goto.store(), script)?;
    let checked = insert(alloc, goto)?;
    let first = PlainThread::new(alloc, &checked, bounds)?;
    let plain = end_of(alloc, first, checked.store(), script)?;
    match unwind(alloc, file, &checked, bounds) {
        Ok(unrolled) => {
            let first = UnrolledThread::new(alloc, &unrolled)?;
            let last = end_of(alloc, first, unrolled.store(), script)?;
            Ok([strict, plain, last])
        }
        Err(_) => Err(Fail::from("too many places")),
    }
}

// Whether the runs of a file end so: those of its source, and of its strict, its checked and its unrolled code.
fn all_end(
    alloc: Global,
    file: &Admitted,
    bounds: &Bounds,
    script: &Script,
    outcome: Outcome,
) -> Result<bool, Fail> {
    let source = source_outcome(alloc, file, bounds, script)?;
    Ok(source == outcome && code_outcomes(alloc, file, bounds, script)? == [outcome; 3])
}

// Whether the runs of a text that draw these ints end so in 24 turns of thread 0, under these bounds; and where each variable has an
// address, and where every second one has, in turns enough to make and end these objects and for each of their accesses.
pub fn end_under(
    alloc: Global,
    text: &[u8],
    ints: &[i32],
    bounds: &Bounds,
    outcome: Outcome,
) -> Result<bool, Fail> {
    let few = script_of(alloc, ints, 24)?;
    let many = script_of(alloc, ints, 400)?;
    let file = admitted(alloc, text)?;
    let all = admitted_with_homes(alloc, text, 1)?;
    let some = admitted_with_homes(alloc, text, 2)?;
    Ok(
        all_end(alloc, &file, bounds, &few, outcome)?
            && all_end(alloc, &all, bounds, &many, outcome)?
            && all_end(alloc, &some, bounds, &many, outcome)?,
    )
}

// The same, where each loop's test may be evaluated so many times at an arrival and each function may have so
// many activations.
pub fn end_within(
    alloc: Global,
    text: &[u8],
    ints: &[i32],
    bound: u32,
    outcome: Outcome,
) -> Result<bool, Fail> {
    if bound == 0 || bound > 1_000 {
        return Err(Fail::from("no bound"));
    }
    let bounds = Bounds::new(bound, Vec::new(alloc), true, 1, false);
    end_under(alloc, text, ints, &bounds, outcome)
}

// The same, where each loop's test may be evaluated once and each function has one activation.
pub fn end_so(alloc: Global, text: &[u8], ints: &[i32], outcome: Outcome) -> Result<bool, Fail> {
    end_within(alloc, text, ints, 1, outcome)
}
