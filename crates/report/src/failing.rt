//! A run that breaks a check, as the texts tell it.

ghost use Rattle.std.specs.Prelude.{◌≡◌, ℕ, ◌+◌, ◌^◌, ◌<◌, ◌≤◌, [], ◌∷◌, ◌++◌, length, map, All, IfOk};
ghost use Rattle.interleave.specs.Inputs.{words_of};
ghost use Rattle.report.specs.Report.{IsDrawn, IsRow, AreRising, AreMaximal};
ghost use Rattle.report.specs.Failing.{turns_of, rows_in, drew, row_of};

use interleave::Trace;
use std::alloc::{AllocError, Global};
use std::marker::Model;

/// Turns of one thread, one after another.
#[derive(Clone, Copy)]
pub struct Row {
    pub thread: u32,
    pub turns: u64,
}

/// The rows of a schedule.
#[derive(Drop)]
pub struct Rows {
    items: Vec<Row>,
}

impl Model for Rows {
    ghost use Rattle.std.specs.Prelude.{List, ℕ, map};
    ghost use Rattle.report.specs.Failing.{row_of};

    ghost Value = { List (ℕ × ℕ) };

    ghost view = { λ r. map row_of r.items.items };
}

impl Rows {
    /// The rows of a vector. Takes no memory.
    pub fn new(items: Vec<Row>) -> Rows
        ensures { result ≡ map row_of items.items }
    {
        Rows { items }
    }

    /// The rows, in their order.
    pub fn as_slice(&self) -> &[Row]
        ensures { map row_of result.now ≡ self.now }
    {
        self.items.as_slice()
    }
}

/// The last row after one more turn, of this thread. Where it is another one, the row before it is added to the rows.
fn next_row(rows: &mut Vec<Row>, last: Row, thread: u32) -> Result<Row, AllocError>
    requires { last.turns + 1 < 2 ^ 64 }
    ensures turns { IfOk result (λ row. turns_of (map row_of rows.new.items ++ row_of row ∷ []) ≡ turns_of (map row_of rows.old.items ++ row_of last ∷ []) ++ thread ∷ []) }
    ensures rows { IfOk result (λ row. All IsRow (map row_of rows.old.items ++ row_of last ∷ []) → All IsRow (map row_of rows.new.items ++ row_of row ∷ [])) }
    ensures maximal { IfOk result (λ row. AreMaximal (map row_of rows.old.items ++ row_of last ∷ []) → AreMaximal (map row_of rows.new.items ++ row_of row ∷ [])) }
    ensures few { IfOk result (λ row. row.turns ≤ last.turns + 1) }
{
    if thread == last.thread {
        return Ok(Row {
            thread,
            turns: last.turns + 1,
        });
    }
    rows.push(last)?;
    Ok(Row { thread, turns: 1 })
}

/// The rows of a schedule, each as long as can be.
pub fn rows_of(alloc: Global, schedule: &[u32]) -> Result<Vec<Row>, AllocError>
    ensures { IfOk result (λ rows. map row_of rows.items ≡ rows_in schedule.now) }
{
    let mut rows = Vec::new(alloc);
    if schedule.is_empty() {
        return Ok(rows);
    }
    let mut last = Row {
        thread: schedule[0],
        turns: 1,
    };
    'turns: for place in 1..schedule.len() {
        last = next_row(&mut rows, last, schedule[place])?;
    }
    rows.push(last)?;
    Ok(rows)
}

// The words of a thread fit. Computes nothing.
fn prove_drawn(thread: u32, words: &[u64])
    ensures { All IsDrawn (drew ((thread, words.now) ∷ [])) }
{}

// The rows of a schedule of so many turns fit. Computes nothing.
fn prove_rows(schedule: &[u32], count: usize)
    requires { count ≡ length schedule.now }
    ensures { All IsRow (rows_in schedule.now) }
{}

/// What the text of a failure tells of the words and the turns of a trace: the words of each thread that drew, the threads
/// rising, and the turns as rows that are as long as can be. Changes nothing.
pub fn trace_is_told(trace: &Trace)
    ensures words { (t : ℕ) → words_of (drew trace.now.inputs) t ≡ words_of trace.now.inputs t }
    ensures drawn { All IsDrawn (drew trace.now.inputs) }
    ensures rising { AreRising (drew trace.now.inputs) }
    ensures turns { turns_of (rows_in trace.now.schedule) ≡ trace.now.schedule }
    ensures rows { All IsRow (rows_in trace.now.schedule) }
    ensures maximal { AreMaximal (rows_in trace.now.schedule) }
{
    let schedule = trace.schedule.as_slice();
    prove_rows(schedule, schedule.len());
    for (thread, words) in trace.inputs.lists().iter() {
        prove_drawn(*thread, words.as_slice());
    }
}
