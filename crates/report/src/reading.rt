//! A failure text, read back.

ghost use Rattle.std.specs.Prelude.{◌≡◌, ◌<◌, ◌++◌, ℕ, true, false, List, MatchOption, IfOk, OnOk, IfErr, length};
ghost use Rattle.report.specs.Lines.{Line as Told, line_text, IsLine, MayStand, place_after, told_line, with_line};
ghost use Rattle.report.specs.Reading.{IsReading, IsFault, has_no_newline};
ghost use Rattle.report.specs.Report.{line_of};
ghost use Rattle.report.specs.declared.lines.Place.TheVariants as places;
ghost use Rattle.report.specs.Told.{parts_of, nothing_told};

use crate::failing::Rows;
use crate::lines::{Line, Place, line_at};
use crate::runs::{Run, split_run};
use core_tree::Name;
use interleave::{Inputs, Words};
use std::alloc::{AllocError, Global};
use words::Class;

/// What a failure text tells.
#[derive(Drop)]
pub struct TraceText {
    /// The name of the file.
    pub name: Name,
    pub unwind: u32,
    /// Whether unwinding assertions are on.
    pub assertions: bool,
    /// The class of the check that is broken, its line, and the name of its function.
    pub class: Class,
    pub line: u32,
    pub function: Name,
    /// The thread that breaks it.
    pub thread: u32,
    /// The words that the threads drew.
    pub inputs: Inputs,
    pub schedule: Rows,
}

/// Why a text was not read.
#[derive(Clone, Copy, PartialEq, Eq, Debug)]
pub enum TraceError {
    /// The text is no failure text. The line is the first such that no failure text begins with the lines up to it; where there
    /// is no such line, the number after the last line's.
    BadTrace { line: u32 },
    /// Memory ran out.
    Memory,
}

impl TraceText {
    /// What no line tells.
    fn nothing(alloc: Global) -> TraceText
        ensures { parts_of result ≡ nothing_told }
    {
        TraceText {
            name: Name {
                bytes: Vec::new(alloc),
            },
            unwind: 0,
            assertions: true,
            class: Class::Assertion,
            line: 0,
            function: Name {
                bytes: Vec::new(alloc),
            },
            thread: 0,
            inputs: Inputs::new(alloc),
            schedule: Rows::new(Vec::new(alloc)),
        }
    }

    /// Takes what a line tells.
    fn take(&mut self, alloc: Global, line: Line<'_>) -> Result<(), AllocError>
        ensures { OnOk result (parts_of self.new ≡ with_line (parts_of self.old) (told_line line.entry)) }
    {
        match line {
            Line::Generated { .. } => {}
            Line::File { name, unwind } => {
                let bytes = name.as_bytes().to_vec(alloc)?;
                self.name = Name { bytes };
                self.unwind = unwind;
            }
            Line::Off => self.assertions = false,
            Line::Violated {
                class,
                line,
                function,
                thread,
            } => {
                let bytes = function.to_vec(alloc)?;
                self.class = class;
                self.line = line;
                self.function = Name { bytes };
                self.thread = thread;
            }
            Line::Inputs { thread, words } => self.inputs.insert(thread, Words::new(words))?,
            Line::Schedule { rows } => self.schedule = rows,
            Line::Failed => {}
        }
        Ok(())
    }
}

/// The first line of a text, with its newline, and what stands behind it.
fn split_line(text: &[u8]) -> Option<(&[u8], &[u8])>
    ensures { MatchOption result (has_no_newline text.now ≡ true)
        (λ parts. (line : List ℕ) × (has_no_newline line ≡ true) × (parts.0.now ≡ line_of line) × (text.now ≡ line_of line ++ parts.1.now)) }
{
    let (line, _) = split_run(text, Run::UpTo(b'\n'))?;
    Some(text.split_at(line.len() + 1))
}

/// Takes the line that a text is, where it may stand at a place, and answers the place behind it.
fn take_line(
    told: &mut TraceText,
    alloc: Global,
    place: Place,
    text: &[u8],
) -> Result<Option<Place>, AllocError>
    ensures { IfOk result (λ r. MatchOption r
        ((l : Told) → IsLine l → MayStand place l → line_text l ≡ text.now → ⊥)
        (λ next. (l : Told) × IsLine l × MayStand place l × (line_text l ≡ text.now) × (next ≡ place_after l) × (parts_of told.new ≡ with_line (parts_of told.old) l))) }
{
    let Some(line) = line_at(alloc, place, text)? else {
        return Ok(None);
    };
    let next = line.place_after();
    told.take(alloc, line)?;
    Ok(Some(next))
}

/// Whether the last line was read, and nothing is left.
fn is_whole(place: Place, rest: &[u8]) -> bool
    ensures yes { result ≡ true → (place ≡ places.Failed) × (length rest.now ≡ 0) }
    ensures no { result ≡ false → place ≡ places.Failed → length rest.now ≡ 0 → ⊥ }
{
    match place {
        Place::Failed => rest.is_empty(),
        _ => false,
    }
}

/// What a failure text tells. `BadTrace` where the text is no failure text; its line is the first such that no failure text
/// begins with the lines up to it, or the number after the last line's where there is no such line. A last line without its
/// newline is no line of a text.
pub fn read_trace(alloc: Global, text: &[u8]) -> Result<TraceText, TraceError>
    requires { length text.now < 4294967295 }
    ensures read { IfOk result (IsReading text.now) }
    ensures fault { IfErr result (IsFault text.now) }
{
    let mut told = TraceText::nothing(alloc);
    let mut place = Place::Start;
    let mut rest = text;
    let mut number = 1;
    'lines: while let Some((line, more)) = split_line(rest) {
        match take_line(&mut told, alloc, place, line) {
            Err(_) => return Err(TraceError::Memory),
            Ok(None) => return Err(TraceError::BadTrace { line: number }),
            Ok(Some(next)) => place = next,
        }
        rest = more;
        number += 1;
    }
    if is_whole(place, rest) {
        Ok(told)
    } else {
        Err(TraceError::BadTrace { line: number })
    }
}
