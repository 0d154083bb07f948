//! The lines of a text that tells a failure, each by itself.

ghost use Rattle.std.specs.Prelude.{◌≡◌, ◌≢◌, ◌+◌, ◌<◌, ◌≤◌, ◌^◌, ◌++◌, ◌∷◌, [], ℕ, true, false, not, ◌==◌, List, All, MatchOption, IfOk, length, map, codes};
ghost use Rattle.std.specs.Char.{is_ascii_digit};
ghost use Rattle.std.specs.Fmt.{decimal};
ghost use Rattle.std.specs.Str.{bytes_eq};
ghost use Rattle.words.specs.declared.check.Class.{Class};
ghost use Rattle.report.specs.FileNames.{is_name_byte, all_name_bytes};
ghost use Rattle.report.specs.Identifiers.{is_letter as letter, is_word_byte as word_byte, all_word_bytes, is_identifier as identifier};
ghost use Rattle.report.specs.ClassNames.{class_of};
ghost use Rattle.report.specs.Failing.{row_of};
ghost use Rattle.report.specs.Lines.{Line as Told, generated, file, off, violated, inputs, schedule, failed, line_text, IsLine, MayStand, place_after, told_line};
ghost use Rattle.report.specs.Report.{class_name, spaced_words, spaced_rows, line_of, IsFileName, IsRow, AreMaximal};
ghost use Rattle.report.specs.Runs.{passes, fails};

use crate::failing::{Row, Rows};
use crate::runs::{
    Run, behind, in_front, is_line_end, last_number, number, small_number, split_run, value_of,
};
use crate::texts::name_of_class;
use std::alloc::{AllocError, Global};
use words::Class;

/// A line of a failure text.
#[derive(Drop)]
pub enum Line<'a> {
    /// A generated file: its number of threads and of bytes.
    Generated {
        threads: u32,
        bytes: u32,
    },
    File {
        name: &'a str,
        unwind: u32,
    },
    /// Unwinding assertions are off.
    Off,
    Violated {
        class: Class,
        line: u32,
        function: &'a [u8],
        thread: u32,
    },
    Inputs {
        thread: u32,
        words: Vec<u64>,
    },
    Schedule {
        rows: Rows,
    },
    Failed,
}

/// Where a line stands: behind a line of this kind, or at the start.
#[derive(Clone, Copy)]
pub enum Place {
    Start,
    Generated { threads: u32 },
    File,
    Off,
    Violated,
    Inputs { thread: u32 },
    Schedule,
    Failed,
}

/// The line of a generated file.
fn generated_line(text: &[u8]) -> Option<Line<'_>>
    ensures { MatchOption result
        ((threads bytes : ℕ) → IsLine (generated threads bytes) → text.now ≡ line_text (generated threads bytes) → ⊥)
        (λ l. IsLine (told_line l) × (text.now ≡ line_text (told_line l))) }
{
    let rest = behind(text, b"generated ")?;
    let (threads, rest) = small_number(rest)?;
    let rest = behind(rest, b" bytes ")?;
    let bytes = last_number(rest)?;
    Some(Line::Generated { threads, bytes })
}

fn is_name_byte(byte: u8) -> bool
    ensures { result ≡ is_name_byte byte }
{
    32 <= byte && byte != 127
}

/// None of the bytes is a control character.
fn are_name_bytes(text: &[u8]) -> bool
    ensures { result ≡ all_name_bytes text.now }
{
    for byte in text {
        if !is_name_byte(*byte) {
            return false;
        }
    }
    true
}

/// The text of a name that FILE may have.
fn file_name(name: &[u8]) -> Option<&str>
    ensures { MatchOption result (IsFileName name.now → ⊥) (λ shown. IsFileName name.now × (shown.now ≡ name.now)) }
{
    if name.is_empty() || !are_name_bytes(name) {
        return None;
    }
    str::from_utf8(name).ok()
}

/// What stands in front of the last space of a text, and what stands behind it.
fn split_last(text: &[u8]) -> Option<(&[u8], &[u8])>
    ensures { MatchOption result (passes (λ c. not (c == 32)) text.now ≡ true)
        (λ parts. (text.now ≡ parts.0.now ++ 32 ∷ parts.1.now) × (passes (λ c. not (c == 32)) parts.1.now ≡ true)) }
{
    let mut at = text.len();
    'places: while at > 0 {
        at -= 1;
        if text[at] == b' ' {
            return Some((&text[..at], &text[at + 1..]));
        }
    }
    None
}

/// The line of the file.
fn file_line(text: &[u8]) -> Option<Line<'_>>
    ensures { MatchOption result
        ((name : List ℕ) (unwind : ℕ) → IsLine (file name unwind) → text.now ≡ line_text (file name unwind) → ⊥)
        (λ l. IsLine (told_line l) × (text.now ≡ line_text (told_line l))) }
{
    let rest = behind(text, b"file ")?;
    let (front, end) = split_last(rest)?;
    let name = in_front(front, b" unwind")?;
    let name = file_name(name)?;
    let unwind = last_number(end)?;
    if 1 <= unwind && unwind <= 1000 {
        Some(Line::File { name, unwind })
    } else {
        None
    }
}

/// Each class of checks.
const CLASSES: [Class; 18] = [
    Class::Assertion,
    Class::Overflow,
    Class::Division,
    Class::Shift,
    Class::Null,
    Class::InvalidPointer,
    Class::Lifetime,
    Class::Bounds,
    Class::Readonly,
    Class::MixedSize,
    Class::Pointer,
    Class::Free,
    Class::MallocLimit,
    Class::Mutex,
    Class::Join,
    Class::Return,
    Class::Unwind,
    Class::Recursion,
];

/// Whether this is the name of a class.
fn is_named(class: Class, name: &[u8]) -> bool
    ensures { result ≡ bytes_eq (class_name class) name.now }
{
    name_of_class(class).as_bytes() == name
}

/// The first class of the table with this name.
fn class_listed(name: &[u8]) -> Option<Class>
    ensures { result ≡ class_of name.now }
{
    CLASSES.iter().copied().find(|class| is_named(*class, name))
}

/// The class with this name.
fn class_named(name: &[u8]) -> Option<Class>
    ensures { MatchOption result ((class : Class) → name.now ≡ class_name class → ⊥) (λ class. name.now ≡ class_name class) }
{
    class_listed(name)
}

fn is_letter(byte: u8) -> bool
    ensures { result ≡ letter byte }
{
    byte.is_ascii_alphabetic() || byte == b'_'
}

fn is_word_byte(byte: u8) -> bool
    ensures { result ≡ word_byte byte }
{
    is_letter(byte) || byte.is_ascii_digit()
}

fn are_word_bytes(text: &[u8]) -> bool
    ensures { result ≡ all_word_bytes text.now }
{
    for byte in text {
        if !is_word_byte(*byte) {
            return false;
        }
    }
    true
}

fn is_identifier(text: &[u8]) -> bool
    ensures { result ≡ identifier text.now }
{
    match text {
        [first, rest @ ..] => is_letter(*first) && are_word_bytes(rest),
        [] => false,
    }
}

/// The class at the front of the line of a check, and what stands behind it.
fn class_part(text: &[u8]) -> Option<(Class, &[u8])>
    ensures { MatchOption result
        ((class : Class) (rest : List ℕ) → text.now ≡ codes "violated " ++ (class_name class ++ 32 ∷ rest) → ⊥)
        (λ r. (text.now ≡ codes "violated " ++ (class_name r.0 ++ r.1.now)) × (fails (λ c. not (c == 32)) r.1.now ≡ true)) }
{
    let rest = behind(text, b"violated ")?;
    let (name, rest) = split_run(rest, Run::UpTo(b' '))?;
    let class = class_named(name)?;
    Some((class, rest))
}

/// The line behind the class, and what stands behind it.
fn line_part(text: &[u8]) -> Option<(u32, &[u8])>
    ensures { MatchOption result
        ((line : ℕ) (rest : List ℕ) → line < 2 ^ 32 → fails is_ascii_digit rest ≡ true → text.now ≡ codes " line " ++ (decimal line ++ rest) → ⊥)
        (λ r. (text.now ≡ codes " line " ++ (decimal r.0 ++ r.1.now)) × (fails is_ascii_digit r.1.now ≡ true) × (r.0 < 2 ^ 32)) }
{
    let rest = behind(text, b" line ")?;
    small_number(rest)
}

/// The function and the thread at the end of the line of a check.
fn function_part(text: &[u8]) -> Option<(&[u8], u32)>
    ensures { MatchOption result
        ((function : List ℕ) (thread : ℕ) → identifier function ≡ true → thread < 2 ^ 32 → text.now ≡ codes " function " ++ (function ++ (codes " thread " ++ line_of (decimal thread))) → ⊥)
        (λ r. (identifier r.0.now ≡ true) × (text.now ≡ codes " function " ++ (r.0.now ++ (codes " thread " ++ line_of (decimal r.1))))) }
{
    let rest = behind(text, b" function ")?;
    let (function, rest) = split_run(rest, Run::UpTo(b' '))?;
    if !is_identifier(function) {
        return None;
    }
    let rest = behind(rest, b" thread ")?;
    let thread = last_number(rest)?;
    Some((function, thread))
}

/// The line of a check.
fn violated_line(text: &[u8]) -> Option<Line<'_>>
    ensures { MatchOption result
        ((class : Class) (line : ℕ) (function : List ℕ) (thread : ℕ) → IsLine (violated class line function thread) → text.now ≡ line_text (violated class line function thread) → ⊥)
        (λ l. IsLine (told_line l) × (text.now ≡ line_text (told_line l))) }
{
    let (class, rest) = class_part(text)?;
    let (line, rest) = line_part(rest)?;
    let (function, thread) = function_part(rest)?;
    if line == 0 {
        return None;
    }
    Some(Line::Violated {
        class,
        line,
        function,
        thread,
    })
}

/// A word behind a space, and what stands behind it.
fn next_word(text: &[u8]) -> Option<(u64, &[u8])>
    ensures { MatchOption result
        ((word : ℕ) (rest : List ℕ) → word < 2 ^ 64 → fails is_ascii_digit rest ≡ true → text.now ≡ 32 ∷ (decimal word ++ rest) → ⊥)
        (λ r. (text.now ≡ 32 ∷ (decimal r.0 ++ r.1.now)) × (fails is_ascii_digit r.1.now ≡ true) × (r.0 < 2 ^ 64)) }
{
    let rest = behind(text, b" ")?;
    number(rest)
}

/// The words that are the end of a line, each behind a space.
fn words_part(alloc: Global, text: &[u8]) -> Result<Option<Vec<u64>>, AllocError>
    ensures { IfOk result (λ r. MatchOption r
        ((words : List ℕ) → All (λ w. w < 2 ^ 64) words → text.now ≡ spaced_words words ++ 10 ∷ [] → ⊥)
        (λ words. All (λ w. w < 2 ^ 64) words.items × (text.now ≡ spaced_words words.items ++ 10 ∷ []))) }
{
    let mut words = Vec::new(alloc);
    let mut rest = text;
    'words: while !is_line_end(rest) {
        let Some((word, more)) = next_word(rest) else {
            return Ok(None);
        };
        words.push(word)?;
        rest = more;
    }
    Ok(Some(words))
}

/// The thread at the front of the line of its words, and what stands behind the colon.
fn thread_part(text: &[u8]) -> Option<(u32, &[u8])>
    ensures { MatchOption result
        ((thread : ℕ) (rest : List ℕ) → thread < 2 ^ 32 → text.now ≡ codes "inputs " ++ (decimal thread ++ 58 ∷ rest) → ⊥)
        (λ r. (text.now ≡ codes "inputs " ++ (decimal r.0 ++ 58 ∷ r.1.now)) × (r.0 < 2 ^ 32)) }
{
    let rest = behind(text, b"inputs ")?;
    let (thread, rest) = small_number(rest)?;
    let rest = behind(rest, b":")?;
    Some((thread, rest))
}

/// The line of the words of a thread.
fn inputs_line(alloc: Global, text: &[u8]) -> Result<Option<Line<'static>>, AllocError>
    ensures { IfOk result (λ r. MatchOption r
        ((thread : ℕ) (words : List ℕ) → IsLine (inputs thread words) → text.now ≡ line_text (inputs thread words) → ⊥)
        (λ l. IsLine (told_line l) × (text.now ≡ line_text (told_line l)))) }
{
    let Some((thread, rest)) = thread_part(text) else {
        return Ok(None);
    };
    let Some(words) = words_part(alloc, rest)? else {
        return Ok(None);
    };
    if words.is_empty() {
        return Ok(None);
    }
    Ok(Some(Line::Inputs { thread, words }))
}

/// A row behind a space, and what stands behind it.
fn next_row(text: &[u8]) -> Option<(Row, &[u8])>
    ensures { MatchOption result
        ((row : ℕ × ℕ) (rest : List ℕ) → IsRow row → fails is_ascii_digit rest ≡ true → text.now ≡ 32 ∷ (decimal row.0 ++ (120 ∷ (decimal row.1 ++ rest))) → ⊥)
        (λ r. IsRow (row_of r.0) × (text.now ≡ 32 ∷ (decimal r.0.thread ++ (120 ∷ (decimal r.0.turns ++ r.1.now)))) × (fails is_ascii_digit r.1.now ≡ true)) }
{
    let rest = behind(text, b" ")?;
    let (thread, rest) = small_number(rest)?;
    let rest = behind(rest, b"x")?;
    let (turns, rest) = number(rest)?;
    if turns == 0 {
        return None;
    }
    Some((Row { thread, turns }, rest))
}

/// The rows that are the end of a line, each behind a space.
fn rows_part(alloc: Global, text: &[u8]) -> Result<Option<Vec<Row>>, AllocError>
    ensures { IfOk result (λ r. MatchOption r
        ((rows : List (ℕ × ℕ)) → All IsRow rows → text.now ≡ spaced_rows rows ++ 10 ∷ [] → ⊥)
        (λ rows. All IsRow (map row_of rows.items) × (text.now ≡ spaced_rows (map row_of rows.items) ++ 10 ∷ []))) }
{
    let mut rows = Vec::new(alloc);
    let mut rest = text;
    'rows: while !is_line_end(rest) {
        let Some((row, more)) = next_row(rest) else {
            return Ok(None);
        };
        rows.push(row)?;
        rest = more;
    }
    Ok(Some(rows))
}

/// Neighbouring rows are of different threads.
fn are_maximal(rows: &[Row]) -> bool
    ensures yes { result ≡ true → AreMaximal (map row_of rows.now) }
    ensures no { result ≡ false → AreMaximal (map row_of rows.now) → ⊥ }
{
    for at in 1..rows.len() {
        if rows[at - 1].thread == rows[at].thread {
            return false;
        }
    }
    true
}

/// Whether there is a row, and neighbouring rows are of different threads.
fn is_schedule(rows: &[Row]) -> bool
    ensures yes { result ≡ true → (0 < length (map row_of rows.now)) × AreMaximal (map row_of rows.now) }
    ensures no { result ≡ false → 0 < length (map row_of rows.now) → AreMaximal (map row_of rows.now) → ⊥ }
{
    !rows.is_empty() && are_maximal(rows)
}

/// The line of the schedule.
fn schedule_line(alloc: Global, text: &[u8]) -> Result<Option<Line<'static>>, AllocError>
    ensures { IfOk result (λ r. MatchOption r
        ((rows : List (ℕ × ℕ)) → IsLine (schedule rows) → text.now ≡ line_text (schedule rows) → ⊥)
        (λ l. IsLine (told_line l) × (text.now ≡ line_text (told_line l)))) }
{
    let Some(rest) = behind(text, b"schedule") else {
        return Ok(None);
    };
    let Some(rows) = rows_part(alloc, rest)? else {
        return Ok(None);
    };
    if !is_schedule(&rows) {
        return Ok(None);
    }
    Ok(Some(Line::Schedule {
        rows: Rows::new(rows),
    }))
}

/// A line that holds no value.
fn plain_line(text: &[u8]) -> Option<Line<'static>>
    ensures { MatchOption result
        ((text.now ≡ line_text off → ⊥) × (text.now ≡ line_text failed → ⊥))
        (λ l. IsLine (told_line l) × (text.now ≡ line_text (told_line l))) }
{
    if text == b"unwinding assertions off\n".as_slice() {
        Some(Line::Off)
    } else if text == b"VERIFICATION FAILED\n".as_slice() {
        Some(Line::Failed)
    } else {
        None
    }
}

/// A line of any kind.
fn any_line<'a>(alloc: Global, text: &'a [u8]) -> Result<Option<Line<'a>>, AllocError>
    ensures { IfOk result (λ r. MatchOption r
        ((l : Told) → IsLine l → text.now ≡ line_text l → ⊥)
        (λ l. IsLine (told_line l) × (text.now ≡ line_text (told_line l)))) }
{
    if let Some(line) = plain_line(text) {
        return Ok(Some(line));
    }
    if let Some(line) = generated_line(text) {
        return Ok(Some(line));
    }
    if let Some(line) = file_line(text) {
        return Ok(Some(line));
    }
    if let Some(line) = violated_line(text) {
        return Ok(Some(line));
    }
    if let Some(line) = inputs_line(alloc, text)? {
        return Ok(Some(line));
    }
    schedule_line(alloc, text)
}

/// Whether the name is that of the generated file of so many threads.
fn is_generated_as(name: &str, threads: u32) -> bool
    ensures yes { result ≡ true → name.now ≡ codes "generated-" ++ decimal threads }
    ensures no { result ≡ false → name.now ≡ codes "generated-" ++ decimal threads → ⊥ }
{
    let Some(rest) = behind(name.as_bytes(), b"generated-") else {
        return false;
    };
    match value_of(rest) {
        Some(value) => value == u64::from(threads),
        None => false,
    }
}

impl Line<'_> {
    /// Whether this line may stand at a place.
    fn may_stand(&self, place: Place) -> bool
        ensures yes { result ≡ true → MayStand place (told_line self.now) }
        ensures no { result ≡ false → MayStand place (told_line self.now) → ⊥ }
    {
        match place {
            Place::Start => matches!(self, Line::Generated { .. } | Line::File { .. }),
            Place::Generated { threads } => match self {
                Line::File { name, .. } => is_generated_as(name, threads),
                _ => false,
            },
            Place::File => matches!(self, Line::Off | Line::Violated { .. }),
            Place::Off => matches!(self, Line::Violated { .. }),
            Place::Violated => matches!(self, Line::Inputs { .. } | Line::Schedule { .. }),
            Place::Inputs { thread: last } => match self {
                Line::Inputs { thread, .. } => last < *thread,
                Line::Schedule { .. } => true,
                _ => false,
            },
            Place::Schedule => matches!(self, Line::Failed),
            Place::Failed => false,
        }
    }

    /// The place behind this line.
    pub fn place_after(&self) -> Place
        ensures { result ≡ place_after (told_line self.now) }
    {
        match self {
            Line::Generated { threads, .. } => Place::Generated { threads: *threads },
            Line::File { .. } => Place::File,
            Line::Off => Place::Off,
            Line::Violated { .. } => Place::Violated,
            Line::Inputs { thread, .. } => Place::Inputs { thread: *thread },
            Line::Schedule { .. } => Place::Schedule,
            Line::Failed => Place::Failed,
        }
    }
}

/// The line that a text is, where it may stand at a place.
pub fn line_at<'a>(
    alloc: Global,
    place: Place,
    text: &'a [u8],
) -> Result<Option<Line<'a>>, AllocError>
    ensures { IfOk result (λ r. MatchOption r
        ((l : Told) → IsLine l → MayStand place l → line_text l ≡ text.now → ⊥)
        (λ l. IsLine (told_line l) × MayStand place (told_line l) × (line_text (told_line l) ≡ text.now))) }
{
    match any_line(alloc, text)? {
        None => Ok(None),
        Some(line) => {
            if line.may_stand(place) {
                Ok(Some(line))
            } else {
                Ok(None)
            }
        }
    }
}
