//! The texts of the answers.

ghost use Rattle.std.specs.Prelude.{◌≡◌, [], ◌∷◌, ◌++◌, map, IfOk, OnOk, codes, string_bytes};
ghost use Rattle.std.specs.Fmt.{decimal};
ghost use Rattle.std.specs.List.{flat_map};
ghost use Rattle.report.specs.Heads.{head_of};
ghost use Rattle.report.specs.Report.{head_text, generated_lines, assertions_lines, check_line, class_name, spaced_words, inputs_line, spaced_row, schedule_line, refusal_name, limit_name, limit_value};
ghost use Rattle.report.specs.Report.{success_text as success_bytes, failure_text as failure_bytes, refusal_text as refusal_bytes, limit_text as limit_bytes, budget_text as budget_bytes};
ghost use Rattle.report.specs.Failing.{drew, row_of, rows_in, failure_of};

use crate::failing::{Row, rows_of};
use crate::text::Text;
use core_tree::{Limit, Name, Refusal};
use interleave::{Inputs, Trace};
use std::alloc::{AllocError, Global};
use std::fmt::Write;
use words::{Check, Class};

/// What the first lines of a verdict say: of a generated file the number of its threads and that of its bytes, then the name
/// of the file, the unwinding, and whether unwinding assertions are on.
#[derive(Drop)]
pub struct Head {
    pub generated: Option<(u32, u32)>,
    pub name: Name,
    pub unwind: u32,
    pub assertions: bool,
}

/// The line of a generated file; nothing of any other.
fn generated(alloc: Global, head: &Head) -> Result<String, AllocError>
    ensures { IfOk result (λ text. string_bytes text ≡ generated_lines (head_of head.now).generated) }
{
    match head.generated {
        None => Ok(String::new(alloc)),
        Some((threads, bytes)) => format!(in alloc; "generated {threads} bytes {bytes}\n"),
    }
}

/// What stands behind the name of the file: the unwinding, and in a line of its own that unwinding assertions are off, where
/// they are.
fn settings(alloc: Global, head: &Head) -> Result<String, AllocError>
    ensures { IfOk result (λ text. string_bytes text ≡ (codes " unwind " ++ (decimal head.now.unwind ++ 10 ∷ [])) ++ assertions_lines head.now.assertions) }
{
    let unwind = head.unwind;
    let mut text = format!(in alloc; " unwind {unwind}\n")?;
    if !head.assertions {
        text.push_str("unwinding assertions off\n")?;
    }
    Ok(text)
}

/// The first lines of a verdict on a file.
fn first_lines(alloc: Global, head: &Head) -> Result<Text, AllocError>
    ensures { IfOk result (λ text. text ≡ head_text (head_of head.now)) }
{
    let generated = generated(alloc, head)?;
    let settings = settings(alloc, head)?;
    let mut text = Text::from_string(generated);
    text.push("file ")?;
    text.push_name(&head.name)?;
    text.push(settings.as_str())?;
    Ok(text)
}

/// The text of a success.
pub fn success_text(alloc: Global, head: &Head) -> Result<Text, AllocError>
    ensures { IfOk result (λ text. text ≡ success_bytes (head_of head.now)) }
{
    let mut text = first_lines(alloc, head)?;
    text.push("VERIFICATION SUCCESSFUL\n")?;
    Ok(text)
}

/// Appends words, each behind a space.
fn push_words(text: &mut String, words: &[u64]) -> Result<(), AllocError>
    ensures { OnOk result (string_bytes text.new ≡ string_bytes text.old ++ spaced_words words.now) }
{
    for word in words {
        write!(text, " {word}")?;
    }
    Ok(())
}

/// Appends the line of the words of a thread.
fn push_thread(text: &mut String, thread: u32, words: &[u64]) -> Result<(), AllocError>
    ensures { OnOk result (string_bytes text.new ≡ string_bytes text.old ++ inputs_line (thread, words.now)) }
{
    write!(text, "inputs {thread}:")?;
    push_words(text, words)?;
    text.push_str("\n")?;
    Ok(())
}

/// Appends the line of the words of a thread, where it drew any.
fn push_drawn(text: &mut String, thread: u32, words: &[u64]) -> Result<(), AllocError>
    ensures { OnOk result (string_bytes text.new ≡ string_bytes text.old ++ flat_map inputs_line (drew ((thread, words.now) ∷ []))) }
{
    if words.is_empty() {
        return Ok(());
    }
    push_thread(text, thread, words)?;
    Ok(())
}

/// Appends a line for each thread that drew, by rising thread number.
fn push_inputs(text: &mut String, inputs: &Inputs) -> Result<(), AllocError>
    ensures { OnOk result (string_bytes text.new ≡ string_bytes text.old ++ flat_map inputs_line (drew inputs.now)) }
{
    for (thread, words) in inputs.lists().iter() {
        push_drawn(text, *thread, words.as_slice())?;
    }
    Ok(())
}

/// The name of a class.
pub fn name_of_class(class: Class) -> &'static str
    ensures { result.now ≡ class_name class }
{
    match class {
        Class::Assertion => "assertion",
        Class::Overflow => "overflow",
        Class::Division => "division",
        Class::Shift => "shift",
        Class::Null => "null",
        Class::InvalidPointer => "invalid-pointer",
        Class::Lifetime => "lifetime",
        Class::Bounds => "bounds",
        Class::Readonly => "readonly",
        Class::MixedSize => "mixed-size",
        Class::Pointer => "pointer",
        Class::Free => "free",
        Class::MallocLimit => "malloc-limit",
        Class::Mutex => "mutex",
        Class::Join => "join",
        Class::Return => "return",
        Class::Unwind => "unwind",
        Class::Recursion => "recursion",
    }
}

/// Appends the line of a broken check, which stands in the function of this name.
fn push_violated(
    text: &mut Text,
    alloc: Global,
    check: &Check,
    function: &Name,
) -> Result<(), AllocError>
    ensures { OnOk result (text.new ≡ text.old ++ check_line check.now.class check.now.line function.now.bytes.items check.now.thread) }
{
    let class = name_of_class(check.class);
    let line = check.line;
    let thread = check.thread;
    let front = format!(in alloc; "violated {class} line {line} function ")?;
    let back = format!(in alloc; " thread {thread}\n")?;
    text.push(front.as_str())?;
    text.push_name(function)?;
    text.push(back.as_str())?;
    Ok(())
}

/// Appends a row of a schedule, behind a space.
fn push_row(text: &mut String, row: &Row) -> Result<(), AllocError>
    ensures { OnOk result (string_bytes text.new ≡ string_bytes text.old ++ spaced_row (row_of row.now)) }
{
    let thread = row.thread;
    let turns = row.turns;
    write!(text, " {thread}x{turns}")
}

/// Appends the rows of a schedule, each behind a space.
fn push_rows(text: &mut String, rows: &[Row]) -> Result<(), AllocError>
    ensures { OnOk result (string_bytes text.new ≡ string_bytes text.old ++ flat_map (λ r. spaced_row (row_of r)) rows.now) }
{
    for row in rows {
        push_row(text, row)?;
    }
    Ok(())
}

/// Appends the line of the schedule.
fn push_schedule(text: &mut String, rows: &[Row]) -> Result<(), AllocError>
    ensures { OnOk result (string_bytes text.new ≡ string_bytes text.old ++ schedule_line (map row_of rows.now)) }
{
    text.push_str("schedule")?;
    push_rows(text, rows)?;
    text.push_str("\n")?;
    Ok(())
}

/// The lines of the words that were drawn, and that of the schedule.
fn run_lines(alloc: Global, trace: &Trace) -> Result<String, AllocError>
    ensures { IfOk result (λ text. string_bytes text ≡ flat_map inputs_line (drew trace.now.inputs) ++ schedule_line (rows_in trace.now.schedule)) }
{
    let rows = rows_of(alloc, trace.schedule.as_slice())?;
    let mut text = String::new(alloc);
    push_inputs(&mut text, &trace.inputs)?;
    push_schedule(&mut text, &rows)?;
    Ok(text)
}

/// The text of a failure: the run of the trace breaks its check, which stands in the function of this name.
pub fn failure_text(
    alloc: Global,
    head: &Head,
    trace: &Trace,
    function: &Name,
) -> Result<Text, AllocError>
    ensures { IfOk result (λ text. text ≡ failure_bytes (head_of head.now) (failure_of trace.now function.now.bytes.items)) }
{
    let run = run_lines(alloc, trace)?;
    let mut text = first_lines(alloc, head)?;
    push_violated(&mut text, alloc, &trace.check, function)?;
    text.push(run.as_str())?;
    text.push("VERIFICATION FAILED\n")?;
    Ok(text)
}

fn name_of_refusal(number: u32) -> &'static str
    ensures { result.now ≡ refusal_name number }
{
    match number {
        1 => "BadByte",
        2 => "Unclosed",
        3 => "BadConstant",
        4 => "Foreign",
        5 => "Directive",
        6 => "Include",
        7 => "Conditional",
        10 => "Syntax",
        11 => "Typing",
        _ => "Outside",
    }
}

/// The line of a refusal.
fn refusal_line(alloc: Global, refused: Refusal) -> Result<String, AllocError>
    ensures { IfOk result (λ text. string_bytes text ≡ refusal_bytes refused.number refused.line refused.rule) }
{
    let number = refused.number();
    let line = refused.line();
    let name = name_of_refusal(number);
    match refused.rule() {
        None => format!(in alloc; "refused {number} {name} line {line}\n"),
        Some(rule) => format!(in alloc; "refused {number} {name} line {line} rule {rule}\n"),
    }
}

/// The text of a refusal.
pub fn refusal_text(alloc: Global, refused: &Refusal) -> Result<Text, AllocError>
    ensures { IfOk result (λ text. text ≡ refusal_bytes refused.now.number refused.now.line refused.now.rule) }
{
    let line = refusal_line(alloc, *refused)?;
    Ok(Text::from_string(line))
}

fn name_of_limit(limit: Limit) -> &'static str
    ensures { result.now ≡ limit_name limit }
{
    match limit {
        Limit::FileBytes => "file-bytes",
        Limit::Tokens => "tokens",
        Limit::Places => "places",
        Limit::Threads => "threads",
        Limit::Actions => "actions",
        Limit::Objects => "objects",
        Limit::ObjectBytes => "object-bytes",
    }
}

fn value_of_limit(limit: Limit) -> u32
    ensures { result ≡ limit_value limit }
{
    match limit {
        Limit::FileBytes => 1_048_576,
        Limit::Tokens => 200_000,
        Limit::Places => 2_000_000,
        Limit::Threads => 64,
        Limit::Actions => 4_096,
        Limit::Objects => 8_192,
        Limit::ObjectBytes => 65_536,
    }
}

/// The text of a passed limit.
pub fn limit_text(alloc: Global, limit: Limit) -> Result<Text, AllocError>
    ensures { IfOk result (λ text. text ≡ limit_bytes limit) }
{
    let name = name_of_limit(limit);
    let value = value_of_limit(limit);
    let line = format!(in alloc; "limit {name} {value}\n")?;
    Ok(Text::from_string(line))
}

/// The text of a budget that is used up.
pub fn budget_text(alloc: Global, budget: u32) -> Result<Text, AllocError>
    ensures { IfOk result (λ text. text ≡ budget_bytes budget) }
{
    let line = format!(in alloc; "budget {budget}\n")?;
    Ok(Text::from_string(line))
}
