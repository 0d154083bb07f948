//! The text of the generated program.

ghost use Rattle.std.specs.Prelude.{◌≡◌, ◌≤◌, ◌++◌, IfOk, OnOk, string_bytes};
ghost use Rattle.generator.specs.Program.{each, creates, joins, generated_text};

use std::alloc::{AllocError, Global};
use std::fmt::Write;

/// Appends the line that creates a thread and notes what it adds.
fn push_creation(text: &mut String, thread: u32) -> Result<(), AllocError>
    ensures { OnOk result (string_bytes text.new ≡ string_bytes text.old ++ creates thread) }
{
    write!(
        text,
        "pthread_t t{thread};pthread_create(&t{thread},0,w,(void*){thread});e=e^(a&(b|{thread}));\n"
    )
}

/// Appends such a line for each of the threads, from 1 on.
fn push_creations(text: &mut String, count: u32) -> Result<(), AllocError>
    requires { count ≤ 16 }
    ensures { OnOk result (string_bytes text.new ≡ string_bytes text.old ++ each creates count) }
{
    for earlier in 0..count {
        push_creation(text, earlier + 1)?;
    }
    Ok(())
}

/// Appends the line that joins a thread.
fn push_join(text: &mut String, thread: u32) -> Result<(), AllocError>
    ensures { OnOk result (string_bytes text.new ≡ string_bytes text.old ++ joins thread) }
{
    write!(text, "pthread_join(t{thread},0);\n")
}

/// Appends such a line for each of the threads, from 1 on.
fn push_joins(text: &mut String, count: u32) -> Result<(), AllocError>
    requires { count ≤ 16 }
    ensures { OnOk result (string_bytes text.new ≡ string_bytes text.old ++ each joins count) }
{
    for earlier in 0..count {
        push_join(text, earlier + 1)?;
    }
    Ok(())
}

/// The text of the generated program of `n` threads, 1 to 16: each adds its part to a sum under a mutex, and main
/// compares the sum with what it expects.
pub fn generated(alloc: Global, n: u32) -> Result<Vec<u8>, AllocError>
    requires positive { 1 ≤ n }
    requires at_most_16 { n ≤ 16 }
    ensures { IfOk result (λ text. text.items ≡ generated_text n) }
{
    let mut text = String::from_str(
        alloc,
        "unsigned long s,a,b;\npthread_mutex_t m;\nvoid *w(void *p){unsigned long k=(unsigned long)p;pthread_mutex_lock(&m);s=s^(a&(b|k));pthread_mutex_unlock(&m);return 0;}\nint main(void){unsigned long e=0;\na=nondet_ulong();b=nondet_ulong();\n",
    )?;
    push_creations(&mut text, n)?;
    push_joins(&mut text, n)?;
    text.push_str("assert(s==e);return 0;}\n")?;
    Ok(text.into_bytes())
}
