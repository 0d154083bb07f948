//! The bytes that a command is about.

ghost use Rattle.std.specs.Prelude.{◌≡◌, ◌≢◌, ℕ, List, ◌<◌, ◌≤◌, ◌⊎◌, length, vec_len, Some, None, IfOk, IsErrOf, OnOk};
ghost use Rattle.outside.specs.Count.{HasCause};
ghost use Rattle.options.specs.Command.{asked_of};
ghost use Rattle.cbmc_top.specs.Calls.{WasRead, HasReadMore};
ghost use Rattle.cbmc_top.specs.Command.{file_read, WasGiven, IsUnread};

use generator::generated;
use options::Options;
use outside::{ReadError, Source};
use std::alloc::{AllocError, Global};

/// How many bytes of a file are read at the most: one more than the limit.
const READ_AT_MOST: usize = 1_048_577;

/// How many bytes are asked for in one read.
const CHUNK: usize = 16_384;

/// Reads the next bytes of a file behind those that were read, and says whether there may be more.
fn read_more<S: Source>(
    files: &mut S,
    name: &str,
    bytes: &mut Vec<u8>,
    buffer: &mut [u8],
) -> Result<bool, ReadError>
    requires room { vec_len bytes.old < 1048577 }
    requires buffer { length buffer.old ≡ 16384 }
    ensures held { (other : List ℕ) → S.holds files.new other ≡ S.holds files.old other }
    ensures others { (other : List ℕ) → other ≢ name.now → S.faults files.new other ≡ S.faults files.old other }
    ensures cause { HasCause (S.faults files.old name.now) (S.faults files.new name.now) (IsErrOf result ReadError.Failed) }
    ensures given { OnOk result (S.faults files.new name.now ≡ S.faults files.old name.now) }
    ensures memory { IsErrOf result ReadError.Memory → S.faults files.new name.now ≡ S.faults files.old name.now }
    ensures bytes { IfOk result (λ more. HasReadMore (S.holds files.old name.now) bytes.old.items bytes.new.items more) }
{
    let room = smaller(CHUNK, READ_AT_MOST - bytes.len());
    let part = &mut buffer[..room];
    let count = files.read(name, bytes.len() as u64, part)?;
    if count == 0 {
        return Ok(false);
    }
    match bytes.extend_from_slice(&part[..count]) {
        Ok(()) => Ok(true),
        Err(_) => Err(ReadError::Memory),
    }
}

/// Reads a file up to one byte past the limit.
fn read_file<S: Source>(alloc: Global, files: &mut S, name: &str) -> Result<Vec<u8>, ReadError>
    ensures held { (other : List ℕ) → S.holds files.new other ≡ S.holds files.old other }
    ensures others { (other : List ℕ) → other ≢ name.now → S.faults files.new other ≡ S.faults files.old other }
    ensures cause { HasCause (S.faults files.old name.now) (S.faults files.new name.now) (IsErrOf result ReadError.Failed) }
    ensures given { OnOk result (S.faults files.new name.now ≡ S.faults files.old name.now) }
    ensures memory { IsErrOf result ReadError.Memory → S.faults files.new name.now ≡ S.faults files.old name.now }
    ensures bytes { IfOk result (λ bytes. WasRead (S.holds files.old name.now) bytes.items) }
{
    let mut bytes: Vec<u8> = Vec::new(alloc);
    let mut buffer = match make_buffer(alloc) {
        Ok(buffer) => buffer,
        Err(_) => return Err(ReadError::Memory),
    };
    'reading: while bytes.len() < READ_AT_MOST {
        if !read_more(files, name, &mut bytes, &mut buffer)? {
            break;
        }
    }
    Ok(bytes)
}

fn make_buffer(alloc: Global) -> Result<Vec<u8>, AllocError>
    ensures { IfOk result (λ buffer. length buffer.items ≡ 16384) }
{
    vec![in alloc; 0u8; CHUNK]
}

fn smaller(a: usize, b: usize) -> usize
    ensures first { result ≤ a }
    ensures second { result ≤ b }
    ensures one { (result ≡ a) ⊎ (result ≡ b) }
{
    if a < b { a } else { b }
}

/// The bytes that a command is about: those of FILE, or the generated text.
pub fn bytes_of<S: Source>(
    alloc: Global,
    options: &Options,
    files: &mut S,
) -> Result<Vec<u8>, ReadError>
    ensures held { (other : List ℕ) → S.holds files.new other ≡ S.holds files.old other }
    ensures others { (other : List ℕ) → IsUnread (asked_of options.now) other → S.faults files.new other ≡ S.faults files.old other }
    ensures later { (other : List ℕ) → S.faults files.old other ≤ S.faults files.new other }
    ensures cause { (name : List ℕ) → file_read (asked_of options.now) ≡ Some name → HasCause (S.faults files.old name) (S.faults files.new name) (IsErrOf result ReadError.Failed) }
    ensures failed { IsErrOf result ReadError.Failed → file_read (asked_of options.now) ≢ None }
    ensures given { OnOk result ((name : List ℕ) → file_read (asked_of options.now) ≡ Some name → S.faults files.new name ≡ S.faults files.old name) }
    ensures memory { IsErrOf result ReadError.Memory → (name : List ℕ) → file_read (asked_of options.now) ≡ Some name → S.faults files.new name ≡ S.faults files.old name }
    ensures bytes { IfOk result (λ bytes. WasGiven (asked_of options.now) (S.holds files.old) bytes.items) }
{
    match options.task.generate {
        Some(threads) => match generated(alloc, threads) {
            Ok(bytes) => Ok(bytes),
            Err(_) => Err(ReadError::Memory),
        },
        None => read_file(alloc, files, &options.name),
    }
}
