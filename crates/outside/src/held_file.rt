//! A file that is open.

// Files in memory.

ghost use Rattle.std.specs.Prelude.{◌≡◌, min};
ghost use Rattle.std.specs.Option.{option_copied};
ghost use Rattle.outside.specs.HeldFile.{held_in, ReadsAll};

/// The name and the bytes of a file in memory. Of two files with one name in a list the first counts.
#[derive(Drop)]
pub struct HeldFile {
    pub name: String,
    pub bytes: Vec<u8>,
}

/// The bytes of the first file with this name.
pub(crate) fn find_bytes<'a>(files: &'a [HeldFile], name: &str) -> Option<&'a [u8]>
    ensures { option_copied result ≡ held_in files.now name.now }
{
    files
        .iter()
        .find(|file| file.name.as_str() == name)
        .map(|file| file.bytes.as_slice())
}

/// Copies bytes from the offset `at` on into the front of the buffer, as many as it has room for.
pub(crate) fn copy_from(bytes: &[u8], at: u64, into: &mut [u8]) -> usize
    ensures { ReadsAll bytes.now at result into.new }
{
    let start = smaller(at as usize, bytes.len());
    let (_, rest) = bytes.split_at(start);
    let count = smaller(into.len(), rest.len());
    into[..count].copy_from_slice(&rest[..count]);
    count
}

/// The smaller of two numbers.
pub(crate) fn smaller(one: usize, other: usize) -> usize
    ensures { result ≡ min one other }
{
    if one < other { one } else { other }
}
