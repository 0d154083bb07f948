//! Conditionals that are open at a place of a file.

ghost use Rattle.std.specs.Prelude.{◌≡◌, reverse};
ghost use Rattle.c_pre.specs.Conditionals.{is_read, is_hidden, other, skips};

/// How a part of a conditional is taken.
#[derive(Clone, Copy, PartialEq, Eq)]
pub enum Taking {
    Read,
    /// It is skipped, and the other part is read.
    Passed,
    /// The whole conditional stands in a part that is skipped.
    Hidden,
}

/// A part of a conditional that is open.
#[derive(Clone, Copy, PartialEq, Eq)]
pub struct Part {
    pub taking: Taking,
    /// Whether it is the part behind `#else`.
    pub behind_else: bool,
}

/// Whether the lines of a part are carried out and given.
pub fn is_read(taking: Taking) -> bool
    ensures { result ≡ is_read taking }
{
    match taking {
        Taking::Read => true,
        Taking::Passed => false,
        Taking::Hidden => false,
    }
}

/// Whether a part stands within one that is skipped, so that its `#else` changes nothing (C11 6.10p4).
pub fn is_hidden(taking: Taking) -> bool
    ensures { result ≡ is_hidden taking }
{
    match taking {
        Taking::Read => false,
        Taking::Passed => false,
        Taking::Hidden => true,
    }
}

/// How the part behind `#else` is taken.
pub fn other(taking: Taking) -> Taking
    ensures { result ≡ other taking }
{
    match taking {
        Taking::Read => Taking::Passed,
        Taking::Passed => Taking::Read,
        Taking::Hidden => Taking::Hidden,
    }
}

/// Whether the lines here are skipped. The innermost part stands last.
pub fn skips(parts: &[Part]) -> bool
    ensures { result ≡ skips (reverse parts.now) }
{
    match parts.last() {
        None => false,
        Some(part) => !is_read(part.taking),
    }
}
