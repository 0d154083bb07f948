//! Where the value of an expression lies, and where a place is.

ghost use Rattle.std.specs.Prelude.{◌≡◌, if◌then◌else◌};

use c_temporaries::Access;
use c_types::IntegerType;

/// The register that has the value of an expression, the type of the value, and the line of the
/// expression's own token.
#[derive(Clone, Copy)]
pub struct Operand {
    pub register: usize,
    pub type_: IntegerType,
    pub line: u32,
}

/// How a place is reached, and the register that tells where it is, where that is evaluated.
#[derive(Clone, Copy)]
pub(crate) struct Way {
    pub(crate) access: Access,
    pub(crate) pointer: usize,
}

/// The registers of a place's number before an operation on it and behind it.
#[derive(Clone, Copy)]
pub(crate) struct Updated {
    pub(crate) old: usize,
    pub(crate) new: usize,
}

/// The blocks of a call: the first of its arguments, how many they are, and the one for what it hands over.
#[derive(Clone, Copy)]
pub(crate) struct Passed {
    pub(crate) first: usize,
    pub(crate) count: usize,
    pub(crate) into: usize,
}

/// The register of the value of `++` or `--`.
pub(crate) fn step_value(updated: Updated, before: bool) -> usize
    ensures { result ≡ (if before then updated.new else updated.old) }
{
    if before { updated.new } else { updated.old }
}
