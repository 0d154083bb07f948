//! What a name means.

ghost use Rattle.std.specs.Prelude.{◌≡◌};
ghost use Rattle.c_scope.specs.Scopes.{is_tag};

use c_types::IntegerType;

/// A function that has no body (C11 7.21.6.3, 7.22.3, 7.22.4).
#[derive(Clone, Copy, PartialEq, Eq)]
pub enum BuiltInFunction {
    /// `malloc`, which gives an object of so many bytes.
    Malloc,
    /// `calloc`, which gives one of so many elements of so many bytes, which are 0.
    Calloc,
    /// `free`, which ends the lifetime of one.
    Free,
    /// `exit`, which ends the program.
    Exit,
    /// `abort`, which ends it too.
    Abort,
    /// `__CPROVER_assert`, which takes a scalar, and a text.
    Check,
    /// `printf`, which takes a text and any scalars, and gives a number from the inputs.
    Print,
}

/// What a name or a tag means (C11 6.2.1, 6.2.3).
#[derive(Clone, Copy, PartialEq, Eq)]
pub enum Meaning {
    /// A variable of the function, by its number there.
    Variable { variable: u32 },
    /// An object that lives as long as the program, by its number, the first of which is 1.
    Object { object: u32 },
    /// A variable whose length its initializer says, within this.
    Incomplete,
    /// `assert`, which takes an integer.
    Assert,
    /// `__CPROVER_assume`, which takes an integer.
    Assume,
    /// A function without parameters that gives a number of this type from the inputs.
    Draw { type_: IntegerType },
    /// A function that each file may call without a declaration.
    BuiltIn { function: BuiltInFunction },
    /// A function of the file, by its number.
    Function { function: u32 },
    /// A typedef, with its type's number in the scope.
    Typedef { number: u32 },
    /// A constant of type int, by its bits.
    Enumerator { bits: u32 },
    /// A tag of a struct or union, by its place in the layouts.
    Record { place: u32 },
    /// A tag of an enumeration.
    Enumeration,
}

impl Meaning {
    /// Whether it is a tag's.
    pub fn is_tag(self) -> bool
        ensures { result ≡ is_tag self }
    {
        match self {
            Meaning::Record { .. } | Meaning::Enumeration => true,
            Meaning::Variable { .. }
            | Meaning::Object { .. }
            | Meaning::Incomplete
            | Meaning::Assert
            | Meaning::Assume
            | Meaning::Draw { .. }
            | Meaning::BuiltIn { .. }
            | Meaning::Function { .. }
            | Meaning::Typedef { .. }
            | Meaning::Enumerator { .. } => false,
        }
    }
}
