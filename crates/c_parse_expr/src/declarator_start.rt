//! What a declarator begins with.

/// What a declarator begins with.
#[derive(Clone, Copy, PartialEq, Eq)]
pub enum DeclaratorStart {
    /// The name that it declares.
    Name,
    /// The parenthesis around a declarator.
    Inside,
    /// The suffixes of an abstract declarator.
    Suffixes,
    /// Nothing: the empty abstract declarator.
    Nothing,
}
