//! What a turn comes to.

use words::Check;

/// What comes of a turn.
#[derive(Clone, Copy, PartialEq, Eq)]
pub enum Turn {
    /// The thread made its action.
    Moved,
    /// The thread isn't there, has ended, is blocked or waits, or another one is in a section, or the
    /// process has ended. Nothing changed.
    Nothing,
    /// The thread breaks this check. Nothing changed.
    Broken(Check),
}

/// How a run ends: each turn was made, or one broke this check.
#[derive(Clone, Copy, PartialEq, Eq)]
pub enum Outcome {
    Fine,
    Broken(Check),
}
