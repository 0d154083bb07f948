//! How a thread stands: it can go on, it has ended, or it was stopped.

/// The state of a thread that was created: it runs, or has ended with the value of its End.
#[derive(Clone, Copy, PartialEq, Eq)]
pub enum ThreadState {
    Running,
    Ended(u64),
}
