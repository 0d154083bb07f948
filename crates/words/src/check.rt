//! The checks that a run may break, by class.

/// What kind of check a run breaks. Each variant says when its checks break.
#[derive(Clone, Copy, Debug, PartialEq, Eq)]
pub enum Class {
    /// The argument of `assert` or `__CPROVER_assert` is 0.
    Assertion,
    /// A signed `+`, `-`, `*`, unary `-`, `++` or `--` has a result outside its type, or `/` or `%`
    /// divides the least value by -1 (C11 6.5p5).
    Overflow,
    /// `/` or `%` by 0 (C11 6.5.5p5).
    Division,
    /// A shift count is negative or at least the width; or a signed left shift has a negative left
    /// operand or a result that the type can't represent (C11 6.5.7p3, p4).
    Shift,
    /// An access or a subscript through a null pointer, one with object number 0 (C11 6.5.3.2p4).
    Null,
    /// An access or a subscript through a pointer with a number that no object has.
    InvalidPointer,
    /// An access or a subscript through a pointer to a dead object (C11 6.2.4p2).
    Lifetime,
    /// An access that isn't within its object; or a subscript whose place isn't from 0 to the
    /// object's size (C11 6.5.6p8).
    Bounds,
    /// A write to a string literal (C11 6.4.5p7) or to an object defined `const` (C11 6.7.3p6).
    Readonly,
    /// An access to a shared object that isn't exactly one of its cells.
    MixedSize,
    /// A pointer sum whose base has no live object or whose result isn't from 0 to its size; or a
    /// difference or relation of pointers to different objects (C11 6.5.6p8, p9, 6.5.8p5).
    Pointer,
    /// `free` of a pointer that is neither null nor the start of a live object from `malloc` or
    /// `calloc` (C11 7.22.3.3p2).
    Free,
    /// `malloc` or `calloc` of a size, as a whole number, above the malloc limit.
    MallocLimit,
    /// Unlock by a thread that doesn't hold the mutex, lock or unlock of a destroyed mutex, or
    /// destruction of a mutex that isn't free (POSIX `pthread_mutex_lock`, `pthread_mutex_destroy`).
    Mutex,
    /// A join of the thread itself, or of a number that no created thread has; main counts as created
    /// (POSIX `pthread_join`).
    Join,
    /// The value of a call is used and its function ended without one (C11 6.9.1p12).
    Return,
    /// A loop's test is true at the last of the evaluations that the unwinding bound allows for one
    /// arrival at the loop.
    Unwind,
    /// A call of a function of which the thread has as many activations open as the unwinding bound
    /// allows.
    Recursion,
}

/// The check that a run breaks: its class, and where it stands.
#[derive(Clone, Copy, Debug, PartialEq, Eq)]
pub struct Check {
    pub class: Class,
    /// The line in the file, from 1.
    pub line: u32,
    /// The number of the function that the check stands in.
    pub function: u32,
    /// The number of the thread that breaks it.
    pub thread: u32,
}
