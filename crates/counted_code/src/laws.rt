//! The law of the objects of lowered code, as a function that does nothing.

ghost use Rattle.counted_code.specs.Laws.{CountsObjects};

/// The Allocs of the code of a file are exactly the objects that the file counts.
pub fn lowered_code_counts_objects()
    ensures { CountsObjects }
{}
