//! The runs of unrolled code as guarded events over a word graph: whatever the answers to its draws and
//! reads are, the events whose guards are true tell the run that they give.
#![tactic(auto)]

mod answers;
mod bytes;
mod forming;
mod liveness;
mod parts;
mod pass;
mod registers;
mod slots;
mod values;

pub use forming::threads;
