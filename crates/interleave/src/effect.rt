//! What an action does to what threads share.

use actions::Answer;
use words::Class;

/// What comes of an action: it breaks a check or waits; it is made, with this answer; or it starts the
/// thread with this number, which calls this function with this value, and the answer is the number.
#[derive(Drop)]
pub(crate) enum Effect {
    Breaks(Class),
    Waits,
    Moves(Answer),
    Starts(u32, u32, u64),
}
