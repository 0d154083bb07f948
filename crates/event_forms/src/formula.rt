//! What is asked of the variables of a graph over which threads have forms.

use crate::forms::ThreadForm;
use word_dag::Id;

/// What is asked of the values of a graph's variables: that the goal, a node of 1 bit, is true. The form
/// tells the run that they give, and the store from which it runs.
#[derive(Drop)]
pub struct Formula {
    pub goal: Id,
    pub form: ThreadForm,
}
