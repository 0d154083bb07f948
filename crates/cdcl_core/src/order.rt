//! What is left to choose in a search: which variable is decided next, as what, and when the search starts over.

ghost use Rattle.std.specs.Prelude.{◌≡◌, ◌^◌, ◌<◌, None, IfSome};
ghost use Rattle.cdcl_core.specs.Steps.{known_value};

use crate::trail::Trail;
use sat_form::Lit;
use std::alloc::AllocError;

/// An order in which variables are decided. A search finds its answer whatever the order.
pub trait Order: Drop {
    /// The next variable that waits and has no value, which waits no longer.
    fn next_open(&mut self, trail: &Trail) -> Option<usize>
        ensures found { IfSome result (λ v. (v < trail.now.variables) × (known_value trail.now.steps v ≡ None)) }
        ensures limit { IfSome result (λ v. v < 2 ^ 31) };

    /// The value that a variable is given where it is decided.
    fn phase(&self, variable: usize) -> bool;

    /// This literal was true and has no value any more: its variable waits.
    fn release(&mut self, literal: Lit) -> Result<(), AllocError>;

    /// A conflict comes from these variables.
    fn raise_all(&mut self, variables: &[usize]);

    /// Whether the search is to start over, asked at a conflict.
    fn starts_over(&mut self) -> bool;
}
