//! Tests of forms and logs, and of the check of refutations.
#![tactic(auto)]

#[cfg(test)]
mod checker_tests;
#[cfg(test)]
mod form_tests;
