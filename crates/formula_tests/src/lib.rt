//! Tests of the equations of a thread, of formulas over its events, and of the objects that its pointers may point to.
#![tactic(auto)]

#[cfg(test)]
mod equation_tests;
#[cfg(test)]
mod formula_tests;
#[cfg(test)]
mod set_tests;
