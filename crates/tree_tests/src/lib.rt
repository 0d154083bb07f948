//! Tests of what typed trees with objects, pointers and heap do. No text reaches these forms, so that the trees stand in a notation of
//! their own.
#![tactic(auto)]

#[cfg(test)]
mod action_tests;
#[cfg(test)]
mod count_tests;
#[cfg(test)]
mod machines;
#[cfg(test)]
mod row_tests;
