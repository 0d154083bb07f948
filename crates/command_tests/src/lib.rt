//! Tests of the command, of the generated programs and of the list of loops and assertions.
#![tactic(auto)]

#[cfg(test)]
mod generator_tests;
#[cfg(test)]
mod option_tests;
#[cfg(test)]
mod property_tests;
