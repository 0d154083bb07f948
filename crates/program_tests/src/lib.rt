//! Tests of typing, and of what typed files do on the machines of all stages. They need no top call, and so are proved beside
//! it.
#![tactic(auto)]

#[cfg(test)]
mod flow_tests;
#[cfg(test)]
mod homes;
#[cfg(test)]
mod machines;
#[cfg(test)]
mod run_tests;
#[cfg(test)]
mod typing_tests;
