//! Tests of parsing. They stand apart from those of `cbmc_cmd`, since they need neither typing nor the top call and so are
//! proved beside these.
#![tactic(auto)]

#[cfg(test)]
mod parse_expression_tests;
#[cfg(test)]
mod parse_tests;
#[cfg(test)]
mod spelled;
