//! Tests of what is said where the program has no arguments, and of each fault of a stream. The built program is tried by trials/.
#![tactic(auto)]

#[cfg(test)]
mod checks;
#[cfg(test)]
mod ending_tests;
