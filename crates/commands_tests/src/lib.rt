//! Tests of the commands of `tp`, over objects in memory.
#![tactic(auto)]

#[cfg(test)]
mod compiled_tests;
#[cfg(test)]
mod go_tests;
#[cfg(test)]
mod mean_tests;
#[cfg(test)]
mod outside;
#[cfg(test)]
mod run_tests;
