//! Generated sources against texts that were written by hand, from numbers that a second generator drew.
#![tactic(auto)]

#[cfg(test)]
mod source_tests;
