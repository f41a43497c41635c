//! A grammar as data, the trees that spell lists of lexemes in it, and the theorem on readers that look one lexeme ahead.
#![tactic(auto)]

pub mod whole_trees;
