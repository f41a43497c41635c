//! Types and trees, scopes and interfaces: sizes, slots, weights and orders that were worked out by hand.
#![tactic(auto)]

#[cfg(test)]
mod export_tests;
#[cfg(test)]
mod expression_tests;
#[cfg(test)]
mod interface_samples;
#[cfg(test)]
mod layout_tests;
#[cfg(test)]
mod measures;
#[cfg(test)]
mod order_tests;
#[cfg(test)]
mod resolve_tests;
#[cfg(test)]
mod rows;
#[cfg(test)]
mod scope_tests;
#[cfg(test)]
mod slot_tests;
#[cfg(test)]
mod statement_tests;
#[cfg(test)]
mod tables;
#[cfg(test)]
mod tree_tests;
