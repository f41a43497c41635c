//! Programs of several files in memory: what gathering their sources gives, their order, and what the front end makes of them.
#![tactic(auto)]

#[cfg(test)]
mod programs;
#[cfg(test)]
mod rows;
#[cfg(test)]
mod tests;
