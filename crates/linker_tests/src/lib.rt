//! Flat programs with the runtime, linked, written, opened and run.
#![tactic(auto)]

#[cfg(test)]
mod flat_units;
#[cfg(test)]
mod object_rows;
#[cfg(test)]
mod overlay_rows;
#[cfg(test)]
mod part_rows;
#[cfg(test)]
mod plain_rows;
#[cfg(test)]
mod rows;
#[cfg(test)]
mod running;
#[cfg(test)]
mod tests;
