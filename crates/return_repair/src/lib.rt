//! Live returns into overlays: which overlays they denote, and how they are made to follow as overlays come, move and go.
#![tactic(auto)]

mod chain;
mod living;
mod pairs;
mod repairing;
mod table;
mod topmost;

pub use living::live;
pub use repairing::repair;
pub use table::{BadChain, Loaded};
